// A table put into an area: written where it fits, else nothing is.
#![tactic(auto)]

ghost use Rattle.std.specs.Prelude.{◌≡◌, ◌+◌, ◌-◌, ◌*◌, ◌≤◌, ◌<◌, leb, length, IfSome};
ghost use Rattle.rewrite_count.specs.Parts.{length_with, table_of, CountedTo, RoomFor, RoomFrom, SameRoom, AllKept};
ghost use Rattle.rewrite_place.specs.Parts.{HeaderFits, started, placed_area};

use rewrite_count::Count;
use rewrite_count::fields::Fields;
use rewrite_count::scratch::Scratch;

// Writes the header where the area has room for a table of `size` bytes: whether it did. Nothing is written before this is decided.
fn start_table(out: &mut [u8], header: table::Counts, size: usize) -> bool
    requires { HeaderFits header × (16 ≤ size) }
    ensures { (result ≡ leb size (length out.old)) × (out.new ≡ started out.old header size) }
{
    if out.len() < size {
        return false;
    }
    table_writer::write_header(out, header);
    true
}

// The length of a table with such counts.
pub fn length_of(k: Count) -> usize
    requires { (k.entries ≤ 1067040) × (k.rows ≤ 1067040) }
    ensures { result ≡ length_with k.entries k.rows }
{
    16 + 17 * k.entries + 16 * k.rows
}

// Writes the table of the roles, counted, where it fits the area.
fn put_table(fields: &Fields, out: &mut [u8], k: Count, scratch: &mut Scratch)
    requires counted { CountedTo (table_of fields.now.roles.now) (length out.old) k }
    requires room { RoomFor fields.now scratch.old }
    requires kept { IfSome scratch.old.kept (λ found. length_with k.entries k.rows ≤ length out.old
        → AllKept fields.now found scratch.old) }
    ensures placed { out.new ≡ placed_area (table_of fields.now.roles.now) out.old }
    ensures same { SameRoom scratch.old scratch.new × (scratch.new.kept ≡ scratch.old.kept) }
{
    let size = length_of(k);
    let c = fields.roles.layout.counts;
    let header = table::Counts {
        cycle: c.cycle,
        users: c.users,
        permissions: c.permissions,
        roles: c.roles,
        derived: k.entries as u32,
        rows: k.rows as u32,
    };
    if start_table(out, header, size) {
        rewrite_fill::write_all(fields, out, k.entries, scratch);
    }
}

// No derived roles yet of each role, where there is room to keep so many roles from the count to the writing, with n marks each behind that of kind 0.
fn none_kept(roles: usize, n: usize, pairs: usize, marks: usize) -> Option<[usize; 32]>
    requires { (roles ≤ 32) × (n ≤ 33345) }
    ensures { IfSome result (λ found. (length found ≡ 32) × (2 * (roles * n) ≤ pairs) × (roles * (n + 1) ≤ marks)) }
{
    if pairs < 2 * (roles * n) {
        return None;
    }
    if marks < roles * (n + 1) {
        return None;
    }
    Some([0; 32])
}

// Counts the table of the roles of a rota that is read, divided and numbered, and writes it where it fits the area: the counts, which are the table's or
// already too many for the room. There may be more room to count to than the area has. The scratch stays as it was lent, but for which roles are kept in
// it.
pub fn place_table(fields: &Fields, out: &mut [u8], room: usize, scratch: &mut Scratch) -> Count
    requires area { length out.old ≤ room }
    requires room { RoomFrom fields.now 0 0 scratch.old }
    ensures placed { CountedTo (table_of fields.now.roles.now) room result
        × (out.new ≡ placed_area (table_of fields.now.roles.now) out.old) }
    ensures same { SameRoom (record scratch.old { kept = scratch.new.kept }) scratch.new }
{
    let roles = fields.roles;
    let count = (roles.end - roles.first) as usize;
    let pairs = scratch.pairs.len();
    let marks = scratch.marks.len();
    scratch.kept = none_kept(count, fields.mask_count, pairs, marks);
    let k = rewrite_count::count_all(fields, room, scratch);
    put_table(fields, out, k, scratch);
    k
}
