// The second pass over the roles of a rota: its entries and rows, written.
#![tactic(auto)]

ghost use Rattle.std.specs.Prelude.{◌≡◌, ◌+◌, ◌-◌, ◌*◌, ◌≤◌, ◌<◌, length, get_or, drop, IfSome};
ghost use Rattle.std.proofs.lemmas.List.Edits.{sets};
ghost use Rattle.ground.specs.Believed.Sequence.{joined};
ghost use Rattle.rota.specs.Believed.RotaBytes.{roles_of};
ghost use Rattle.table.specs.Believed.TableBytes.{entry_bytes, row_bytes};
ghost use Rattle.rewrite_rules.specs.Believed.Rewriting.{size_of};
ghost use Rattle.rewrite_count.specs.Parts.{table_of, RoomFor, RoomFrom, SameRoom, AllKept, RoleFrom};

use rewrite_count::fields::Fields;
use rewrite_count::scratch::Scratch;

// The derived roles and marks of role r, which is role i of those to write, from place `at` of the pairs and place `from` of the marks on: how many
// derived roles. They were kept since they were counted, or are derived once more.
fn role_at(fields: &Fields, r: u8, i: usize, scratch: &mut Scratch, at: usize, from: usize) -> usize
    requires located { (r < roles_of fields.now.roles.now.bytes.now) × (i < 32) × (at ≤ length scratch.old.pairs.now) × (from ≤ length scratch.old.marks.now) }
    requires room { RoomFrom fields.now at from scratch.old }
    requires kept { IfSome scratch.old.kept (λ found. RoleFrom fields.now r at from scratch.old (get_or found i 0)) }
    ensures derived { RoleFrom fields.now r at from scratch.new result }
    ensures kept { IfSome scratch.old.kept (λ found. (result ≡ get_or found i 0) × (scratch.new.pairs.now ≡ scratch.old.pairs.now) × (scratch.new.marks.now ≡ scratch.old.marks.now)) }
    ensures same { SameRoom scratch.old scratch.new × (scratch.new.kept ≡ scratch.old.kept) }
{
    match scratch.found(i) {
        Some(m) => m,
        None => scratch.derive_at(fields, r, 33345, at, from),
    }
}

// Writes the entries of the roles from byte 16 on, and their rows after the `total` entries. Where the roles were not kept since they were counted, for
// want of room, each is derived once more.
pub fn write_all(fields: &Fields, out: &mut [u8], total: usize, scratch: &mut Scratch)
    requires room { RoomFor fields.now scratch.old }
    requires kept { IfSome scratch.old.kept (λ found. AllKept fields.now found scratch.old) }
    requires total_value { (total ≡ length (table_of fields.now.roles.now).entries) × (size_of (table_of fields.now.roles.now) ≤ length out.old) }
    ensures written { out.new
        ≡ sets (sets out.old 16 (joined entry_bytes (table_of fields.now.roles.now).entries)) (16 + 17 * total)
        (joined row_bytes (table_of fields.now.roles.now).rows) }
    ensures same { SameRoom scratch.old scratch.new × (scratch.new.kept ≡ scratch.old.kept) }
{
    let roles = fields.roles;
    let division = roles.division;
    let n = fields.mask_count;
    let mut d = 0;
    let mut p = 16 + 17 * total;
    for r in roles.first..roles.end {
        let i = (r - roles.first) as usize;
        let at = scratch.place(2 * d);
        let from = scratch.place(i * (n + 1));
        let m = role_at(fields, r, i, scratch, at, from);
        rewrite_rows::write_entries(out, 16 + 17 * d, r, scratch.pairs_from(at), m);
        p = rewrite_rows::write_rows(
            out,
            p,
            d as u32,
            &division.eras,
            division.era_count,
            &division.cells,
            division.cell_count,
            fields.kinds,
            fields.lens,
            fields.ends,
            scratch.marks_from(from),
        );
        d += m;
    }
}
