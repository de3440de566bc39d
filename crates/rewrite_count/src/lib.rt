// The first pass over the roles of a rota: how many derived roles and rows its table has.
#![tactic(auto)]

ghost use Rattle.std.specs.Prelude.{◌+◌, ◌≤◌, length, IfSome};
ghost use Rattle.rewrite_count.specs.Parts.{length_with, table_of, CountedTo, RoomFor, SameRoom, AllKept};

pub mod fields;
pub mod scratch;

use fields::Fields;
use scratch::Scratch;

#[derive(Clone, Copy)]
pub struct Count {
    pub entries: usize,
    pub rows: usize,
}

// Counts the derived roles and rows of the roles. It stops as soon as a table of so many is longer than the room, since the length only grows: within a
// role by its derived roles alone, of 17 bytes each with a row of 16 at least, and then by its rows alone.
pub fn count_all(fields: &Fields, room: usize, scratch: &mut Scratch) -> Count
    requires room { RoomFor fields.now scratch.old }
    requires found { IfSome scratch.old.kept (λ found. fields.now.roles.now.end ≤ fields.now.roles.now.first + length found) }
    ensures counted { CountedTo (table_of fields.now.roles.now) room result }
    ensures kept { IfSome scratch.new.kept (λ found. length_with result.entries result.rows ≤ room
        → AllKept fields.now found scratch.new) }
    ensures same { SameRoom scratch.old scratch.new }
{
    let roles = fields.roles;
    let n = fields.mask_count;
    let mut d = 0;
    let mut rows = 0;
    for r in roles.first..roles.end {
        let i = (r - roles.first) as usize;
        let at = scratch.place(2 * d);
        let from = scratch.place(i * (n + 1));
        let m = scratch.derive_at(fields, r, room / 33, at, from);
        d += m;
        let least = rows + m;
        if room < 16 + 17 * d + 16 * least {
            return Count {
                entries: d,
                rows: least,
            };
        }
        let marks = scratch.marks_from(from);
        let eras = roles.division.era_count;
        rows += rewrite_rows::count_rows(fields.kinds, fields.ends, eras, marks, room / 16);
        if room < 16 + 17 * d + 16 * rows {
            return Count { entries: d, rows };
        }
        scratch.note(i, m);
    }
    Count { entries: d, rows }
}
