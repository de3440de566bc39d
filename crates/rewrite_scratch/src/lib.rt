// Scratch for the rewriting, by the number of fields.
#![tactic(auto)]

ghost use Rattle.std.specs.Prelude.{◌≡◌, ◌*◌, ◌≤◌, length};
ghost use Rattle.rewrite_count.specs.Parts.{table_of};
ghost use Rattle.rewrite_place.specs.Parts.{placed_area};
ghost use Rattle.rewrite_area.specs.Parts.{placed_outcome};
ghost use Rattle.rewrite_area.specs.Answers.{written_given};

use refusal::Refusal;
use rewrite_area::Rewritten;
use rewrite_count::fields::Roles;

// Scratch is cleared before use, so it comes in three sizes: a small rota does not pay for the largest, nor for its frame, since it is compiled by itself.
#[inline(never)]
pub fn rewrite_small(roles: &Roles, out: &mut [u8], room: usize) -> Result<Rewritten, Refusal>
    requires { (length out.old ≤ room) × (roles.now.division.now.era_count * roles.now.division.now.cell_count ≤ 128) × (roles.now.division.now.cell_count ≤ 128) }
    ensures { (written_given result ≡ placed_outcome (table_of roles.now) room) × (out.new ≡ placed_area (table_of roles.now) out.old) }
{
    rewrite_area::rewrite_with::<128, 128, 256, 129, 256, 512>(roles, out, room)
}

// The two larger sizes, in one frame. 33,345 fields are the most: 65 eras by 513 cells.
#[inline(never)]
pub fn rewrite_more(roles: &Roles, out: &mut [u8], room: usize) -> Result<Rewritten, Refusal>
    requires { length out.old ≤ room }
    ensures { (written_given result ≡ placed_outcome (table_of roles.now) room) × (out.new ≡ placed_area (table_of roles.now) out.old) }
{
    let division = roles.division;
    if division.era_count * division.cell_count <= 4096 {
        return rewrite_area::rewrite_with::<513, 4096, 8192, 4097, 8192, 16384>(roles, out, room);
    }
    rewrite_area::rewrite_with::<513, 33345, 66690, 33346, 26624, 93314>(roles, out, room)
}
