// Rewriting: from a rota's bytes to the bytes of its table.
#![tactic(auto)]

ghost use Rattle.std.specs.Prelude.{◌≡◌, ◌≤◌, length};
ghost use Rattle.rewrite_rules.specs.Believed.Rewriting.{rewrite_outcome, size_outcome, area_after};
ghost use Rattle.rewrite_count.specs.Parts.{table_of};
ghost use Rattle.rewrite_place.specs.Parts.{placed_area};
ghost use Rattle.rewrite_area.specs.Parts.{placed_outcome};
ghost use Rattle.rewrite_area.specs.Answers.{written_given};

use refusal::Refusal;
use rewrite_area::Rewritten;
use rewrite_count::fields::Roles;

// Rewrites roles of a rota that is read and divided, in scratch by the number of fields.
fn rewrite_roles(roles: &Roles, out: &mut [u8], room: usize) -> Result<Rewritten, Refusal>
    requires { length out.old ≤ room }
    ensures { (written_given result ≡ placed_outcome (table_of roles.now) room) × (out.new ≡ placed_area (table_of roles.now) out.old) }
{
    let division = roles.division;
    let ne = division.era_count;
    let nc = division.cell_count;
    if 128 < nc {
        return rewrite_scratch::rewrite_more(roles, out, room);
    }
    if ne * nc <= 128 {
        return rewrite_scratch::rewrite_small(roles, out, room);
    }
    rewrite_scratch::rewrite_more(roles, out, room)
}

// Rewrites a rota, counting to `room`: 1 to 12 and 52 as it is read, then 20 exactly where the table is longer than the room; else the numbers of its
// derived roles and rows and its length. It is written at the start of the area where it fits, and the area stays as it came where it does not.
fn rewrite_to(s: &[u8], out: &mut [u8], room: usize) -> Result<Rewritten, Refusal>
    requires { length out.old ≤ room }
    ensures { (written_given result ≡ rewrite_outcome s.now room) × (out.new ≡ area_after s.now out.old) }
{
    let layout = rota::locate(s)?;
    let counts = layout.counts;
    let division = rewrite_grid::divide(s, layout);
    let roles = Roles {
        bytes: s,
        layout,
        division: &division,
        first: 0,
        end: counts.roles as u8,
    };
    rewrite_roles(&roles, out, room)
}

// Rewrites a rota into an area, whose length is the room.
pub fn rewrite(s: &[u8], out: &mut [u8]) -> Result<Rewritten, Refusal>
    ensures { (written_given result ≡ rewrite_outcome s.now (length out.old)) × (out.new ≡ area_after s.now out.old) }
{
    let room = out.len();
    rewrite_to(s, out, room)
}

// How large the table of a rota is: what rewriting would tell, but never 20. It is counted with room for every table, and written nowhere, since no
// table is of one byte.
pub fn size(s: &[u8]) -> Result<Rewritten, Refusal>
    ensures { written_given result ≡ size_outcome s.now }
{
    let mut area = [0u8; 1];
    rewrite_to(s, &mut area, 35212336)
}
