// The table in the area, by way of scratch: written where it fits, else nothing is.
#![tactic(auto)]

ghost use Rattle.std.specs.Prelude.{◌≡◌, ◌*◌, ◌≤◌, ◌<◌, ltb, length};
ghost use Rattle.ground.specs.Believed.Choice.{pick};
ghost use Rattle.ground.specs.Believed.Outcome.{refused, given};
ghost use Rattle.rewrite_count.specs.Parts.{length_with, table_of};
ghost use Rattle.rewrite_place.specs.Parts.{placed_area};
ghost use Rattle.rewrite_area.specs.Parts.{Sizes, counts_of, placed_outcome};
ghost use Rattle.rewrite_area.specs.Answers.{written_given};

use refusal::Refusal;
use rewrite_count::Count;
use rewrite_count::fields::{Fields, Roles};
use rewrite_count::scratch::Scratch;

// The numbers of derived roles and of rows, and the length, of a table.
#[derive(Clone, Copy)]
pub struct Rewritten {
    pub derived: u32,
    pub rows: u32,
    pub length: usize,
}

// What is told of a table with such counts: 20 where it is longer than the room.
fn answer(k: Count, room: usize) -> Result<Rewritten, Refusal>
    requires { (k.entries ≤ 1067040) × (k.rows ≤ 1067040) }
    ensures { written_given result ≡ pick (ltb room (length_with k.entries k.rows)) (refused 20) (given (counts_of k)) }
{
    let length = rewrite_place::length_of(k);
    if room < length {
        return Err(Refusal::AreaTooSmall);
    }
    Ok(Rewritten {
        derived: k.entries as u32,
        rows: k.rows as u32,
        length,
    })
}

// The number of trees of an index for n keys: twice as many, so that few keys share one, but one at least and `most` at most.
fn trees(n: usize, most: usize) -> usize
    requires { 0 < most }
    ensures { (0 < result) × (result ≤ most) }
{
    if n == 0 {
        return 1;
    }
    if n <= most / 2 {
        return 2 * n;
    }
    most
}

// Rewrites the roles of a rota that is read and divided, in scratch of such sizes, with a place for each field. The table is counted to `room`, which
// decides 20, and written where it fits the area. Inlined where a size is chosen, which decides whose frame the scratch is in.
#[inline(always)]
pub fn rewrite_with<
    const CELLS: usize,
    const FIELDS: usize,
    const PAIRS: usize,
    const MARKS: usize,
    const TREES: usize,
    const LINKS: usize,
>(roles: &Roles, out: &mut [u8], room: usize) -> Result<Rewritten, Refusal>
    requires area { length out.old ≤ room }
    requires sizes { Sizes (roles.now.division.now.era_count * roles.now.division.now.cell_count) roles.now.division.now.cell_count CELLS FIELDS PAIRS MARKS TREES LINKS }
    ensures { (written_given result ≡ placed_outcome (table_of roles.now) room) × (out.new ≡ placed_area (table_of roles.now) out.old) }
{
    let mut held = [0u64; CELLS];
    let mut row = [0u64; CELLS];
    let mut kinds = [0u16; FIELDS];
    let mut lens = [0u8; FIELDS];
    let mut masks = [0u32; FIELDS];
    let mut pairs = [0u64; PAIRS];
    let mut marks = [0u16; MARKS];
    let mut links = [0u16; LINKS];
    let mut ends = [0usize; 66];
    let division = roles.division;
    let all = trees(division.era_count * division.cell_count, TREES);
    let mask_count = rewrite_masks::number(
        roles.bytes,
        roles.layout,
        &division.eras,
        division.era_count,
        &division.cells,
        division.cell_count,
        &mut held,
        &mut row,
        &mut kinds,
        &mut lens,
        &mut ends,
        &mut masks,
        &mut links,
        all,
    );
    let fields = Fields {
        roles,
        kinds: &kinds,
        lens: &lens,
        ends: &ends,
        masks: &masks,
        mask_count,
    };
    let mut scratch = Scratch {
        pairs: &mut pairs,
        marks: &mut marks,
        links: &mut links,
        trees: trees(mask_count, TREES),
        kept: None,
    };
    let k = rewrite_place::place_table(&fields, out, room, &mut scratch);
    answer(k, room)
}
