// One row of an accepted table: the first minute at which it grants a permission.
#![tactic(auto)]

ghost use Rattle.std.specs.Prelude.{◌≡◌, ◌≤◌, ◌<◌};
ghost use Rattle.ground.specs.From.{first_from};
ghost use Rattle.minutes.specs.Believed.Minutes.{E, covers};
ghost use Rattle.table.specs.Believed.TableBytes.{cycle_of, row_at_byte};
ghost use Rattle.table_row_times.specs.RowFirst.{RowReady, row_first, first_of_row};

use table::Table;

// The first minute from m on that the row at `at` covers, or END.
fn row_next(s: &[u8], at: usize, cycle: u32, m: u32) -> u32
    requires { RowReady s.now at × (cycle ≡ cycle_of s.now) × (m ≤ E) }
    ensures { result ≡ first_from m E (covers (cycle_of s.now) (row_at_byte s.now at).window) }
{
    let w = table::read_window(s, at);
    let offset = w.offset as u32;
    let x = minutes::first_in(cycle, w.begin.max(m), offset, offset + w.length as u32);
    if x < w.end { x } else { minutes::END }
}

// The first minute from m on and before `best` at which the row at `at` grants, or `best`. Dates are looked at first: most rows are over, or begin
// too late.
pub fn row_first(s: &[u8], at: usize, cycle: u32, u: u32, p: u32, m: u32, best: u32) -> u32
    requires { RowReady s.now at × (cycle ≡ cycle_of s.now) × (u < 64) × (p < 64) × (m ≤ E) × (best ≤ E) }
    ensures { result ≡ row_first s.now u p m best at }
{
    let w = table::read_window(s, at);
    if best <= w.begin || w.end <= m {
        return best;
    }
    if table_answers::has_both(s, at, u, p) {
        return row_next(s, at, cycle, m).min(best);
    }
    best
}

// The same of row i of an accepted table.
pub fn first_of_row(table: &Table<'_>, i: usize, u: u32, p: u32, m: u32, best: u32) -> u32
    requires { (i < table.now.counts.rows) × (u < 64) × (p < 64) × (m ≤ E) × (best ≤ E) }
    ensures { result ≡ first_of_row table.now.bytes.now u p m best i }
{
    row_first(
        table.bytes,
        table.row_place(i),
        table.counts.cycle,
        u,
        p,
        m,
        best,
    )
}
