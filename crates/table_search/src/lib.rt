// The row of a source role of an accepted table that covers a minute: looked for where it is likely to be, else by halving.
#![tactic(auto)]

ghost use Rattle.std.specs.Prelude.{◌≡◌, ◌≤◌, ◌<◌};
ghost use Rattle.table_search.specs.Rows.{row_for, Stands, few_rows};

use std::cmp::Ordering;
use table::{Counts, Moment};

// Where row i stands as to the row of a role that covers the minute: before it, at it or after it.
fn stage(moment: &Moment<'_>, i: usize, role: usize) -> Ordering
    requires { i < moment.now.table.counts.rows }
    ensures { Stands moment.now.table.bytes.now role moment.now.minute i result }
{
    let source = moment.table.source(i) as usize;
    if source < role {
        return Ordering::Less;
    }
    if role < source {
        return Ordering::Greater;
    }
    let w = moment.table.window(i);
    if moment.minute < w.begin {
        return Ordering::Greater;
    }
    if w.end <= moment.minute {
        return Ordering::Less;
    }
    let offset = w.offset as u32;
    if moment.phase < offset {
        return Ordering::Greater;
    }
    if moment.phase - offset < w.length as u32 {
        Ordering::Equal
    } else {
        Ordering::Less
    }
}

// A number from a to before b, where there is one: `step` after a, or the middle where that is nearer.
fn after(a: usize, b: usize, step: usize) -> usize
    requires { a ≤ b }
    ensures { (a ≤ result) × (a < b → result < b) }
{
    a + step.min((b - a) / 2)
}

// The same from the other end: `step` before the last.
fn before(a: usize, b: usize, step: usize) -> usize
    requires { a ≤ b }
    ensures { (a ≤ result) × (a < b → result < b) }
{
    let half = (b - a) / 2;
    if step < half { b - 1 - step } else { a + half }
}

// A row, if there is one; and where a search at a later minute may begin, which promises nothing.
#[derive(Clone, Copy)]
pub struct Found {
    pub row: Option<usize>,
    pub next: usize,
}

// The row of a role that covers the minute. Row `guess` is looked at first, then those beside it, and on in wider steps, each about twice the one
// before: any number will do for it, and one that is near saves the search. Where it is no row the search goes by halving.
pub fn row_at(moment: &Moment<'_>, role: usize, guess: usize) -> Found
    ensures { result.row ≡ row_for moment.now.table.bytes.now role moment.now.minute }
{
    let rows = moment.table.rows();
    let mut a = 0;
    let mut b = rows;
    let mut m = rows / 2;
    let mut step = rows;
    if guess < rows {
        m = guess;
        step = 0;
    }
    while a < b {
        match stage(moment, m, role) {
            Ordering::Less => {
                a = m + 1;
                m = after(a, b, step);
            }
            Ordering::Equal => {
                return Found {
                    row: Some(m),
                    next: m,
                };
            }
            Ordering::Greater => {
                b = m;
                m = before(a, b, step);
            }
        }
        step = step.saturating_mul(2).saturating_add(1);
    }
    Found { row: None, next: a }
}

// Whether the roles have so few rows, on average, that these are quicker passed than searched.
pub fn few_rows(n: Counts) -> bool
    ensures { result ≡ few_rows n }
{
    n.rows / 16 < n.roles
}
