// Questions to an accepted table: the row of each role is searched for, where the roles have more than a few rows. For one question the search goes
// over all rows, for many over the rows of each role, which are found once.
#![tactic(auto)]

ghost use Rattle.std.specs.Prelude.{◌≡◌, ◌+◌, ◌≤◌, ◌<◌, IfSome};
ghost use Rattle.policy.specs.Believed.Policy.{question};
ghost use Rattle.refusal.specs.Believed.Ends.{outcome_of};
ghost use Rattle.table.specs.Believed.Table.{answer, policy_of};
ghost use Rattle.table.specs.Believed.TableBytes.{row_of, table_of};
ghost use Rattle.table.specs.Believed.TableRefusals.{table_judged};
ghost use Rattle.table_search.specs.Rows.{row_for};
ghost use Rattle.table_questions.specs.Starts.{RowsBelow, BeginsAt, FirstRows, Noted, has_begun, Decides};

use refusal::Refusal;
use table::{Moment, Table};

// Whether there is a row and its entry has both bits set, which decides for the role whose row it is.
fn row_decides(table: &Table<'_>, row: Option<usize>, u: u32, p: u32) -> bool
    requires { (u < table.now.counts.users) × (p < table.now.counts.permissions) × IfSome row (λ k. k < table.now.counts.rows) }
    ensures { Decides table.now.bytes.now u p row result }
{
    match row {
        Some(k) => table_answers::row_has_both(table, k, u, p),
        None => false,
    }
}

// The answer of an accepted table by a search for each role, lowest first: the first role whose row covers the minute and has both bits set. Rows go
// by role, so that each search begins where the last one ended.
fn search_roles(moment: &Moment<'_>, u: u32, p: u32) -> Option<u8>
    requires { (u < moment.now.table.counts.users) × (p < moment.now.table.counts.permissions) }
    ensures { result ≡ answer (table_of moment.now.table.bytes.now) u p moment.now.minute }
{
    let mut near = 0;
    for r in 0..moment.table.counts.roles as usize {
        let f = table_search::row_at(moment, r, near);
        let row = f.row;
        near = f.next;
        if row_decides(&moment.table, row, u, p) {
            return Some(r as u8);
        }
    }
    None
}

// The answer of an accepted table.
pub fn answer_in(table: &Table<'_>, u: u32, p: u32, t: u32) -> Option<u8>
    requires { (u < table.now.counts.users) × (p < table.now.counts.permissions) }
    ensures { result ≡ answer (table_of table.now.bytes.now) u p t }
{
    if table_search::few_rows(table.counts) {
        return table_answers::answer_in(table, u, p, t);
    }
    search_roles(&table.at(t), u, p)
}

// One question: the table's refusal, 33, 34, 35, or the answer.
pub fn question(s: &[u8], u: u32, p: u32, t: u32) -> Result<Option<u8>, Refusal>
    ensures { outcome_of result ≡ question (table_judged s.now) (policy_of (table_of s.now)) u p t }
{
    let table = table_reader::open(s)?;
    policy::judge_arguments(table.counts.users, table.counts.permissions, u, p, t)?;
    Ok(answer_in(&table, u, p, t))
}

// Where the rows of a role begin, at `from` or after it, or the number of rows.
fn first_row(table: &Table<'_>, role: usize, from: usize) -> usize
    requires { (from ≤ table.now.counts.rows) × RowsBelow table.now.bytes.now role from }
    ensures { BeginsAt table.now.bytes.now role result }
{
    let mut a = from;
    let mut b = table.rows();
    while a < b {
        let m = a + (b - a) / 2;
        if (table.source(m) as usize) < role {
            a = m + 1;
        } else {
            b = m;
        }
    }
    a
}

// For each role, where its rows begin. Rows go by role, so that each search begins where the last one ended.
fn first_rows(table: &Table<'_>) -> [u64; 32]
    ensures { FirstRows table.now.bytes.now result }
{
    let mut starts = [0u64; 32];
    let mut from = 0;
    for k in 0..table.counts.roles as usize {
        from = first_row(table, k, from);
        starts[k] = from as u64;
    }
    starts
}

// What is found out once for many questions: where each role's rows begin, unless they are passed.
pub fn note_starts(table: &Table<'_>) -> [u64; 32]
    ensures { Noted table.now.bytes.now table.now.counts result }
{
    if table_search::few_rows(table.counts) {
        return [0; 32];
    }
    first_rows(table)
}

// Whether row i comes before the minute or covers it: its end is not after the minute, or it has begun and its cell starts at or before the phase.
#[tactic(auto, unfolding(crate::specs::Starts::has_begun))]
fn begun(moment: &Moment<'_>, i: usize) -> bool
    requires { i < moment.now.table.counts.rows }
    ensures { result ≡ has_begun (row_of moment.now.table.bytes.now i).window moment.now.minute moment.now.phase }
{
    let w = moment.table.window(i);
    w.end <= moment.minute || (w.begin <= moment.minute && w.offset as u32 <= moment.phase)
}

// Of the rows from `first` to before `past`, which are a role's, the one that covers the minute. It is the last that has begun, or there is none.
fn row_among(moment: &Moment<'_>, role: usize, first: usize, past: usize) -> Option<usize>
    requires { BeginsAt moment.now.table.bytes.now role first × BeginsAt moment.now.table.bytes.now (role + 1) past }
    ensures { result ≡ row_for moment.now.table.bytes.now role moment.now.minute }
{
    let mut a = first;
    let mut b = past;
    while a < b {
        let m = a + (b - a) / 2;
        if begun(moment, m) {
            a = m + 1;
        } else {
            b = m;
        }
    }
    if a <= first {
        return None;
    }
    let k = a - 1;
    let covered = table_answers::row_covers(moment, k);
    if covered { Some(k) } else { None }
}

// The row of a role that covers the minute, where each role's rows begin at `starts`. Those of the last role go to the end.
fn row_by(moment: &Moment<'_>, starts: &[u64; 32], role: usize) -> Option<usize>
    requires { FirstRows moment.now.table.bytes.now starts.now × (role < moment.now.table.counts.roles) }
    ensures { result ≡ row_for moment.now.table.bytes.now role moment.now.minute }
{
    let first = starts[role] as usize;
    let next = role + 1;
    let past = if next < moment.table.counts.roles as usize {
        starts[next] as usize
    } else {
        moment.table.rows()
    };
    row_among(moment, role, first, past)
}

// The answer of an accepted table by its roles, lowest first, where each role's rows begin at `starts`.
fn search_starts(moment: &Moment<'_>, starts: &[u64; 32], u: u32, p: u32) -> Option<u8>
    requires { (u < moment.now.table.counts.users) × (p < moment.now.table.counts.permissions) × FirstRows moment.now.table.bytes.now starts.now }
    ensures { result ≡ answer (table_of moment.now.table.bytes.now) u p moment.now.minute }
{
    for role in 0..moment.table.counts.roles as usize {
        let row = row_by(moment, starts, role);
        if row_decides(&moment.table, row, u, p) {
            return Some(role as u8);
        }
    }
    None
}

// The answer of an accepted table, where each role's rows begin at `starts`: quicker than a search without them, and worth finding them for some
// questions to one table.
pub fn answer_by(table: &Table<'_>, starts: &[u64; 32], u: u32, p: u32, t: u32) -> Option<u8>
    requires { (u < table.now.counts.users) × (p < table.now.counts.permissions) × Noted table.now.bytes.now table.now.counts starts.now }
    ensures { result ≡ answer (table_of table.now.bytes.now) u p t }
{
    if table_search::few_rows(table.counts) {
        return table_answers::answer_in(table, u, p, t);
    }
    search_starts(&table.at(t), starts, u, p)
}

// One question to an accepted table, where each role's rows begin at `starts`: 33, 34, 35, or the answer.
pub fn question_by(
    table: &Table<'_>,
    starts: &[u64; 32],
    u: u32,
    p: u32,
    t: u32,
) -> Result<Option<u8>, Refusal>
    requires { Noted table.now.bytes.now table.now.counts starts.now }
    ensures { outcome_of result ≡ question (table_judged table.now.bytes.now) (policy_of (table_of table.now.bytes.now)) u p t }
{
    policy::judge_arguments(table.counts.users, table.counts.permissions, u, p, t)?;
    Ok(answer_by(table, starts, u, p, t))
}
