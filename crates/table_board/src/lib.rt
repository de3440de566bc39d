// The staff board: for one minute, from a table, the permissions of every user and the number of rows that enable their derived role then.
#![tactic(auto)]

ghost use Rattle.std.specs.Prelude.{◌≡◌, ◌<◌, IfOk, ◌≤◌};
ghost use Rattle.ground.specs.Believed.Outcome.{given};
ghost use Rattle.refusal.specs.Believed.Ends.{judgement_of};
ghost use Rattle.table.specs.Believed.TableBytes.{table_of};
ghost use Rattle.table_board.specs.Believed.Board.{shown_at, board_told, board_outcome};
ghost use Rattle.table_board.specs.Rows.{board_judged, added, added_row};

use bitset::Members;
use refusal::Refusal;
use table::{Moment, Table};

// What the board tells, as C reads it: a refusal's number, or 0; the rows; and the permissions of each user number. Where refused, all else is 0.
#[repr(C)]
#[derive(Clone, Copy)]
pub struct Board {
    pub refusal: u32,
    pub rows: u32,
    pub rights: [u64; 64],
}

// Adds permissions to the sets of users.
fn add(rights: &mut [u64; 64], users: u64, permissions: u64)
    ensures { rights.new ≡ added rights.old users permissions }
{
    for u in Members::of(users) {
        let i = u as usize;
        rights[i] = bitset::either(rights[i], permissions);
    }
}

// Adds the permissions of the entry of row i to the sets of its users.
#[tactic(auto, unfolding(crate::specs::Rows::added_row))]
fn add_row(table: &Table<'_>, i: usize, rights: &mut [u64; 64])
    requires { i < table.now.counts.rows }
    ensures { rights.new ≡ added_row rights.old table.now.bytes.now i }
{
    let users = table.users(i);
    let permissions = table.permissions(i);
    add(rights, users, permissions);
}

// The board by a pass over the rows: each that covers the minute counts and adds the permissions of its entry.
fn pass_rows(moment: &Moment<'_>) -> Board
    ensures { result ≡ board_told (given (shown_at (table_of moment.now.table.bytes.now) moment.now.minute)) }
{
    let mut rights = [0u64; 64];
    let mut rows: u32 = 0;
    for i in 0..moment.table.counts.rows {
        if table_answers::row_covers(moment, i as usize) {
            add_row(&moment.table, i as usize, &mut rights);
            rows += 1;
        }
    }
    Board {
        refusal: 0,
        rows,
        rights,
    }
}

// As far past b as b is past a: where the next role's row is, if that role has as many rows. It is for a guess.
fn onward(a: usize, b: usize) -> usize
    ensures { b ≤ result }
{
    b.saturating_add(b.saturating_sub(a))
}

// The board by a search for each role: the row that covers the minute, if there is one, counts and adds the permissions of its entry. Rows go by
// role, so that each search begins as far past the last one as that one went.
fn search_rows(moment: &Moment<'_>) -> Board
    ensures { result ≡ board_told (given (shown_at (table_of moment.now.table.bytes.now) moment.now.minute)) }
{
    let mut rights = [0u64; 64];
    let mut count: u32 = 0;
    let mut last = 0;
    let mut near = 0;
    for r in 0..moment.table.counts.roles as usize {
        let f = table_search::row_at(moment, r, near);
        let row = f.row;
        near = onward(last, f.next);
        last = f.next;
        if let Some(k) = row {
            add_row(&moment.table, k, &mut rights);
            count += 1;
        }
    }
    Board {
        refusal: 0,
        rows: count,
        rights,
    }
}

// The board of an accepted table.
fn board_in(table: &Table<'_>, t: u32) -> Board
    ensures { result ≡ board_told (given (shown_at (table_of table.now.bytes.now) t)) }
{
    let moment = table.at(t);
    if table_search::few_rows(table.counts) {
        return pass_rows(&moment);
    }
    search_rows(&moment)
}

// The table of a board at minute t, or the table's refusal, or 33.
fn open_at(s: &[u8], t: u32) -> Result<Table<'_>, Refusal>
    ensures judged { judgement_of result ≡ board_judged s.now t }
    ensures lent { IfOk result (λ table. table.bytes.now ≡ s.now) }
{
    let table = table_reader::open(s)?;
    if minutes::END <= t {
        return Err(Refusal::NoSuchMinute);
    }
    Ok(table)
}

// The board of minute t: the table's refusal, 33, or the board.
pub fn board_at(s: &[u8], t: u32) -> Board
    ensures { result ≡ board_told (board_outcome s.now t) }
{
    match open_at(s, t) {
        Ok(table) => board_in(&table, t),
        Err(r) => Board {
            refusal: u32::from(r),
            rows: 0,
            rights: [0u64; 64],
        },
    }
}
