// What an accepted table answers: one question to it, and who holds a permission.
#![tactic(auto)]

ghost use Rattle.std.specs.Prelude.{◌≡◌, ◌<◌};
ghost use Rattle.policy.specs.Believed.Policy.{holders_at};
ghost use Rattle.table.specs.Believed.Table.{answer, policy_of};
ghost use Rattle.table.specs.Believed.TableBytes.{table_of};
ghost use Rattle.table_answers.specs.Grants.{RowInside, covering, both_at, both_of, row_grants, row_users};

use table::{Moment, Table};

// Whether row i covers the minute.
#[tactic(auto, unfolding(minutes::specs::Believed::Minutes::covers, minutes::specs::Believed::Minutes::in_phase))]
pub fn row_covers(moment: &Moment<'_>, i: usize) -> bool
    requires { i < moment.now.table.counts.rows }
    ensures { result ≡ covering moment.now.table.bytes.now moment.now.minute i }
{
    let w = moment.table.window(i);
    minutes::during(w.begin, w.end, moment.minute)
        && minutes::in_span(w.offset as u32, w.length as u32, moment.phase)
}

// Whether the entry of the row at `at` has both bits set.
pub fn has_both(s: &[u8], at: usize, u: u32, p: u32) -> bool
    requires { RowInside s.now at × (u < 64) × (p < 64) }
    ensures { result ≡ both_at s.now u p at }
{
    let e = 16 + 17 * (endian::read32(s, at) as usize);
    bitset::contains(endian::read64(s, e + 1), u) && bitset::contains(endian::read64(s, e + 9), p)
}

// Whether the entry of row i of an accepted table has both bits set.
pub fn row_has_both(table: &Table<'_>, i: usize, u: u32, p: u32) -> bool
    requires { (i < table.now.counts.rows) × (u < 64) × (p < 64) }
    ensures { result ≡ both_of table.now.bytes.now u p i }
{
    has_both(table.bytes, table.row_place(i), u, p)
}

// Whether row i covers the minute, and its entry has both bits set.
#[tactic(auto, unfolding(crate::specs::Grants::row_grants))]
fn row_grants(moment: &Moment<'_>, i: usize, u: u32, p: u32) -> bool
    requires { (i < moment.now.table.counts.rows) × (u < 64) × (p < 64) }
    ensures { result ≡ row_grants moment.now.table.bytes.now u p moment.now.minute i }
{
    row_covers(moment, i) && row_has_both(&moment.table, i, u, p)
}

// The answer of an accepted table: rows go by source role, so the first row that grants has the lowest.
pub fn answer_in(table: &Table<'_>, u: u32, p: u32, t: u32) -> Option<u8>
    requires { (u < table.now.counts.users) × (p < table.now.counts.permissions) }
    ensures { result ≡ answer (table_of table.now.bytes.now) u p t }
{
    // Where there are none, no phase is asked for.
    if table.rows() == 0 {
        return None;
    }
    let moment = table.at(t);
    for k in 0..table.rows() {
        if row_grants(&moment, k, u, p) {
            return Some(table.source(k));
        }
    }
    None
}

// The users of the entry of row i where the row covers the minute, else none.
#[tactic(auto, unfolding(crate::specs::Grants::row_users))]
fn row_users(moment: &Moment<'_>, i: usize) -> u64
    requires { i < moment.now.table.counts.rows }
    ensures { result ≡ row_users moment.now.table.bytes.now moment.now.minute i }
{
    if row_covers(moment, i) {
        moment.table.users(i)
    } else {
        0
    }
}

// The users of every row of an accepted table that covers minute t.
pub fn holders_in(table: &Table<'_>, t: u32) -> u64
    ensures { result ≡ holders_at (policy_of (table_of table.now.bytes.now)) t }
{
    let moment = table.at(t);
    let mut set = 0;
    for i in 0..table.rows() {
        set = bitset::either(set, row_users(&moment, i));
    }
    set
}
