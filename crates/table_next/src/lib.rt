// When a permission can next be used, by an accepted table: one pass over its rows.
#![tactic(auto)]

ghost use Rattle.std.specs.Prelude.{◌≡◌, ◌≤◌, ◌<◌};
ghost use Rattle.minutes.specs.Believed.Minutes.{E};
ghost use Rattle.policy.specs.Believed.NextUse.{next_use_question};
ghost use Rattle.refusal.specs.Believed.Ends.{outcome_of};
ghost use Rattle.table.specs.Believed.Table.{policy_of};
ghost use Rattle.table.specs.Believed.TableBytes.{table_of};
ghost use Rattle.table.specs.Believed.TableRefusals.{table_judged};
ghost use Rattle.table_next.specs.FirstUse.{first_of_rows, idle, first_use};

use refusal::Refusal;
use table::Table;

// The rows from row k to row `last` are of one role, and are over at m or begin at `best` or later.
#[tactic(auto, unfolding(crate::specs::FirstUse::idle))]
fn is_idle(table: &Table<'_>, k: usize, last: usize, m: u32, best: u32) -> bool
    requires { (k < table.now.counts.rows) × (last < table.now.counts.rows) }
    ensures { result ≡ idle table.now.bytes.now m best k last }
{
    (table.window(last).end <= m || best <= table.window(k).begin)
        && table.source(k) == table.source(last)
}

// The rows before `from` gave `best`; what the rows before `to` give. No minute is before m. Where there is none yet it is END and no option, as it is
// also what the next row's first minute must stay below.
fn pass_rows(
    table: &Table<'_>,
    u: u32,
    p: u32,
    m: u32,
    below: u32,
    from: usize,
    to: usize,
    best: u32,
) -> u32
    requires { (u < table.now.counts.users) × (p < table.now.counts.permissions) × (m ≤ E) × (from ≤ to) × (to ≤ table.now.counts.rows) × (best ≡ first_of_rows table.now.bytes.now u p m below from) }
    ensures { result ≡ first_of_rows table.now.bytes.now u p m below to }
{
    let mut least = best;
    for k in from..to {
        let x = table_row_times::first_of_row(table, k, u, p, m, least);
        if x < least && (table.source(k) as u32) < below {
            if x == m {
                return x;
            }
            least = x;
        }
    }
    least
}

// The first minute from m on at which a role below `below` grants permission p to user u. Rows go by source role, so none counts after one of a role
// from `below` on; and rows of one role go by their dates, so that a block is passed by its first and last row.
pub fn first_use(table: &Table<'_>, u: u32, p: u32, m: u32, below: u32) -> Option<u32>
    requires { (u < table.now.counts.users) × (p < table.now.counts.permissions) × (m ≤ E) }
    ensures { result ≡ first_use (table_of table.now.bytes.now) u p m below }
{
    let rows = table.rows();
    let mut best = minutes::END;
    let mut k = 0;
    while k < rows {
        if below <= table.source(k) as u32 {
            break;
        }
        let next = k + (rows - k).min(64);
        if !is_idle(table, k, next - 1, m, best) {
            best = pass_rows(table, u, p, m, below, k, next, best);
            if best == m {
                break;
            }
        }
        k = next;
    }
    (best < minutes::END).then_some(best)
}

// When user u can next use permission p, from minute m on: the table's refusal, 33, 34, 35, or that minute.
pub fn next_use(s: &[u8], u: u32, p: u32, m: u32) -> Result<Option<u32>, Refusal>
    ensures { outcome_of result ≡ next_use_question (table_judged s.now) (policy_of (table_of s.now)) u p m }
{
    let table = table_reader::open(s)?;
    policy::judge_arguments(table.counts.users, table.counts.permissions, u, p, m)?;
    Ok(first_use(&table, u, p, m, table.counts.roles))
}
