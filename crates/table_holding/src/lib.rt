// Who of a set holds a permission at a minute by an accepted table, and how far each of them surely goes on to: by one row of each role, and the rows
// that go on where it stops. Nothing is taken away by a row that begins, so no other row counts.
#![tactic(auto)]

ghost use Rattle.std.specs.Prelude.{◌≡◌, true, ◌+◌, ◌*◌, ◌≤◌, ◌<◌, Some};
ghost use Rattle.minutes.specs.Believed.Minutes.{E};
ghost use Rattle.policy.specs.Believed.Policy.{holders_at};
ghost use Rattle.policy.specs.Held.{HeldAmong};
ghost use Rattle.table.specs.Believed.Table.{policy_of};
ghost use Rattle.table.specs.Believed.TableBytes.{cycle_of, table_of};
ghost use Rattle.table_search.specs.Rows.{row_for};
ghost use Rattle.table_holding.specs.Held.{HeldBy, Reaching, GoesOn};

use policy::Held;
use table::{Moment, Table};

// Whether row i goes on at phase `stop`: its dates have begun at minute t and do not end before `era`, and its users are all of `gain`.
fn goes_on(table: &Table<'_>, i: usize, t: u32, stop: u32, era: u32, gain: u64) -> bool
    requires { i < table.now.counts.rows }
    ensures { result ≡ true → GoesOn table.now.bytes.now i t stop era gain }
{
    let w = table.window(i);
    if w.offset as u32 != stop || t < w.begin || w.end < era {
        return false;
    }
    bitset::lost(gain, table.users(i)) == 0
}

// The phase to which rows go on, and the last of these rows.
#[derive(Clone, Copy)]
struct Run {
    stop: u32,
    last: usize,
}

// Rows after row k that give `gain` what it gives, one from where the other stops, as far as `limit`: at the minute row k does so to phase `stop`.
fn follow(moment: &Moment<'_>, k: usize, stop: u32, era: u32, gain: u64, limit: u32) -> Run
    requires { (k < moment.now.table.counts.rows) × (moment.now.minute < E) × Reaching moment.now.table.bytes.now moment.now.minute moment.now.phase stop era gain }
    ensures { Reaching moment.now.table.bytes.now moment.now.minute moment.now.phase result.stop era gain }
{
    let rows = moment.table.rows();
    let mut far = stop;
    for i in k + 1..rows {
        if limit <= moment.minute + (far - moment.phase)
            || !goes_on(&moment.table, i, moment.minute, far, era, gain)
        {
            return Run {
                stop: far,
                last: i - 1,
            };
        }
        far += moment.table.window(i).length as u32;
    }
    Run {
        stop: far,
        last: rows - 1,
    }
}

// Who holds a permission; and the last row that was looked at with the minute at which it stops, from which a later search may begin.
#[derive(Clone, Copy)]
struct Passed {
    held: Held,
    last: usize,
    until: u32,
}

// The rows of lower roles gave h, and row k is the one of `role` that covers the minute: what it adds.
fn with_row(moment: &Moment<'_>, role: usize, k: usize, among: u64, h: Held) -> Passed
    requires { (Some k ≡ row_for moment.now.table.bytes.now role moment.now.minute) × (k < moment.now.table.counts.rows) × (moment.now.minute < E) × HeldBy moment.now.table.bytes.now role among moment.now.minute h.set h.until h.era }
    ensures { HeldBy moment.now.table.bytes.now (role + 1) among moment.now.minute result.held.set result.held.until result.held.era }
{
    let w = moment.table.window(k);
    let stop = w.offset as u32 + w.length as u32;
    let gain = bitset::lost(bitset::both(among, moment.table.users(k)), h.set);
    if gain == 0 {
        return Passed {
            held: h,
            last: k,
            until: moment.minute + (stop - moment.phase),
        };
    }
    let g = follow(moment, k, stop, w.end, gain, h.until);
    let until = moment.minute + (g.stop - moment.phase);
    Passed {
        held: Held {
            set: bitset::either(h.set, gain),
            until: h.until.min(until),
            era: h.era.min(w.end),
        },
        last: g.last,
        until,
    }
}

// A row and a minute in one number, and from it the row to look at first at minute t: the row itself before that minute, else the next.
fn place(row: usize, until: u32) -> u64
    ensures { 4294967296 * until ≤ result }
{
    (row % 4294967296) as u64 + 4294967296 * (until as u64)
}

fn guess(place: u64, t: u32) -> usize
    ensures { result ≤ 4294967296 }
{
    let row = (place % 4294967296) as usize;
    if (place / 4294967296) as u32 <= t {
        row + 1
    } else {
        row
    }
}

// The rows of roles below `role` gave h: what those of `role` add. The search begins where the role's place says, and its end is the new place.
fn pass_role(moment: &Moment<'_>, places: &mut [u64; 32], role: usize, among: u64, h: Held) -> Held
    requires { (role < 32) × (moment.now.minute < E) × HeldBy moment.now.table.bytes.now role among moment.now.minute h.set h.until h.era }
    ensures { HeldBy moment.now.table.bytes.now (role + 1) among moment.now.minute result.set result.until result.era }
{
    let f = table_search::row_at(moment, role, guess(places[role], moment.minute));
    match f.row {
        Some(k) => {
            let q = with_row(moment, role, k, among, h);
            places[role] = place(q.last, q.until);
            q.held
        }
        None => {
            places[role] = place(f.next, 4294967295);
            h
        }
    }
}

// Of `among`, those who hold a permission at minute t, and how far they go on, looked at as far as `limit`. For each role `places` has where the search
// among its rows ended last: any numbers will do, and those of a minute shortly before save the searches.
pub fn held_near(table: &Table<'_>, places: &mut [u64; 32], t: u32, among: u64, limit: u32) -> Held
    requires { (t < E) × (t < limit) }
    ensures { HeldAmong (policy_of (table_of table.now.bytes.now)) (cycle_of table.now.bytes.now) among t result.set result.until result.era }
{
    let moment = table.at(t);
    let mut h = Held {
        set: 0,
        until: limit,
        era: minutes::END,
    };
    for r in 0..table.counts.roles as usize {
        if h.set == among {
            return h;
        }
        h = pass_role(&moment, places, r, among, h);
    }
    h
}

// Everyone who holds a permission at minute t.
pub fn holders_at(table: &Table<'_>, t: u32) -> u64
    requires { t < E }
    ensures { result ≡ holders_at (policy_of (table_of table.now.bytes.now)) t }
{
    if table_search::few_rows(table.counts) {
        return table_answers::holders_in(table, t);
    }
    let mut places = [u64::MAX; 32];
    held_near(table, &mut places, t, u64::MAX, t + 1).set
}
