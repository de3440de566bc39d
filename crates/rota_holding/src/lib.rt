// Who holds a permission by an accepted rota at a minute, and for how long: what those who hold one rest on are some hours records, for each of them
// enough to hold one by.
#![tactic(auto)]

ghost use Rattle.std.specs.Prelude.{◌≡◌, true, ◌≤◌, ◌<◌, length};
ghost use Rattle.bitset.specs.Believed.Sets.{has, insert, intersection};
ghost use Rattle.endian.specs.Believed.Numbers.{u8_at};
ghost use Rattle.hours.specs.Believed.Hours.{ref_of};
ghost use Rattle.rota.specs.Believed.RotaBytes.{roles_of, user_rows_of, permission_rows_at, permission_rows_of, rota_of, cycle_of};
ghost use Rattle.rota_answers.specs.Gathered.{RowsFine};
ghost use Rattle.minutes.specs.Believed.Minutes.{E};
ghost use Rattle.policy.specs.Held.{HeldAmong};
ghost use Rattle.rota.specs.Believed.Rota.{policy_of};
ghost use Rattle.rota_holding.specs.Rests.{number_of, Permitted, meets, roles_given, live_by, gives, Grown, Resting};

use hours::HoursRef;
use policy::Held;
use rota::accepted::Rota;
use rota_answers::rows::user_rows;

// Who is found, and the numbers of the records that these rest on.
#[derive(Clone, Copy)]
pub struct Rest {
    pub found: u64,
    pub on: u64,
}

// The number of the reference at `at`: that of its record, or 63 for always.
fn number_at(s: &[u8], at: usize) -> u32
    requires { at < length s.now }
    ensures { (result ≡ number_of (ref_of (u8_at s.now at))) × (result < 64) }
{
    let number = match hours::decode(s[at]) {
        HoursRef::Always => 63,
        HoursRef::Numbered(k) => k as u32,
    };
    number % 64
}

// For each role, the hours of its rows among the n rows from `at` on.
fn permitted(s: &[u8], at: usize, n: usize, top: usize) -> [u64; 32]
    requires { RowsFine s.now top at n × (roles_of s.now ≤ 32) }
    ensures { Permitted s.now at n result }
{
    let mut sets = [0; 32];
    for k in 0..n {
        let i = at + 3 * k;
        let role = s[i + 1] as usize;
        sets[role] = bitset::with(sets[role], number_at(s, i + 2));
    }
    sets
}

// For each role, the hours of its permissions.
pub fn permitted_hours(rota: &Rota<'_>) -> [u64; 32]
    ensures { Permitted rota.now.bytes.now (permission_rows_at rota.now.bytes.now) (permission_rows_of rota.now.bytes.now) result }
{
    let l = rota.layout;
    permitted(
        rota.bytes,
        l.permission_rows_at,
        l.counts.permission_rows as usize,
        l.counts.permissions as usize,
    )
}

// Of n roles, those that have a permission by hours that hold.
fn given(sets: &[u64; 32], set: u64, n: usize) -> u64
    requires { n ≤ 32 }
    ensures { result ≡ roles_given set sets.now n }
{
    let on = bitset::with(set, 63);
    let mut roles = 0;
    for k in 0..n {
        if bitset::both(sets[k], on) != 0 {
            roles = bitset::with(roles, k as u32);
        }
    }
    roles
}

// One of some hours that holds: always, if it is among them.
fn choose(hours: u64, set: u64) -> u32
    requires { meets hours set ≡ true }
    ensures { (has hours result ≡ true) × (has (insert set 63) result ≡ true) × (result < 64) }
{
    if bitset::contains(hours, 63) {
        return 63;
    }
    bitset::lowest(bitset::both(hours, bitset::with(set, 63)))
}

// The members of a set that are in `on` or are one of three numbers.
fn with_three(set: u64, on: u64, a: u32, b: u32, c: u32) -> u64
    requires { (a < 64) × (b < 64) × (c < 64) }
    ensures { result ≡ intersection set (insert (insert (insert on a) b) c) }
{
    bitset::both(set, bitset::with(bitset::with(bitset::with(on, a), b), c))
}

// The records `on` with those that the user of row k rests on by it: the hours of the row, of its role, and of a permission of the role.
fn rest_on(rota: &Rota<'_>, sets: &[u64; 32], set: u64, on: u64, k: usize) -> u64
    requires { Permitted rota.now.bytes.now (permission_rows_at rota.now.bytes.now) (permission_rows_of rota.now.bytes.now) sets.now × (k < user_rows_of rota.now.bytes.now) × (gives rota.now.bytes.now set k ≡ true) }
    ensures { Grown rota.now.bytes.now set on k result }
{
    let s = rota.bytes;
    let i = rota.layout.user_rows_at + 3 * k;
    let role = s[i + 1] as usize;
    let permission = choose(sets[role], set);
    let own = number_at(s, rota.layout.roles_at + role);
    with_three(set, on, permission, own, number_at(s, i + 2))
}

// Of `among`, who holds a permission by a user row, which gives one of the live roles. Everyone rests on the first such row, and once all are found, the
// others are left.
fn found_by_rows(rota: &Rota<'_>, sets: &[u64; 32], set: u64, live: u64, among: u64) -> Rest
    requires { Permitted rota.now.bytes.now (permission_rows_at rota.now.bytes.now) (permission_rows_of rota.now.bytes.now) sets.now × (live ≡ live_by rota.now.bytes.now set) }
    ensures { Resting rota.now.bytes.now set among result.found result.on }
{
    let rows = user_rows(rota);
    let mut found = 0;
    let mut on = 0;
    for k in 0..rows.n {
        if found == among {
            return Rest { found, on };
        }
        let user = rows.number(k);
        if bitset::contains(bitset::lost(among, found), user) {
            if rows.holds_for(k, set, live) {
                found = bitset::with(found, user);
                on = rest_on(rota, sets, set, on, k);
            }
        }
    }
    Rest { found, on }
}

// Of `among`, who holds a permission by the records of a set, and which of these they rest on.
pub fn resting(rota: &Rota<'_>, sets: &[u64; 32], set: u64, among: u64) -> Rest
    requires { Permitted rota.now.bytes.now (permission_rows_at rota.now.bytes.now) (permission_rows_of rota.now.bytes.now) sets.now }
    ensures { Resting rota.now.bytes.now set among result.found result.on }
{
    let enabled = rota_answers::roles_enabled(rota, set);
    let roles = rota.layout.counts.roles as usize;
    let live = bitset::both(enabled, given(sets, set, roles));
    found_by_rows(rota, sets, set, live, among)
}

// Of `among`, who holds a permission at minute t, and how far these go on holding one. As long as the hours that they rest on hold, so do they. `hours`
// are those of each role's permissions.
pub fn held_at(rota: &Rota<'_>, hours: &[u64; 32], t: u32, among: u64) -> Held
    requires { Permitted rota.now.bytes.now (permission_rows_at rota.now.bytes.now) (permission_rows_of rota.now.bytes.now) hours.now × (t < E) }
    ensures { HeldAmong (policy_of (rota_of rota.now.bytes.now)) (cycle_of rota.now.bytes.now) among t result.set result.until result.era }
{
    let s = rota.bytes;
    let l = rota.layout;
    let n = l.counts;
    let h = n.hours as usize;
    let set = hours_times::records_on(s, n.cycle, l.hours_at, h, t);
    let r = resting(rota, hours, set, among);
    let span = hours_times::records_span(s, n.cycle, l.hours_at, h, t, r.on);
    Held {
        set: r.found,
        until: span.until,
        era: span.era,
    }
}
