// Rows of three bytes, a number, a role and an hours reference: whether one of many has a byte out of range, whether one of sixteen has a given number,
// and whether one of many is not above the one before. Sixteen rows are 48 bytes and are looked at together, each byte against a range of its own or
// the next row's byte and without stopping, so that the compiler can make vector code of it.
#![tactic(auto)]

ghost use Rattle.std.specs.Prelude.{◌≡◌, ◌+◌, ◌-◌, ◌*◌, ◌≤◌, ◌<◌, ◌&&◌, leb, eqb, length};
ghost use Rattle.ground.specs.Believed.Choice.{pick};
ghost use Rattle.ground.specs.Believed.Search.{any_below, one};
ghost use Rattle.endian.specs.Believed.Numbers.{u8_at};
ghost use Rattle.rota_rows.specs.Rows.{row_out, byte_out, rise_of, place_at, next_falls, Pattern};

// a, b and c, sixteen times.
fn pattern(a: u8, b: u8, c: u8) -> [u8; 48]
    ensures { Pattern a b c 16 result }
{
    let mut p = [c; 48];
    for i in 0..16 {
        p[3 * i] = a;
        p[3 * i + 1] = b;
    }
    p
}

// 1 where low ≤ x ≤ high, else 0. A number and not a test: the compiler makes vector code of a loop that joins numbers.
fn between(low: u8, high: u8, x: u8) -> u8
    ensures { result ≡ one (leb low x && leb x high) }
{
    u8::from(low <= x && x <= high)
}

// Whether one of the 48 bytes from `at` on lies in its range.
fn block_out(s: &[u8], at: usize, low: &[u8; 48], high: &[u8; 48]) -> bool
    requires { at + 48 ≤ length s.now }
    ensures { result ≡ any_below 48 (byte_out low.now high.now s.now at) }
{
    let mut out = 0u8;
    for j in 0..48 {
        out |= between(low[j], high[j], s[at + j]);
    }
    out != 0
}

// The same of n blocks.
fn blocks_out(s: &[u8], at: usize, n: usize, low: &[u8; 48], high: &[u8; 48]) -> bool
    requires { at + 48 * n ≤ length s.now }
    ensures { result ≡ any_below n (λ i. any_below 48 (byte_out low.now high.now s.now (at + 48 * i))) }
{
    for i in 0..n {
        if block_out(s, at + 48 * i, low, high) {
            return true;
        }
    }
    false
}

// Whether the row at `at` has a number not below `top`, a role not below `roles`, or an hours reference that is neither below `hours` nor 255.
pub fn row_out(s: &[u8], at: usize, top: u8, roles: u8, hours: u8) -> bool
    requires { at + 3 ≤ length s.now }
    ensures { result ≡ row_out top roles hours s.now at }
{
    top <= s[at] || roles <= s[at + 1] || between(hours, 254, s[at + 2]) != 0
}

// Whether one of the n rows from `at` on is, looked at one by one.
fn rest_out(s: &[u8], at: usize, n: usize, top: u8, roles: u8, hours: u8) -> bool
    requires { at + 3 * n ≤ length s.now }
    ensures { result ≡ any_below n (λ k. row_out top roles hours s.now (at + 3 * k)) }
{
    for k in 0..n {
        if row_out(s, at + 3 * k, top, roles, hours) {
            return true;
        }
    }
    false
}

// Whether one of the n rows from `at` on has a number not below `top`, a role not below `roles`, or an hours reference that is neither below `hours` nor
// 255.
pub fn rows_out(s: &[u8], at: usize, n: usize, top: u8, roles: u8, hours: u8) -> bool
    requires { at + 3 * n ≤ length s.now }
    ensures { result ≡ any_below n (λ k. row_out top roles hours s.now (at + 3 * k)) }
{
    if n < 16 {
        return rest_out(s, at, n, top, roles, hours);
    }
    let blocks = n / 16;
    let low = pattern(top, roles, hours);
    let high = pattern(255, 255, 254);
    if blocks_out(s, at, blocks, &low, &high) {
        return true;
    }
    let first = 16 * blocks;
    rest_out(s, at + 3 * first, n - first, top, roles, hours)
}

// Whether one of the 16 rows from `at` on has number x: the range of a first byte is x alone, and that of the other two is empty.
pub fn any_numbered(s: &[u8], at: usize, x: u8) -> bool
    requires { at + 48 ≤ length s.now }
    ensures { result ≡ any_below 16 (λ k. eqb (u8_at s.now (at + 3 * k)) x) }
{
    let low = pattern(x, 255, 255);
    let high = pattern(x, 0, 0);
    block_out(s, at, &low, &high)
}

// `after` where x and y are equal, else 0.
fn where_equal(x: u8, y: u8, after: u8) -> u8
    ensures { result ≡ pick (eqb x y) after 0 }
{
    if x == y { after } else { 0 }
}

// How far y lies above x, or `after` where they are equal, else 0. One of the two numbers that are joined is 0. (The compiler makes fewer vector
// operations of this than of a test for each of the three cases.)
fn rise(x: u8, y: u8, after: u8) -> u8
    ensures { result ≡ rise_of x y after }
{
    y.saturating_sub(x) | where_equal(x, y, after)
}

// 1 where the row after the row at `at` is not above it, else 0.
fn next_falls(s: &[u8], at: usize) -> u8
    requires { at + 6 ≤ length s.now }
    ensures { result ≡ one (next_falls s.now at) }
{
    let by_hours = s[at + 5].saturating_sub(s[at + 2]);
    let by_number = rise(s[at], s[at + 3], by_hours);
    u8::from(rise(s[at + 1], s[at + 4], by_number) == 0)
}

// Whether one of the sixteen rows after the row at `at` is not above the one before. Each of 48 positions is taken for a row's, and only where one begins
// does the answer count; the last position needs bytes up to the 53rd.
fn block_falls(s: &[u8], at: usize, counts: &[u8; 48]) -> bool
    requires { (at + 53 ≤ length s.now) × Pattern 1 0 0 16 counts.now }
    ensures { result ≡ any_below 16 (λ k. next_falls s.now (at + 3 * k)) }
{
    let mut out = 0u8;
    for i in 0..48 {
        out |= counts[i] & next_falls(s, at + i);
    }
    out != 0
}

// The same of n blocks.
fn blocks_fall(s: &[u8], at: usize, n: usize, counts: &[u8; 48]) -> bool
    requires { (at + 48 * n + 5 ≤ length s.now) × Pattern 1 0 0 16 counts.now }
    ensures { result ≡ any_below n (λ i. any_below 16 (λ k. next_falls s.now (at + 48 * i + 3 * k))) }
{
    for i in 0..n {
        if block_falls(s, at + 48 * i, counts) {
            return true;
        }
    }
    false
}

// The place in the order of the row at `at`.
pub fn place_at(s: &[u8], at: usize) -> usize
    requires { at + 3 ≤ length s.now }
    ensures { (result ≡ place_at s.now at) × (result < 16777216) }
{
    let role = endian::read8(s, at + 1);
    let number = endian::read8(s, at);
    let hours = endian::read8(s, at + 2);
    (role * 256 + number) * 256 + hours
}

// Whether one of the n rows after the row at `at` is not above the one before, looked at one by one.
fn rest_falls(s: &[u8], at: usize, n: usize) -> bool
    requires { at + 3 * n + 3 ≤ length s.now }
    ensures { result ≡ any_below n (λ k. next_falls s.now (at + 3 * k)) }
{
    let mut last = place_at(s, at);
    for k in 0..n {
        let next = place_at(s, at + 3 * k + 3);
        if next <= last {
            return true;
        }
        last = next;
    }
    false
}

// Whether one of the n rows from `at` on is not above the one before, by role, then number, then hours. (Sixteen at a time, and the rows left over first:
// the compiler tests a block's answers at once where the loop over the blocks comes last.)
pub fn any_next_falls(s: &[u8], at: usize, n: usize) -> bool
    requires { at + 3 * n ≤ length s.now }
    ensures { result ≡ any_below (n - 1) (λ k. next_falls s.now (at + 3 * k)) }
{
    if n < 2 {
        return false;
    }
    let blocks = (n - 2) / 16;
    let first = 16 * blocks;
    if rest_falls(s, at + 3 * first, n - 1 - first) {
        return true;
    }
    let counts = pattern(1, 0, 0);
    blocks_fall(s, at, blocks, &counts)
}
