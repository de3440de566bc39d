// The lines of the listing, in bytes of ASCII.
#![tactic(auto)]

ghost use Rattle.std.specs.Prelude.{◌≡◌, ◌∷◌, [], ◌++◌, ◌+◌, ◌≤◌, ◌<◌, length};
ghost use Rattle.output.specs.Put.{Put};
ghost use Rattle.listing_lines.specs.Believed.Lines.{
  digit as digitOf,
  digits,
  places as places_of,
  decimal,
  hex16,
  table_line,
  role_line,
  row_line,
  refused_line,
};

use output::Output;

// No line is longer: that of a role has 5 bytes, two numbers of at most 10 digits and two sets of 16, with a byte after each.
pub const LONGEST: usize = 61;

// The character of a digit below sixteen.
#[tactic(auto, unfolding(crate::specs::Believed::Lines::digit))]
fn digit(d: u64) -> u8
    requires { d < 16 }
    ensures { result ≡ digitOf d }
{
    if d < 10 {
        b'0' + d as u8
    } else {
        b'a' + (d - 10) as u8
    }
}

// How many digits n has in decimal.
fn places(n: u32) -> usize
    ensures { (result ≡ places_of n) × (result ≤ 10) }
{
    let mut k = 1;
    let mut rest = n;
    while 10 <= rest {
        rest /= 10;
        k += 1;
    }
    k
}

// The last k digits of n in a base. (By hand: std's `write!` promises these bytes where it gives `Ok`, but not that it gives `Ok`.)
fn put_digits(out: &mut Output, base: u64, k: usize, n: u64)
    requires { (0 < base) × (base ≤ 16) × (k ≤ 16) × (out.old.at + k ≤ length out.old.bytes.now) }
    ensures { Put (digits base k n) out.old out.new }
{
    let mut text = [0u8; 16];
    let mut rest = n;
    for i in (0..k).rev() {
        text[i] = digit(rest % base);
        rest /= base;
    }
    out.put(&text[..k]);
}

// A number in decimal, and the byte after it: a space or the line's end.
fn put_number(out: &mut Output, n: u32, end: u8)
    requires { out.old.at + 11 ≤ length out.old.bytes.now }
    ensures { Put (decimal n ++ (end ∷ [])) out.old out.new × (out.new.at ≤ out.old.at + 11) }
{
    put_digits(out, 10, places(n), n as u64);
    out.put(&[end]);
}

// A set in 16 hexadecimal digits, and the byte after it.
fn put_set(out: &mut Output, set: u64, end: u8)
    requires { out.old.at + 17 ≤ length out.old.bytes.now }
    ensures { Put (hex16 set ++ (end ∷ [])) out.old out.new × (out.new.at ≤ out.old.at + 17) }
{
    put_digits(out, 16, 16, set);
    out.put(&[end]);
}

// The first line: the cycle, the number of derived roles and the number of rows.
pub fn table_line(out: &mut Output, cycle: u32, roles: u32, rows: u32)
    requires { out.old.at + 61 ≤ length out.old.bytes.now }
    ensures { Put (table_line cycle roles rows) out.old out.new × (out.new.at ≤ out.old.at + 61) }
{
    out.put(b"table ");
    put_number(out, cycle, b' ');
    put_number(out, roles, b' ');
    put_number(out, rows, b'\n');
}

// A derived role: its number, its source role, and its sets of users and permissions.
pub fn role_line(out: &mut Output, number: u32, source: u32, users: u64, permissions: u64)
    requires { out.old.at + 61 ≤ length out.old.bytes.now }
    ensures { Put (role_line number source users permissions) out.old out.new × (out.new.at ≤ out.old.at + 61) }
{
    out.put(b"role ");
    put_number(out, number, b' ');
    put_number(out, source, b' ');
    put_set(out, users, b' ');
    put_set(out, permissions, b'\n');
}

// A row: its derived role, its era and its cell.
pub fn row_line(out: &mut Output, derived: u32, begin: u32, end: u32, offset: u32, span: u32)
    requires { out.old.at + 61 ≤ length out.old.bytes.now }
    ensures { Put (row_line derived begin end offset span) out.old out.new × (out.new.at ≤ out.old.at + 61) }
{
    out.put(b"row ");
    put_number(out, derived, b' ');
    put_number(out, begin, b' ');
    put_number(out, end, b' ');
    put_number(out, offset, b' ');
    put_number(out, span, b'\n');
}

// The one line of a refusal.
pub fn refused_line(out: &mut Output, n: u32)
    requires { out.old.at + 61 ≤ length out.old.bytes.now }
    ensures { Put (refused_line n) out.old out.new × (out.new.at ≤ out.old.at + 61) }
{
    out.put(b"refused ");
    put_number(out, n, b'\n');
}
