// The minutes of the archive's calendar, and the tests of a window of dates and of the cycle.
#![tactic(auto)]

ghost use Rattle.std.specs.Prelude.{◌≡◌, ◌<◌, ◌≤◌, ◌%◌, ◌+◌, min};
ghost use Rattle.minutes.specs.Believed.Minutes.{E, within};
ghost use Rattle.minutes.specs.First.{first_in};

// One past the last minute (E of document 01).
pub const END: u32 = 210379680;

// The earlier of two minutes.
pub fn earlier(a: u32, b: u32) -> u32
    ensures { result ≡ min a b }
{
    a.min(b)
}

// begin ≤ t < end
pub fn during(begin: u32, end: u32, t: u32) -> bool
    ensures { result ≡ within begin end t }
{
    (begin..end).contains(&t)
}

// Where minute t stands in a cycle.
pub fn phase(cycle: u32, t: u32) -> u32
    requires { 0 < cycle }
    ensures { result ≡ t % cycle }
{
    t % cycle
}

// offset ≤ x < offset + length
pub fn in_span(offset: u32, length: u32, x: u32) -> bool
    ensures { result ≡ within offset (offset + length) x }
{
    offset <= x && x - offset < length
}

// From a minute on, the first whose phase lies from `offset` to before `end`.
pub fn first_in(cycle: u32, from: u32, offset: u32, end: u32) -> u32
    requires { (0 < cycle) × (cycle ≤ 40320) × (from ≤ E) × (offset ≤ cycle) }
    ensures { result ≡ first_in cycle from offset end }
{
    let m = phase(cycle, from);
    if m < offset {
        return from + (offset - m);
    }
    if m < end {
        return from;
    }
    from + (cycle - m) + offset
}
