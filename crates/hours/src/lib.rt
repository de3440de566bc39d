// Hours: references, and one record read from its bytes; crate hours_reader has all records of a rota.
#![tactic(auto)]

ghost use Rattle.std.specs.Prelude.{◌≡◌, ◌||◌, ◌+◌, ◌*◌, ◌≤◌, ◌<◌, eqb, ltb, length};
ghost use Rattle.ground.specs.Believed.Judgement.{in_turn};
ghost use Rattle.refusal.specs.Believed.Ends.{outcome_of, judgement_of};
ghost use Rattle.hours.specs.Believed.Hours.{ref_of, dangling, holds};
ghost use Rattle.hours.specs.Believed.HoursBytes.{pairs_at, hours_at};
ghost use Rattle.hours.specs.Believed.HoursRefusals.{pair_judged};
ghost use Rattle.hours.specs.Answers.{hours_outcome};
ghost use Rattle.hours.specs.Inside.{dates_hold, pairs_hold};

use refusal::Refusal;

// An hours reference: always, or the number of an hours record.
#[derive(Clone, Copy)]
pub enum HoursRef {
    Always,
    Numbered(u8),
}

impl HoursRef {
    // Whether it names no record, where there are h records.
    pub fn dangles(self, h: usize) -> bool
        ensures { result ≡ dangling h self }
    {
        match self {
            HoursRef::Always => false,
            HoursRef::Numbered(k) => h <= k as usize,
        }
    }
}

// The reference that a byte stands for: a function and not a `From`, since docs/CLAIMS.md has its contract by this name.
pub fn decode(b: u8) -> HoursRef
    ensures { result ≡ ref_of b }
{
    if b == 255 {
        HoursRef::Always
    } else {
        HoursRef::Numbered(b)
    }
}

// Whether a pair is refused that may start at `low` or later.
fn pair_refused(offset: u32, span: u32, cycle: u32, low: u32) -> bool
    requires { (offset < 65536) × (span < 65536) }
    ensures { result ≡ (eqb span 0 || ltb cycle (offset + span) || ltb offset low) }
{
    span == 0 || cycle < offset + span || offset < low
}

// The first refusal of the n pairs that begin at `at`.
fn judge_pairs(s: &[u8], cycle: u32, at: usize, n: usize) -> Result<(), Refusal>
    requires { at + 4 * n ≤ length s.now }
    ensures { judgement_of result ≡ in_turn (pair_judged s.now cycle at) n }
{
    let mut low = 0;
    for j in 0..n {
        let offset = endian::read16(s, at + 4 * j) as u32;
        let length = endian::read16(s, at + 4 * j + 2) as u32;
        if pair_refused(offset, length, cycle, low) {
            return Err(Refusal::HoursPair);
        }
        low = offset + length + 1;
    }
    Ok(())
}

// Judges the hours record at `at`, for a cycle, with `total` pairs in the records before it: the number of its pairs, or the first refusal.
pub fn judge(s: &[u8], cycle: u32, at: usize, total: u32) -> Result<u32, Refusal>
    ensures { outcome_of result ≡ hours_outcome s.now cycle at total }
{
    if s.len() < 10 {
        return Err(Refusal::HoursCut);
    }
    if s.len() - 10 < at {
        return Err(Refusal::HoursCut);
    }
    let end = endian::read32(s, at + 4);
    if end <= endian::read32(s, at) {
        return Err(Refusal::HoursSpan);
    }
    if minutes::END < end {
        return Err(Refusal::HoursSpan);
    }
    let n = endian::read16(s, at + 8) as u32;
    if n == 0 {
        return Err(Refusal::HoursPairs);
    }
    if 256 < n {
        return Err(Refusal::HoursPairs);
    }
    if 256 - n < total {
        return Err(Refusal::HoursPairs);
    }
    let count = n as usize;
    if s.len() < at + 10 + 4 * count {
        return Err(Refusal::HoursCut);
    }
    judge_pairs(s, cycle, at + 10, count)?;
    Ok(n)
}

// Where the record after the one at `at` begins.
pub fn next_record(s: &[u8], at: usize) -> usize
    requires { at + 10 + 4 * pairs_at s.now at ≤ length s.now }
    ensures { result ≡ at + 10 + 4 * pairs_at s.now at }
{
    at + 10 + 4 * (endian::read16(s, at + 8) as usize)
}

// Whether minute t is in the dates of the record at `at`.
pub fn dates_hold(s: &[u8], at: usize, t: u32) -> bool
    requires { at + 8 ≤ length s.now }
    ensures { result ≡ dates_hold t (hours_at s.now at) }
{
    minutes::during(endian::read32(s, at), endian::read32(s, at + 4), t)
}

// Whether phase x is in a pair of the record at `at`.
pub fn pairs_hold(s: &[u8], at: usize, x: u32) -> bool
    requires { at + 10 + 4 * pairs_at s.now at ≤ length s.now }
    ensures { result ≡ pairs_hold x (hours_at s.now at) }
{
    let n = endian::read16(s, at + 8) as usize;
    for j in 0..n {
        let offset = endian::read16(s, at + 10 + 4 * j) as u32;
        let length = endian::read16(s, at + 10 + 4 * j + 2) as u32;
        if minutes::in_span(offset, length, x) {
            return true;
        }
    }
    false
}

// Whether the record at `at` holds at minute t.
pub fn record_holds(s: &[u8], cycle: u32, at: usize, t: u32) -> bool
    requires { (at + 10 + 4 * pairs_at s.now at ≤ length s.now) × (0 < cycle) }
    ensures { result ≡ holds cycle (hours_at s.now at) t }
{
    dates_hold(s, at, t) && pairs_hold(s, at, minutes::phase(cycle, t))
}
