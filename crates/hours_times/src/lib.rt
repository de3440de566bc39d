// Which hours records hold at a minute, and how far these go on holding: by their dates and pairs, with no walk over minutes.
#![tactic(auto)]

ghost use Rattle.std.specs.Prelude.{◌≡◌, ◌%◌, ◌≤◌, ◌<◌, true, false, IfNone, IfSome};
ghost use Rattle.ground.specs.Believed.Judgement.{in_turn};
ghost use Rattle.minutes.specs.Believed.Minutes.{E};
ghost use Rattle.hours.specs.Believed.Hours.{holds};
ghost use Rattle.hours.specs.Believed.HoursBytes.{pairs_at, hours_at};
ghost use Rattle.hours.specs.Believed.HoursRefusals.{record_judged};
ghost use Rattle.hours.specs.Inside.{holding, pairs_hold};
ghost use Rattle.hours_times.specs.Spans.{RecordReady, FirstEnding, PhaseSpan, RecordSpan, RecordsSpan};

// How far some records that hold at a minute do so: to before `until`, and, by the cycle, to before `era`.
#[derive(Clone, Copy)]
pub struct Spans {
    pub until: u32,
    pub era: u32,
}

// Of the n pairs of the record at `at`, the first that ends after phase x, or n. Pairs ascend, so half of those that are left are passed at a time.
fn first_ending(s: &[u8], cycle: u32, at: usize, n: usize, x: u32) -> usize
    requires { RecordReady s.now cycle at × (n ≡ pairs_at s.now at) }
    ensures { FirstEnding s.now at x n result }
{
    let mut low = 0;
    let mut high = n;
    while low < high {
        let j = low + (high - low) / 2;
        let offset = endian::read16(s, at + 10 + 4 * j) as u32;
        let end = offset + endian::read16(s, at + 10 + 4 * j + 2) as u32;
        if x < end {
            high = j;
        } else {
            low = j + 1;
        }
    }
    low
}

// Of the record at `at`, at phase x: where it is in a pair, the phase at which that ends. The first pair that ends after x decides.
fn pair_end(s: &[u8], cycle: u32, at: usize, x: u32) -> Option<u32>
    requires { RecordReady s.now cycle at × (x < cycle) }
    ensures none { IfNone result (pairs_hold x (hours_at s.now at) ≡ false) }
    ensures some { IfSome result (PhaseSpan cycle (hours_at s.now at) x true) }
{
    let n = endian::read16(s, at + 8) as usize;
    let j = first_ending(s, cycle, at, n, x);
    if n <= j {
        return None;
    }
    let offset = endian::read16(s, at + 10 + 4 * j) as u32;
    if x < offset {
        return None;
    }
    Some(offset + endian::read16(s, at + 10 + 4 * j + 2) as u32)
}

// Of the record at `at`, at minute t, whose phase is x: where it holds, how far. A record that does not hold bounds nothing.
pub fn record_span(s: &[u8], cycle: u32, at: usize, t: u32, x: u32) -> Option<Spans>
    requires { RecordReady s.now cycle at × (0 < cycle) × (cycle ≤ 40320) × (t < E) × (x ≡ t % cycle) }
    ensures none { IfNone result (holds cycle (hours_at s.now at) t ≡ false) }
    ensures some { IfSome result (λ r. RecordSpan cycle (hours_at s.now at) t true r.until r.era) }
{
    if !hours::dates_hold(s, at, t) {
        return None;
    }
    let end = pair_end(s, cycle, at, x)?;
    let left = end - x;
    Some(Spans {
        until: t + left,
        era: endian::read32(s, at + 4),
    })
}

// The numbers of the h records from `from` on that hold at minute t, of records that are not refused.
pub fn records_on(s: &[u8], cycle: u32, from: usize, h: usize, t: u32) -> u64
    requires { (in_turn (record_judged s.now cycle from) h ≡ 0) × (h ≤ 32) × (0 < cycle) × (cycle ≤ 40320) × (t < E) }
    ensures { result ≡ holding s.now cycle from h t }
{
    let x = minutes::phase(cycle, t);
    let mut set = 0;
    let mut at = from;
    for k in 0..h {
        if record_span(s, cycle, at, t, x).is_some() {
            set = bitset::with(set, k as u32);
        }
        at = hours::next_record(s, at);
    }
    set
}

// Of those of the h records from `from` on that are in `only`, at minute t, of records that are not refused. The others are passed.
pub fn records_span(s: &[u8], cycle: u32, from: usize, h: usize, t: u32, only: u64) -> Spans
    requires { (in_turn (record_judged s.now cycle from) h ≡ 0) × (h ≤ 32) × (0 < cycle) × (cycle ≤ 40320) × (t < E) }
    ensures { RecordsSpan s.now cycle from h t only result.until result.era }
{
    let x = minutes::phase(cycle, t);
    let mut until = minutes::END;
    let mut era = minutes::END;
    let mut at = from;
    for k in 0..h {
        if bitset::contains(only, k as u32) {
            if let Some(r) = record_span(s, cycle, at, t, x) {
                until = until.min(r.until);
                era = era.min(r.era);
            }
        }
        at = hours::next_record(s, at);
    }
    Spans { until, era }
}
