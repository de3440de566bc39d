// The hours records of a rota, one after the other: judged, and which of them hold.
#![tactic(auto)]

ghost use Rattle.std.specs.Prelude.{◌≡◌, false, ◌≤◌, ◌<◌, length};
ghost use Rattle.ground.specs.Believed.Judgement.{in_turn};
ghost use Rattle.hours.specs.Believed.Hours.{dangling};
ghost use Rattle.hours.specs.Believed.HoursRefusals.{record_judged};
ghost use Rattle.hours.specs.Inside.{RecordsRead, holding, ref_in};

use hours::HoursRef;
use refusal::Refusal;

// Where the h records from `from` on end, or their first refusal.
pub fn judge_all(s: &[u8], cycle: u32, from: usize, h: usize) -> Result<usize, Refusal>
    requires { from ≤ length s.now }
    ensures { RecordsRead s.now cycle from h result }
{
    let mut at = from;
    let mut total = 0;
    for _k in 0..h {
        let n = hours::judge(s, cycle, at, total)?;
        at = at + 10 + 4 * (n as usize);
        total += n;
    }
    Ok(at)
}

// Whether a reference holds, by the set of the records that hold. It is looked up by its number, always by 63, which no record has. The remainder
// changes neither: by it the compiler takes a row's byte as it is, and judging a row does not branch.
pub fn ref_holds(r: HoursRef, set: u64, h: usize) -> bool
    requires { (dangling h r ≡ false) × (h ≤ 32) }
    ensures { result ≡ ref_in set r }
{
    let number = match r {
        HoursRef::Always => 63,
        HoursRef::Numbered(k) => k as u32,
    };
    bitset::contains(bitset::with(set, 63), number % 64)
}

// The numbers of the h records from `from` on that hold at minute t, of records that are not refused.
pub fn holding_at(s: &[u8], cycle: u32, from: usize, h: usize, t: u32) -> u64
    requires { (in_turn (record_judged s.now cycle from) h ≡ 0) × (h ≤ 32) × (0 < cycle) }
    ensures { result ≡ holding s.now cycle from h t }
{
    let mut set = 0;
    let mut at = from;
    for k in 0..h {
        if hours::record_holds(s, cycle, at, t) {
            set = bitset::with(set, k as u32);
        }
        at = hours::next_record(s, at);
    }
    set
}
