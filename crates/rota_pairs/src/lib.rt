// Pairs of a senior and a junior role, ahead of request 8: those that bytes hold, with refusal 54, the juniors of each role as a set, and the roles
// whose own permissions a role has.
#![tactic(auto)]

ghost use Rattle.std.specs.Prelude.{◌≡◌, ◌≤◌, ◌+◌, ◌*◌, ◌<◌, length, replicate};
ghost use Rattle.refusal.specs.Believed.Ends.{judgement_of};
ghost use Rattle.rota_pairs.specs.HandedDown.{handed_down, JuniorsAre};
ghost use Rattle.rota_pairs.specs.Hierarchy.{PairsWell};
ghost use Rattle.rota_pairs.specs.Pairs.{pairs_of, pairs_judged};
ghost use Rattle.rota_pairs.specs.Filling.{with_junior};

use refusal::Refusal;

// The roles reached once each of the roles n - 1, n - 2, .., 0 that is reached has handed on to its enabled juniors. A junior's number is lower, so
// each role is visited once, after all its seniors.
pub fn reach(juniors: &[u64; 32], on: u64, n: u32, reached: u64) -> u64
    requires { n ≤ 32 }
    ensures { result ≡ handed_down juniors.now on n reached }
{
    if n == 0 {
        return reached;
    }
    let r = n - 1;
    let i = r as usize;
    let more = bitset::both(juniors[i], on);
    if bitset::contains(reached, r) {
        return reach(juniors, on, r, bitset::either(reached, more));
    }
    reach(juniors, on, r, reached)
}

// Judges the pairs from `at` on, `count` in number.
pub fn judge_pairs(s: &[u8], at: usize, count: usize, roles: u32) -> Result<(), Refusal>
    requires { at + 2 * count ≤ length s.now }
    ensures { judgement_of result ≡ pairs_judged roles s.now at count }
{
    for k in 0..count {
        let senior = s[at + 2 * k] as u32;
        let junior = s[at + 2 * k + 1] as u32;
        if roles <= senior {
            return Err(Refusal::RolePair);
        }
        if senior <= junior {
            return Err(Refusal::RolePair);
        }
    }
    Ok(())
}

// Puts a junior into the set of its senior.
fn add(juniors: &mut [u64; 32], senior: usize, junior: usize)
    requires { (senior < 32) × (junior < 64) }
    ensures { juniors.new ≡ with_junior juniors.old senior junior }
{
    juniors[senior] = bitset::with(juniors[senior], junior as u32);
}

// Fills sets that are empty with the juniors of each role, by the pairs from `at` on, `count` in number.
pub fn fill_juniors(s: &[u8], at: usize, count: usize, juniors: &mut [u64; 32])
    requires { (at + 2 * count ≤ length s.now) × PairsWell 32 (pairs_of s.now at count) × (juniors.old ≡ replicate 32 0) }
    ensures { JuniorsAre (pairs_of s.now at count) juniors.new }
{
    for i in 0..count {
        let senior = s[at + 2 * i] as usize;
        let junior = s[at + 2 * i + 1] as usize;
        add(juniors, senior, junior);
    }
}
