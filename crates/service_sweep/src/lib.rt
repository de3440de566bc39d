// Who holds a permission at each minute of a stretch, by a lent rota or table. The sweep goes from one minute at which somebody may cease to hold one to
// the next; one cycle is enough as far as nothing that was seen ends for good.
#![tactic(auto)]

ghost use Rattle.std.specs.Prelude.{◌≡◌, ◌⊎◌, ◌+◌, ◌^◌, ◌≤◌, ◌<◌};
ghost use Rattle.minutes.specs.Believed.Minutes.{E};
ghost use Rattle.policy.specs.Believed.Steady.{steady_over};
ghost use Rattle.source.specs.Inside.{policy_in, Prepared};

use source::Source;

// Who holds a permission at each minute to before `next`; and how many minutes it paid to look ahead, which promises nothing.
#[derive(Clone, Copy)]
struct Turn {
    set: u64,
    next: u32,
    reach: u32,
}

// Of those of a turn, who holds a permission at each minute from its `next` on: for one cycle, and so to the first end of what was seen, or to b.
fn one_cycle(
    source: &Source<'_>,
    hours: &[u64; 32],
    places: &mut [u64; 32],
    turn: Turn,
    b: u32,
) -> Turn
    requires { (turn.next < b) × (b ≤ E) × (turn.set < 2 ^ (policy_in source.now).users) × (0 < turn.reach) × (turn.reach ≤ E + E) × Prepared source.now hours.now }
    ensures { (result.set ≡ steady_over (policy_in source.now) turn.set turn.next result.next) × (turn.next < result.next) × (result.next ≤ b) × (0 < result.reach) × (result.reach ≤ E + E) }
{
    let far = turn.next + source.cycle();
    let mut stays = turn.set;
    let mut y = turn.next;
    let mut e = b;
    let mut ahead = turn.reach;
    while y < e.min(far) {
        if stays == 0 {
            return Turn {
                set: 0,
                next: b,
                reach: ahead,
            };
        }
        let h = source.held_near(hours, places, y, stays, e.min(y + ahead));
        stays = h.set;
        e = e.min(h.era);
        ahead = 2 * (e.min(h.until) - y);
        y = h.until;
    }
    Turn {
        set: stays,
        next: e,
        reach: ahead,
    }
}

// Of `among`, those who hold a permission at each minute from a to before b. One minute is what an advance mostly passes, and an open asks for: it needs
// no sweep, and of it anyone may be asked.
pub fn steady(source: &Source<'_>, a: u32, b: u32, among: u64) -> u64
    requires { (a ≤ b) × (b ≤ E) × ((among < 2 ^ (policy_in source.now).users) ⊎ (b ≡ a + 1)) }
    ensures { result ≡ steady_over (policy_in source.now) among a b }
{
    if a == b {
        return among;
    }
    if b - a == 1 {
        return bitset::both(among, source.holders_at(a));
    }
    let hours = source.prepare();
    let mut places = [u64::MAX; 32];
    let mut turn = Turn {
        set: among,
        next: a,
        reach: source.cycle(),
    };
    while turn.next < b {
        if turn.set == 0 {
            return 0;
        }
        turn = one_cycle(source, &hours, &mut places, turn, b);
    }
    turn.set
}
