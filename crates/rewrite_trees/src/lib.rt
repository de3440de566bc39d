// An index of pairs of sets: w digital search trees (Coffman and Eve, 1970), over which the pairs are spread. Pair k has its users at place 2 k of
// `pairs` and its permissions at 2 k + 1. The pairs themselves are the nodes. The first w places of the links have the roots, and places w + 2 k and
// w + 2 k + 1 the two children of pair k, each as one more than its number, or 0 where there is none. How many trees there are the caller says, the same
// at each call: about as many as there are pairs is best, since few trees make long walks and many roots take time to clear. A walk turns at each pair
// by one member, of those that any pair can have, and goes on without it: however the pairs are chosen, it looks at no more of them than there are
// such members, and one. An index of single keys of 32 bits, where each is one number of the list, is the same with a key as a pair of it and the empty set.
#![tactic(auto)]

ghost use Rattle.std.specs.Prelude.{◌≡◌, ◌↔◌, List, ℕ, ◌+◌, ◌*◌, ◌<◌, ◌≤◌, length, IsTrue};
ghost use Rattle.rewrite_trees.specs.Tree.{users_at, permissions_at, TurnedBy, Turned, bucket_of, Within, key_pairs, Indexed, Ended};

// A turn of a walk: to which side, and which members are left to go by.
#[derive(Clone, Copy)]
pub struct Turn {
    pub side: usize,
    pub users: u64,
    pub permissions: u64,
}

// To which side `set` turns at the lowest member that is left of `rest`, 1 where it has it, and what is left then.
fn turn_by(rest: u64, set: u64) -> (usize, u64)
    requires { rest ≡ 0 → ⊥ }
    ensures { TurnedBy rest set result.0 result.1 }
{
    let i = bitset::lowest(rest);
    (
        usize::from(bitset::contains(set, i)),
        bitset::without(rest, i),
    )
}

// The next turn of a walk that seeks u and p, by the lowest member that is left of a, or of b where none of a is left.
fn next_turn(a: u64, b: u64, u: u64, p: u64) -> Turn
    requires { a ≡ 0 → b ≡ 0 → ⊥ }
    ensures { Turned a b u p result }
{
    if a == 0 {
        let (side, permissions) = turn_by(b, p);
        Turn {
            side,
            users: 0,
            permissions,
        }
    } else {
        let (side, users) = turn_by(a, u);
        Turn {
            side,
            users,
            permissions: b,
        }
    }
}

// The tree of u and p, of w.
fn bucket(u: u64, p: u64, w: usize) -> usize
    requires { (0 < w) × (w ≤ 65536) }
    ensures { (result ≡ bucket_of w u p) × (result < w) }
{
    let sum = (u % 4294967296) * 1036654187
        + (u / 4294967296) * 961748927
        + (p % 4294967296) * 870640927
        + (p / 4294967296) * 1012924417;
    let y = sum / 1048576 % 2147483648;
    (y * y / 1048576 % 65536) as usize * w / 65536
}

// A pair that is sought in a list of pairs.
trait Sought {
    ghost list: { Self → List ℕ };

    ghost users_sought: { Self → ℕ };

    ghost permissions_sought: { Self → ℕ };

    // The numbers of the pairs that can be looked at.
    ghost reaches: { Self → ℕ → Type 0 };

    fn users(&self) -> u64
        ensures { result ≡ users_sought self.now };

    fn permissions(&self) -> u64
        ensures { result ≡ permissions_sought self.now };

    // Pair k of the list is the one.
    fn is_at(&self, k: usize) -> bool
        requires { reaches self.now k }
        ensures { IsTrue result ↔ ((users_at (list self.now) k ≡ users_sought self.now) × (permissions_at (list self.now) k ≡ permissions_sought self.now)) };
}

// A pair of sets among pairs of sets.
#[derive(Clone, Copy)]
struct Pair<'a> {
    pairs: &'a [u64],
    users: u64,
    permissions: u64,
}

impl Sought for Pair<'_> {
    ghost list = { λ s. s.pairs.now };

    ghost users_sought = { λ s. s.users };

    ghost permissions_sought = { λ s. s.permissions };

    ghost reaches = { λ s k. 2 * k + 1 < length s.pairs.now };

    fn users(&self) -> u64 {
        self.users
    }

    fn permissions(&self) -> u64 {
        self.permissions
    }

    fn is_at(&self, k: usize) -> bool {
        self.pairs[2 * k] == self.users && self.pairs[2 * k + 1] == self.permissions
    }
}

// A key among keys: a pair of it and the empty set.
#[derive(Clone, Copy)]
struct Key<'a> {
    keys: &'a [u32],
    key: u32,
}

impl Sought for Key<'_> {
    ghost list = { λ s. key_pairs s.keys.now };

    ghost users_sought = { λ s. s.key };

    ghost permissions_sought = { λ s. 0 };

    ghost reaches = { λ s k. k < length s.keys.now };

    fn users(&self) -> u64 {
        self.key as u64
    }

    fn permissions(&self) -> u64 {
        0
    }

    fn is_at(&self, k: usize) -> bool {
        self.keys[k] == self.key
    }
}

// Where the walk that seeks a pair among the first n ends: at its number; or, where it is not there, at the place of the links that would have it.
fn walk<S: Sought>(
    sought: &S,
    links: &[u16],
    w: usize,
    a: u64,
    b: u64,
    n: usize,
) -> Result<usize, usize>
    requires n_in_bounds { (w + 2 * n ≤ length links.now) × (n < 33345) × (0 < w) × (w ≤ 65536) × ((k : ℕ) → k < n → S.reaches sought.now k) }
    requires indexed { Indexed w n (S.list sought.now) links.now a b × Within (S.users_sought sought.now) a × Within (S.permissions_sought sought.now) b }
    ensures { Ended w n (S.list sought.now) links.now a b (S.users_sought sought.now) (S.permissions_sought sought.now) result }
{
    let u = sought.users();
    let p = sought.permissions();
    let mut rest_a = a;
    let mut rest_b = b;
    let mut hook = bucket(u, p, w);
    loop {
        let c = links[hook] as usize;
        if c == 0 {
            return Err(hook);
        }
        let k = c - 1;
        if sought.is_at(k) {
            return Ok(k);
        }
        let t = next_turn(rest_a, rest_b, u, p);
        hook = w + 2 * k + t.side;
        rest_a = t.users;
        rest_b = t.permissions;
    }
}

// Where u and p stand among the first n pairs; or the place of the links that would have them.
pub fn find(
    pairs: &[u64],
    links: &[u16],
    w: usize,
    a: u64,
    b: u64,
    n: usize,
    u: u64,
    p: u64,
) -> Result<usize, usize>
    requires n_in_bounds { (2 * n ≤ length pairs.now) × (w + 2 * n ≤ length links.now) × (n < 33345) × (0 < w) × (w ≤ 65536) }
    requires indexed { Indexed w n pairs.now links.now a b × Within u a × Within p b }
    ensures { Ended w n pairs.now links.now a b u p result }
{
    let sought = Pair {
        pairs,
        users: u,
        permissions: p,
    };
    walk(&sought, links, w, a, b, n)
}

// Where m stands among the first n keys; or the place of the links that would have it.
pub fn find_key(keys: &[u32], links: &[u16], w: usize, n: usize, m: u32) -> Result<usize, usize>
    requires n_in_bounds { (n ≤ length keys.now) × (w + 2 * n ≤ length links.now) × (n < 33345) × (0 < w) × (w ≤ 65536) }
    requires indexed { Indexed w n (key_pairs keys.now) links.now 4294967295 0 }
    ensures { Ended w n (key_pairs keys.now) links.now 4294967295 0 m 0 result }
{
    walk(&Key { keys, key: m }, links, w, 4294967295, 0, n)
}
