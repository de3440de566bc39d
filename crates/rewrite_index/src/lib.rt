// Pairs of sets, or single keys, in the order in which they first come, each once, and an index that finds one among them, by the trees of crate rewrite_trees.
#![tactic(auto)]

ghost use Rattle.std.specs.Prelude.{◌≡◌, List, ℕ, ◌+◌, ◌*◌, ◌<◌, ◌≤◌, length};
ghost use Rattle.table.specs.Inside.{entry_made};
ghost use Rattle.rewrite_index.specs.Entries.{Entered, KeyEntered, with_pair, linked, after};
ghost use Rattle.rewrite_trees.specs.Tree.{Within, key_pairs, Indexed, Absent, Ends};

// The link at `hook` leads to pair d, which has no children.
fn link(links: &mut [u16], w: usize, d: usize, hook: usize)
    requires { (w + 2 * d + 1 < length links.old) × (d < 33345) × (w ≤ 65536) × (hook < w + 2 * d) }
    ensures { links.new ≡ linked links.old w d hook }
{
    links[hook] = (d + 1) as u16;
    links[w + 2 * d] = 0;
    links[w + 2 * d + 1] = 0;
}

// The pair u and p, which is not among the first d, comes next, and is linked where its walk ended.
fn add(
    pairs: &mut [u64],
    links: &mut [u16],
    w: usize,
    a: u64,
    b: u64,
    d: usize,
    u: u64,
    p: u64,
    hook: usize,
)
    requires d_in_bounds { (2 * d + 1 < length pairs.old) × (w + 2 * d + 1 < length links.old) × (d < 33345) × (0 < w) × (w ≤ 65536) }
    requires indexed { Indexed w d pairs.old links.old a b × Within u a × Within p b × Absent d pairs.old u p × Ends w d links.old a b u p hook }
    ensures { (pairs.new ≡ with_pair pairs.old d u p)
        × Indexed w (d + 1) pairs.new links.new a b }
{
    pairs[2 * d] = u;
    pairs[2 * d + 1] = p;
    link(links, w, d, hook);
}

// No pair yet: an index of w trees that has none, whatever pairs are to come.
pub fn clear(links: &mut [u16], w: usize)
    requires { w ≤ length links.old }
    ensures { (pairs : List ℕ) (a b : ℕ) → Indexed w 0 pairs links.new a b }
{
    links[..w].fill(0);
}

// Where u and p stand among the first d pairs; where they are not there yet they become the next one, d.
pub fn enter(
    source: u8,
    pairs: &mut [u64],
    links: &mut [u16],
    w: usize,
    a: u64,
    b: u64,
    d: usize,
    u: u64,
    p: u64,
) -> usize
    requires d_in_bounds { (2 * d + 1 < length pairs.old) × (w + 2 * d + 1 < length links.old) × (d < 33345) × (0 < w) × (w ≤ 65536) }
    requires indexed { Indexed w d pairs.old links.old a b × Within u a × Within p b }
    ensures { Entered source (entry_made source u p) d pairs.old pairs.new result
        × Indexed w (after d result) pairs.new links.new a b }
{
    match rewrite_trees::find(pairs, links, w, a, b, d, u, p) {
        Ok(k) => k,
        Err(hook) => {
            add(pairs, links, w, a, b, d, u, p, hook);
            d
        }
    }
}

// Where m stands among the first d keys; where it is not there yet it becomes the next one, d. It is apart from `enter`, since it stores one number in an
// array of another type: a function over both would be no shorter than this match.
pub fn enter_key(keys: &mut [u32], links: &mut [u16], w: usize, d: usize, m: u32) -> usize
    requires d_in_bounds { (d < length keys.old) × (w + 2 * d + 1 < length links.old) × (d < 33345) × (0 < w) × (w ≤ 65536) }
    requires indexed { Indexed w d (key_pairs keys.old) links.old 4294967295 0 }
    ensures { KeyEntered m d keys.old keys.new result
        × Indexed w (after d result) (key_pairs keys.new) links.new 4294967295 0 }
{
    match rewrite_trees::find_key(keys, links, w, d, m) {
        Ok(place) => place,
        Err(hook) => {
            keys[d] = m;
            link(links, w, d, hook);
            d
        }
    }
}
