// One role's derived roles: the distinct pairs of sets that it has over the distinct masks of the fields, in the order in which they come, and which one
// each mask gives.
#![tactic(auto)]

ghost use Rattle.std.specs.Prelude.{◌≡◌, ◌+◌, ◌*◌, ◌<◌, ◌≤◌, length, get_or};
ghost use Rattle.bitset.specs.Believed.Sets.{insert, union};
ghost use Rattle.rewrite_trees.specs.Tree.{Indexed};
ghost use Rattle.rewrite_unions.specs.Union.{used_in, all_of};
ghost use Rattle.rewrite_sets.specs.Role.{role_in, kept_by};
ghost use Rattle.rewrite_derive.specs.Mark.{mark_at, grown, Marked};
ghost use Rattle.rewrite_derive.specs.Derive.{Room, DerivedTo};

use rewrite_sets::Loaded;

// Where the pair of sets that the role has in a field with this mask stands, among the first d pairs or as the next one, d. None where it has nothing there.
fn enter_field(
    role: &Loaded,
    mask: u64,
    pairs: &mut [u64],
    links: &mut [u16],
    w: usize,
    d: usize,
) -> Option<usize>
    requires d_in_bounds { (2 * d + 1 < length pairs.old) × (w + 2 * d + 1 < length links.old) × (d < 33345) × (0 < w) × (w ≤ 65536) × (role.now.on < 64) }
    requires indexed { Indexed w d pairs.old links.old (all_of role.now.users) (all_of role.now.permissions) }
    ensures { Marked role.now.source (kept_by (role_in role.now) mask) d pairs.old pairs.new result
        × Indexed w (grown d result) pairs.new links.new (all_of role.now.users) (all_of role.now.permissions) }
{
    let x = role.sets_in(mask)?;
    let a = role.users.all();
    let b = role.permissions.all();
    Some(rewrite_index::enter(
        role.source,
        pairs,
        links,
        w,
        a,
        b,
        d,
        x.users,
        x.permissions,
    ))
}

// Mask i: the hours of set i, and always.
fn mask_at(sets: &[u32], i: usize) -> u64
    requires { i < length sets.now }
    ensures { result ≡ insert (get_or sets.now i 0) 32 }
{
    bitset::with(sets[i] as u64, 32)
}

// The slots that the role names: its own, and those of its users and its permissions.
fn named(role: &Loaded) -> u64
    requires { role.now.on < 64 }
    ensures { result ≡ insert (union (used_in role.now.users) (used_in role.now.permissions)) role.now.on }
{
    let slots = bitset::either(role.users.used(), role.permissions.used());
    bitset::with(slots, role.on)
}

// The mark of a mask: 0 where the role has nothing with it, else one more than the place of its derived role. It fits two bytes, as the marks are kept.
fn mark_at(place: Option<usize>) -> usize
    requires { mark_at place ≤ 65535 }
    ensures { result ≡ mark_at place }
{
    match place {
        None => 0,
        Some(k) => k + 1,
    }
}

// The marks of the masks with the first n sets of hours, behind that of kind 0, and the pairs of sets that they are the numbers of: how many pairs. The
// index of the pairs has w trees, and goes by all users and all permissions that the role can have. It stops once it has more than `limit` pairs.
pub fn derive(
    role: &Loaded,
    sets: &[u32],
    n: usize,
    limit: usize,
    pairs: &mut [u64],
    marks: &mut [u16],
    links: &mut [u16],
    w: usize,
) -> usize
    requires { (role.now.on < 33) × Room n w sets.now pairs.old marks.old links.old }
    ensures { DerivedTo limit (role_in role.now) sets.now n pairs.new marks.new result }
{
    let named = named(role);
    rewrite_index::clear(links, w);
    marks[0] = 0;
    let mut d = 0;
    let mut last = 0;
    let mut mark = 0;
    for i in 0..n {
        if limit < d {
            return d;
        }
        let m = bitset::both(mask_at(sets, i), named);
        // Neighbours often differ only in hours that the role does not name.
        if m != last {
            mark = mark_at(enter_field(role, m, pairs, links, w, d));
            d = d.max(mark);
            last = m;
        }
        marks[i + 1] = mark as u16;
    }
    d
}
