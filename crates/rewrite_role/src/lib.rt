// One role of a rota, read from its bytes and derived.
#![tactic(auto)]

ghost use Rattle.std.specs.Prelude.{◌≡◌, ◌<◌};
ghost use Rattle.ground.specs.Believed.Sequence.{list_of};
ghost use Rattle.rota.specs.Inside.{Located};
ghost use Rattle.rota.specs.Believed.RotaBytes.{roles_of, rota_of, row_at};
ghost use Rattle.rewrite_rules.specs.Masks.{slot_of};
ghost use Rattle.rewrite_sets.specs.Role.{role_in, by_slot, role_of};
ghost use Rattle.rewrite_derive.specs.Derive.{Room};
ghost use Rattle.rewrite_role.specs.Parts.{RowsFit, SetsAre, RoleDerivedTo};

use hours::HoursRef;
use rewrite_sets::Loaded;
use rewrite_unions::Unions;
use rota::Layout;

// The slot of a reference: the number of its hours record, or 32 for always.
fn slot(r: HoursRef) -> u32
    ensures { result ≡ slot_of r }
{
    match r {
        HoursRef::Always => 32,
        HoursRef::Numbered(k) => k as u32,
    }
}

// The numbers of the role's rows, by slot, among the n rows from `at` on.
fn by_slot(s: &[u8], at: usize, n: usize, role: u8) -> [u64; 33]
    requires { RowsFit s.now at n }
    ensures { result ≡ by_slot (list_of n (row_at s.now at)) role }
{
    let mut sets = [0; 33];
    for i in 0..n {
        let p = at + 3 * i;
        if s[p + 1] == role {
            let k = slot(hours::decode(s[p + 2])) as usize;
            sets[k] = bitset::with(sets[k], s[p] as u32);
        }
    }
    sets
}

// Reads role r of a rota, in place: a role that is given back would stand on the stack twice.
fn read_role(s: &[u8], l: Layout, r: u8, role: &mut Loaded)
    requires { Located s.now l × (r < roles_of s.now) }
    ensures { role_in role.new ≡ role_of (rota_of s.now) r }
{
    let n = l.counts;
    let at = l.roles_at + r as usize;
    let users = by_slot(s, l.user_rows_at, n.user_rows as usize, r);
    let permissions = by_slot(s, l.permission_rows_at, n.permission_rows as usize, r);
    role.source = r;
    role.on = slot(hours::decode(s[at]));
    role.users.load(&users);
    role.permissions.load(&permissions);
}

// The derived roles of role r, in `pairs`, and the mark of each kind, the first n + 1 places of `marks`: how many derived roles.
// It stops once it has more than `limit` of them.
pub fn derive_role(
    s: &[u8],
    l: Layout,
    r: u8,
    sets: &[u32],
    n: usize,
    limit: usize,
    pairs: &mut [u64],
    marks: &mut [u16],
    links: &mut [u16],
    w: usize,
) -> usize
    requires { Located s.now l × (r < roles_of s.now) × Room n w sets.now pairs.old marks.old links.old × SetsAre s.now sets.now n }
    ensures { RoleDerivedTo limit s.now r n pairs.new marks.new result }
{
    let mut role = Loaded {
        source: r,
        on: 0,
        users: Unions::none(),
        permissions: Unions::none(),
    };
    read_role(s, l, r, &mut role);
    rewrite_derive::derive(&role, sets, n, limit, pairs, marks, links, w)
}
