// Scratch for deriving roles.

ghost use Rattle.std.specs.Prelude.{◌≡◌, ◌≤◌, ◌<◌, length, take, drop, set, get_or, is_some, option_map};
ghost use Rattle.ground.specs.Believed.Choice.{pick};
ghost use Rattle.rota.specs.Believed.RotaBytes.{roles_of};
ghost use Rattle.rewrite_role.specs.Parts.{RoleDerivedTo};
ghost use Rattle.rewrite_count.specs.Parts.{RoomFrom, SameRoom};

use crate::fields::Fields;

// The derived roles of a role as pairs of sets of numbers, the mark of each kind, and an index of the pairs with so many trees. Where there is room for
// all roles each is kept behind those before it, and `kept` has how many derived roles each has.
#[derive(Drop)]
pub struct Scratch<'a> {
    pub pairs: &'a mut [u64],
    pub marks: &'a mut [u16],
    pub links: &'a mut [u16],
    pub trees: usize,
    pub kept: Option<[usize; 32]>,
}

impl Scratch<'_> {
    // Where a role's part begins: at `at` where the roles are kept, else at the start, which all roles share.
    pub fn place(&self, at: usize) -> usize
        ensures { result ≡ pick (is_some self.now.kept) at 0 }
    {
        if self.kept.is_some() {
            return at;
        }
        0
    }

    // How many derived roles role i has, where the roles are kept.
    pub fn found(&self, i: usize) -> Option<usize>
        requires { i < 32 }
        ensures { result ≡ option_map (λ found. get_or found i 0) self.now.kept }
    {
        match &self.kept {
            Some(found) => Some(found[i]),
            None => None,
        }
    }

    // Role i has m derived roles.
    pub fn note(&mut self, i: usize, m: usize)
        requires { i < 32 }
        ensures { self.new ≡ record self.old { kept = option_map (λ found. set found i m) self.old.kept } }
    {
        if let Some(found) = &mut self.kept {
            found[i] = m;
        }
    }

    // Derives role r, its derived roles from place `at` of `pairs` on and its marks from place `from` of `marks` on: how many derived roles. What stands
    // before these places stays.
    pub fn derive_at(
        &mut self,
        fields: &Fields,
        r: u8,
        limit: usize,
        at: usize,
        from: usize,
    ) -> usize
        requires located { (r < roles_of fields.now.roles.now.bytes.now) × (at ≤ length self.old.pairs.now) × (from ≤ length self.old.marks.now) }
        requires room { RoomFrom fields.now at from self.old }
        ensures derived { RoleDerivedTo limit fields.now.roles.now.bytes.now r fields.now.mask_count (drop at self.new.pairs.now) (drop from self.new.marks.now) result }
        ensures before { (take at self.new.pairs.now ≡ take at self.old.pairs.now) × (take from self.new.marks.now ≡ take from self.old.marks.now) }
        ensures same { SameRoom self.old self.new × (self.new.kept ≡ self.old.kept) }
    {
        let roles = fields.roles;
        rewrite_role::derive_role(
            roles.bytes,
            roles.layout,
            r,
            fields.masks,
            fields.mask_count,
            limit,
            &mut self.pairs[at..],
            &mut self.marks[from..],
            self.links,
            self.trees,
        )
    }

    // The derived roles from place `at` on.
    pub fn pairs_from(&self, at: usize) -> &[u64]
        requires { at ≤ length self.now.pairs.now }
        ensures { result.now ≡ drop at self.now.pairs.now }
    {
        &self.pairs[at..]
    }

    // The marks from place `from` on.
    pub fn marks_from(&self, from: usize) -> &[u16]
        requires { from ≤ length self.now.marks.now }
        ensures { result.now ≡ drop from self.now.marks.now }
    {
        &self.marks[from..]
    }
}
