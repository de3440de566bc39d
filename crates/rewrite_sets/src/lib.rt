// What a role has in one field.
#![tactic(auto)]

ghost use Rattle.std.specs.Prelude.{◌<◌};
ghost use Rattle.rewrite_sets.specs.Role.{role_in, Gathered};

use rewrite_unions::Unions;

// A role: its number, the slot of the hours in which it is enabled, and its users and permissions by slot. Slot k is hours record k, 32 is always.
#[derive(Clone, Copy)]
pub struct Role {
    pub source: u8,
    pub on: u32,
    pub users: [u64; 33],
    pub permissions: [u64; 33],
}

// A role with the unions of its users and of its permissions at hand.
#[derive(Drop)]
pub struct Loaded {
    pub source: u8,
    pub on: u32,
    pub users: Unions,
    pub permissions: Unions,
}

#[derive(Clone, Copy)]
pub struct Sets {
    pub users: u64,
    pub permissions: u64,
}

impl Loaded {
    // What the role has in a field with this mask: None where it is not enabled, or has no user or no permission. That is seen from the slots alone, before
    // any union is made.
    pub fn sets_in(&self, mask: u64) -> Option<Sets>
        requires { self.now.on < 64 }
        ensures { Gathered (role_in self.now) mask result }
    {
        if self.users.meets(mask)
            && self.permissions.meets(mask)
            && bitset::contains(mask, self.on)
        {
            Some(Sets {
                users: self.users.over(mask),
                permissions: self.permissions.over(mask),
            })
        } else {
            None
        }
    }
}
