// Sets by slot: slot k is hours record k, 32 is always. Their unions over a mask, from a table.
#![tactic(auto)]

ghost use Rattle.std.specs.Prelude.{◌≡◌, ℕ, List, [], ◌∷◌, ◌+◌, ◌≤◌, not, eqb, length, replicate};
ghost use Rattle.rewrite_unions.specs.Union.{used_in, union_of, all_of};
ghost use Rattle.rewrite_unions.specs.Tables.{stored, with_two, choices, Tabled, Ready};

use std::marker::Model;

// 33 sets, with the slots whose sets are not empty, the union of all, and the table of the groups of four slots as far as one is in use. Slot 32 is in no
// group.
#[derive(Drop)]
pub struct Unions {
    sets: [u64; 33],
    used: u64,
    all: u64,
    table: [u64; 128],
    groups: usize,
}

impl Model for Unions {
    ghost Value = { List ℕ };

    ghost view = { λ u. u.sets };

    ghost invariant = { λ u. Ready u.sets u.used u.table u.groups u.all };
}

impl Unions {
    // Sets without members.
    pub fn none() -> Unions
        ensures { result ≡ replicate 33 0 }
    {
        Unions {
            sets: [0; 33],
            used: 0,
            all: 0,
            table: [0; 128],
            groups: 0,
        }
    }

    // Has these sets in place of the ones before. The table is filled where it stands, since a copy of it costs. Inlined: where the compiler knows that
    // the two arrays are apart it copies by memcpy, and a host need have no memmove.
    #[inline(always)]
    pub fn load(&mut self, sets: &[u64; 33])
        ensures { self.new ≡ sets.now }
    {
        self.sets = *sets;
        self.used = used_in(sets);
        self.groups = fill(sets, self.used, &mut self.table);
        self.all = union_at(sets, &self.table, self.groups, self.used);
    }

    pub fn used(&self) -> u64
        ensures { result ≡ used_in self.now }
    {
        self.used
    }

    pub fn all(&self) -> u64
        ensures { result ≡ all_of self.now }
    {
        self.all
    }

    // The union of those of the sets whose slots are in the mask.
    pub fn over(&self, mask: u64) -> u64
        ensures { result ≡ union_of self.now mask 33 }
    {
        union_at(&self.sets, &self.table, self.groups, mask)
    }

    // Whether that union has a member, which the slots alone show.
    pub fn meets(&self, mask: u64) -> bool
        ensures { result ≡ not (eqb (union_of self.now mask 33) 0) }
    {
        bitset::both(mask, self.used) != 0
    }
}

// The slots whose sets are not empty.
pub fn used_in(sets: &[u64; 33]) -> u64
    ensures { result ≡ used_in sets.now }
{
    let mut used = 0;
    for (k, set) in sets.iter().enumerate() {
        if *set != 0 {
            used = bitset::with(used, k as u32);
        }
    }
    used
}

// x alone, with a, with b, and with both.
fn fill_two(table: &mut [u64; 128], at: usize, a: u64, b: u64, ab: u64, x: u64)
    requires { at + 4 ≤ 128 }
    ensures { table.new ≡ stored table.old at (with_two a b ab x) }
{
    table[at] = x;
    table[at + 1] = bitset::either(a, x);
    table[at + 2] = bitset::either(b, x);
    table[at + 3] = bitset::either(ab, x);
}

// The unions of every choice among four sets.
fn fill_four(table: &mut [u64; 128], at: usize, a: u64, b: u64, c: u64, d: u64)
    requires { at + 16 ≤ 128 }
    ensures { table.new ≡ stored table.old at (choices (a ∷ b ∷ c ∷ d ∷ [])) }
{
    let ab = bitset::either(a, b);
    let cd = bitset::either(c, d);
    fill_two(table, at, a, b, ab, 0);
    fill_two(table, at + 4, a, b, ab, c);
    fill_two(table, at + 8, a, b, ab, d);
    fill_two(table, at + 12, a, b, ab, cd);
}

// Fills the table: how many groups it has. (A lent array does not tell its length, so that the contract asks it.)
pub fn fill(sets: &[u64; 33], used: u64, table: &mut [u64; 128]) -> usize
    requires { (used ≡ used_in sets.now) × (length table.old ≡ 128) }
    ensures { Tabled sets.now table.new result }
{
    let low = used % 4294967296;
    for q in 0..8 {
        let k = 4 * q;
        if low >> k == 0 {
            return q;
        }
        fill_four(
            table,
            16 * q,
            sets[k],
            sets[k + 1],
            sets[k + 2],
            sets[k + 3],
        );
    }
    8
}

// The union of those of the sets whose slots are in the mask: one lookup for each group, and slot 32 by itself.
pub fn union_at(sets: &[u64; 33], table: &[u64; 128], groups: usize, mask: u64) -> u64
    requires { Tabled sets.now table.now groups }
    ensures { result ≡ union_of sets.now mask 33 }
{
    let mut all = 0;
    for q in 0..groups {
        let v = ((mask >> (4 * q)) % 16) as usize;
        all = bitset::either(all, table[16 * q + v]);
    }
    if bitset::contains(mask, 32) {
        all = bitset::either(all, sets[32]);
    }
    all
}
