// Sets of the numbers 0 to 63, as the bits of a u64.
#![tactic(auto)]

ghost use Rattle.std.specs.Prelude.{◌≡◌, ℕ, ◌<◌, ◌≤◌, ◌^◌, eqb, ltb, MatchOption};
ghost use Rattle.std.specs.Iterator.{at_most};
ghost use Rattle.bitset.specs.Believed.Sets.{has, insert, remove, union, intersection, difference, count, Lowest};

// Whether i is a member.
pub fn contains(set: u64, i: u32) -> bool
    requires { i < 64 }
    ensures { result ≡ has set i }
{
    (set >> i) % 2 == 1
}

// The set with i.
pub fn with(set: u64, i: u32) -> u64
    requires { i < 64 }
    ensures { result ≡ insert set i }
{
    set | 1u64 << i
}

// The set without i.
pub fn without(set: u64, i: u32) -> u64
    requires { i < 64 }
    ensures { result ≡ remove set i }
{
    set & !(1u64 << i)
}

pub fn either(a: u64, b: u64) -> u64
    ensures { result ≡ union a b }
{
    a | b
}

pub fn both(a: u64, b: u64) -> u64
    ensures { result ≡ intersection a b }
{
    a & b
}

// The members of `before` that are not in `after`.
pub fn lost(before: u64, after: u64) -> u64
    ensures { result ≡ difference before after }
{
    before & !after
}

pub fn is_empty(set: u64) -> bool
    ensures { result ≡ eqb set 0 }
{
    set == 0
}

// How many members there are.
pub fn size(set: u64) -> u32
    ensures { result ≡ count set }
{
    set.count_ones()
}

// How many are in `before` and not in `after`.
pub fn count_lost(before: u64, after: u64) -> u32
    ensures { result ≡ count (difference before after) }
{
    (before & !after).count_ones()
}

// The lowest member of a set that is not empty.
pub fn lowest(set: u64) -> u32
    requires { 0 < set }
    ensures { Lowest set result × (result < 64) }
{
    set.trailing_zeros()
}

// A set that is not empty, without its lowest member: one less borrows from that member and fills what is below it.
pub fn without_lowest(set: u64) -> u64
    requires { 0 < set }
    ensures { (i : ℕ) → Lowest set i → result ≡ remove set i }
{
    set & (set - 1)
}

// Whether every member is below n.
pub fn all_below(set: u64, n: u32) -> bool
    requires { n ≤ 64 }
    ensures { result ≡ ltb set (2 ^ n) }
{
    n == 64 || set >> n == 0
}

// The members of a set, from the lowest on: of `rest` those that are to come.
#[derive(Drop)]
pub struct Members {
    pub rest: u64,
}

impl Members {
    pub fn of(set: u64) -> Members
        ensures { result.rest ≡ set }
    {
        Members { rest: set }
    }
}

impl Iterator for Members {
    type Item = u32;

    ghost next_gives = { λ s r t. MatchOption r ((s.rest ≡ 0) × (t.rest ≡ 0)) (λ i. (0 < s.rest) × Lowest s.rest i × (i < 64) × (t.rest ≡ remove s.rest i)) };

    ghost remaining = { λ s. at_most s.rest };

    fn next(&mut self) -> Option<u32> {
        if is_empty(self.rest) {
            return None;
        }
        let i = lowest(self.rest);
        self.rest = without_lowest(self.rest);
        Some(i)
    }
}
