// The rows of one kind of an accepted rota, and the sets that they give.

ghost use Rattle.std.specs.Prelude.{◌≡◌, false, ◌&&◌, ◌+◌, ◌*◌, ◌≤◌, ◌<◌, eqb, length};
ghost use Rattle.ground.specs.Believed.Search.{any_below};
ghost use Rattle.bitset.specs.Believed.Sets.{has};
ghost use Rattle.endian.specs.Believed.Numbers.{u8_at};
ghost use Rattle.rota.specs.Believed.RotaBytes.{users_of, permissions_of, user_rows_of, permission_rows_of, user_rows_at, permission_rows_at, row_at};
ghost use Rattle.rota_answers.specs.Gathered.{RowsLent, RowsLent-prop, row_in, roles_of_number, roles_assigned, users_with};

use hours::decode;
use rota::accepted::Rota;

// The rows of one kind: `n` rows from `at` on, with numbers below `top`, where there are so many hours records.
#[derive(Clone, Copy)]
pub struct Rows<'a> {
    pub bytes: &'a [u8],
    pub hours: u32,
    pub top: u32,
    pub at: usize,
    pub n: usize,
    pub ghost lent: { RowsLent bytes.now hours top at n } by { RowsLent-prop bytes.now hours top at n },
}

// The rows that give users their roles.
pub fn user_rows<'a>(rota: &Rota<'a>) -> Rows<'a>
    ensures bytes { result.bytes.now ≡ rota.now.bytes.now }
    ensures place { (result.at ≡ user_rows_at rota.now.bytes.now) × (result.n ≡ user_rows_of rota.now.bytes.now) }
    ensures top { result.top ≡ users_of rota.now.bytes.now }
{
    let l = rota.layout;
    Rows {
        bytes: rota.bytes,
        hours: l.counts.hours,
        top: l.counts.users,
        at: l.user_rows_at,
        n: l.counts.user_rows as usize,
    }
}

// The rows that give permissions to roles.
pub fn permission_rows<'a>(rota: &Rota<'a>) -> Rows<'a>
    ensures bytes { result.bytes.now ≡ rota.now.bytes.now }
    ensures place { (result.at ≡ permission_rows_at rota.now.bytes.now) × (result.n ≡ permission_rows_of rota.now.bytes.now) }
    ensures top { result.top ≡ permissions_of rota.now.bytes.now }
{
    let l = rota.layout;
    Rows {
        bytes: rota.bytes,
        hours: l.counts.hours,
        top: l.counts.permissions,
        at: l.permission_rows_at,
        n: l.counts.permission_rows as usize,
    }
}

// Whether one of the sixteen rows from `at` on may have number x: whether one has its low byte.
fn any_numbered(s: &[u8], at: usize, x: u32) -> bool
    requires { at + 48 ≤ length s.now }
    ensures { result ≡ false → any_below 16 (λ k. eqb (u8_at s.now (at + 3 * k)) x) ≡ false }
{
    rota_rows::any_numbered(s, at, (x % 256) as u8)
}

impl Rows<'_> {
    // The number of row k.
    pub fn number(&self, k: usize) -> u32
        requires { k < self.now.n }
        ensures { result ≡ (row_at self.now.bytes.now self.now.at k).number }
    {
        endian::read8(self.bytes, self.at + 3 * k) as u32
    }

    // The role of row k.
    pub fn role(&self, k: usize) -> u32
        requires { k < self.now.n }
        ensures { result ≡ (row_at self.now.bytes.now self.now.at k).role }
    {
        endian::read8(self.bytes, self.at + 3 * k + 1) as u32
    }

    // Whether the hours of row k are in the set of the records that hold.
    pub fn holds(&self, k: usize, set: u64) -> bool
        requires { k < self.now.n }
        ensures { result ≡ row_in self.now.bytes.now set self.now.at k }
    {
        hours_reader::ref_holds(
            decode(self.bytes[self.at + 3 * k + 2]),
            set,
            self.hours as usize,
        )
    }

    // Whether row k is one of number x and its hours are in the set.
    pub fn gives(&self, k: usize, set: u64, x: u32) -> bool
        requires { k < self.now.n }
        ensures { result ≡ (eqb (row_at self.now.bytes.now self.now.at k).number x && row_in self.now.bytes.now set self.now.at k) }
    {
        self.number(k) == x && self.holds(k, set)
    }

    // Whether row k is one of these roles and its hours are in the set. Its hours are looked at first, so that it takes no branch.
    pub fn holds_for(&self, k: usize, set: u64, roles: u64) -> bool
        requires { k < self.now.n }
        ensures { result ≡ (has roles (row_at self.now.bytes.now self.now.at k).role && row_in self.now.bytes.now set self.now.at k) }
    {
        let on = self.holds(k, set);
        if bitset::contains(roles, self.role(k)) {
            on
        } else {
            false
        }
    }

    // The roles that the first `to` rows give to number x, where those that the first `from` of them give are `before`.
    fn roles_from(&self, set: u64, x: u32, from: usize, to: usize, before: u64) -> u64
        requires { (from ≤ to) × (to ≤ self.now.n) × (before ≡ roles_of_number self.now.bytes.now set self.now.at from x) }
        ensures { result ≡ roles_of_number self.now.bytes.now set self.now.at to x }
    {
        let mut roles = before;
        for k in from..to {
            if self.gives(k, set, x) {
                roles = bitset::with(roles, self.role(k));
            }
        }
        roles
    }

    // The roles that the rows give to number x. Sixteen rows none of which has the number are passed at once.
    pub fn roles_of(&self, set: u64, x: u32) -> u64
        ensures { result ≡ roles_of_number self.now.bytes.now set self.now.at self.now.n x }
    {
        let mut roles = 0;
        let mut k = 0;
        while 16 <= self.n - k {
            if any_numbered(self.bytes, self.at + 3 * k, x) {
                roles = self.roles_from(set, x, k, k + 16, roles);
            }
            k += 16;
        }
        self.roles_from(set, x, k, self.n, roles)
    }

    // The roles that the rows give to anyone. A row is read before it is judged, so that it takes no branch.
    pub fn roles_assigned(&self, set: u64) -> u64
        ensures { result ≡ roles_assigned self.now.bytes.now set self.now.at self.now.n }
    {
        let mut given = 0;
        for k in 0..self.n {
            let role = self.role(k);
            if self.holds(k, set) {
                given = bitset::with(given, role);
            }
        }
        given
    }

    // The users to whom the rows give one of these roles. A row is read before it is judged, so that it takes no branch.
    pub fn users_with(&self, set: u64, roles: u64) -> u64
        requires { self.now.top ≡ users_of self.now.bytes.now }
        ensures { result ≡ users_with self.now.bytes.now set roles self.now.at self.now.n }
    {
        let mut users = 0;
        for k in 0..self.n {
            let user = self.number(k);
            if self.holds_for(k, set, roles) {
                users = bitset::with(users, user);
            }
        }
        users
    }
}
