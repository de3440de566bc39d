// What a service is lent: the bytes of a rota or of a table, judged once, and asked in the same words from then on.
#![tactic(auto)]

ghost use Rattle.std.specs.Prelude.{◌≡◌, ◌<◌, IfOk};
ghost use Rattle.minutes.specs.Believed.Minutes.{E};
ghost use Rattle.policy.specs.Believed.Policy.{holders_at};
ghost use Rattle.policy.specs.Held.{HeldAmong};
ghost use Rattle.refusal.specs.Believed.Ends.{judgement_of};
ghost use Rattle.source.specs.Believed.Lent.{judged_as};
ghost use Rattle.source.specs.Inside.{LentAs, policy_in, cycle_in, Prepared};

use policy::Held;
use refusal::Refusal;
use rota::accepted::Rota;
use table::Table;

// As which of the two the bytes are lent.
#[derive(Clone, Copy)]
pub enum Kind {
    Rota,
    Table,
}

// An accepted rota, or an accepted table.
#[derive(Clone, Copy)]
pub enum Source<'a> {
    Rota(Rota<'a>),
    Table(Table<'a>),
}

// Judges the bytes: the first refusal of a rota or of a table, or what is lent. Compiled by itself, so that what it takes of the stack is given back
// before its caller goes on.
#[inline(never)]
pub fn lend(kind: Kind, s: &[u8]) -> Result<Source<'_>, Refusal>
    ensures judged { judgement_of result ≡ judged_as kind s.now }
    ensures lent { IfOk result (LentAs kind s.now) }
{
    match kind {
        Kind::Rota => Ok(Source::Rota(rota::accepted::open(s)?)),
        Kind::Table => Ok(Source::Table(table_reader::open(s)?)),
    }
}

impl Source<'_> {
    // How many users there are.
    pub fn users(&self) -> u32
        ensures { result ≡ (policy_in self.now).users }
    {
        match self {
            Source::Rota(rota) => rota.layout.counts.users,
            Source::Table(table) => table.counts.users,
        }
    }

    // How many permissions there are.
    pub fn permissions(&self) -> u32
        ensures { result ≡ (policy_in self.now).permissions }
    {
        match self {
            Source::Rota(rota) => rota.layout.counts.permissions,
            Source::Table(table) => table.counts.permissions,
        }
    }

    // How many minutes the cycle has.
    pub fn cycle(&self) -> u32
        ensures { result ≡ cycle_in self.now }
    {
        match self {
            Source::Rota(rota) => rota.layout.counts.cycle,
            Source::Table(table) => table.counts.cycle,
        }
    }

    // What the lent bytes answer at a minute below E: yes with the lowest role, or no.
    pub fn answer_at(&self, u: u32, p: u32, t: u32) -> Option<u8>
        requires { (u < (policy_in self.now).users) × (p < (policy_in self.now).permissions) × (t < E) }
        ensures { result ≡ (policy_in self.now).answer u p t }
    {
        match self {
            Source::Rota(rota) => rota_answers::answer_in(rota, u, p, t),
            Source::Table(table) => table_questions::answer_in(table, u, p, t),
        }
    }

    // The users who hold any permission at a minute below E.
    pub fn holders_at(&self, t: u32) -> u64
        requires { t < E }
        ensures { result ≡ holders_at (policy_in self.now) t }
    {
        match self {
            Source::Rota(rota) => rota_answers::holders_in(rota, t),
            Source::Table(table) => table_holding::holders_at(table, t),
        }
    }

    // What is found out once for many minutes: of a rota, the hours of each role's permissions.
    pub fn prepare(&self) -> [u64; 32]
        ensures { Prepared self.now result }
    {
        match self {
            Source::Rota(rota) => rota_holding::permitted_hours(rota),
            Source::Table(_) => [0; 32],
        }
    }

    // Of `among`, those who hold a permission at a minute below E, and how far they go on, looked at as far as `limit`. `places` is where a table's
    // searches begin and end: any numbers will do, and those of a minute shortly before save the searches.
    pub fn held_near(
        &self,
        hours: &[u64; 32],
        places: &mut [u64; 32],
        t: u32,
        among: u64,
        limit: u32,
    ) -> Held
        requires { (t < E) × (t < limit) × Prepared self.now hours.now }
        ensures { HeldAmong (policy_in self.now) (cycle_in self.now) among t result.set result.until result.era }
    {
        match self {
            Source::Rota(rota) => rota_holding::held_at(rota, hours, t, among),
            Source::Table(table) => table_holding::held_near(table, places, t, among, limit),
        }
    }
}
