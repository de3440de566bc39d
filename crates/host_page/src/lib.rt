// A page of questions: each record's place receives what the single question gives. The bytes are judged once, before any question; the list of
// records is lent to the exported functions (crate softlode), whose loop is over these steps by value.
#![tactic(auto)]

ghost use Rattle.std.specs.Prelude.{◌≡◌, ltb};
ghost use Rattle.refusal.specs.Believed.Numbers.{number};
ghost use Rattle.refusal.specs.Believed.Ends.{outcome_of};
ghost use Rattle.source.specs.declared.Kind.TheVariants as Kind;
ghost use Rattle.host_page.specs.Believed.Page.{place_told, answered};
ghost use Rattle.host_page.specs.Inside.{Ready, Begins, with_answer};

use refusal::Refusal;
use rota::Layout;
use rota::accepted::Rota;
use table::{Counts, Table};

// What a question's record has room for: a refusal's number, or 0; 1 for yes, else 0; the role of a yes, else 0.
#[repr(C)]
#[derive(Clone, Copy, Default)]
pub struct Place {
    pub refusal: u32,
    pub yes: u32,
    pub role: u32,
}

// A question, and the place for its answer.
#[repr(C)]
#[derive(Clone, Copy)]
pub struct Question {
    pub user: u32,
    pub permission: u32,
    pub minute: u32,
    pub answer: Place,
}

impl From<Result<Option<u8>, Refusal>> for Place {
    ghost from_gives = { λ r place. place ≡ place_told (outcome_of r) };

    fn from(r: Result<Option<u8>, Refusal>) -> Place {
        match r {
            Ok(Some(role)) => Place {
                refusal: 0,
                yes: 1,
                role: role.into(),
            },
            Ok(None) => Place::default(),
            Err(refusal) => Place {
                refusal: refusal.into(),
                ..Place::default()
            },
        }
    }
}

// How a page begins: a refusal's number, or 0; how many questions are to be answered, none where anything is refused; and what answers them: where a
// rota has its parts, or a table's counts, with where each role's rows begin if these are searched. (No Result and no enum: the law `meets` of
// PageWalk.antt is over this struct, and a page is quicker where nothing is asked of each question but its own.)
#[derive(Clone, Copy, Default)]
pub struct Begun {
    pub refusal: u32,
    pub count: usize,
    pub layout: Layout,
    pub counts: Counts,
    pub starts: [u64; 32],
}

// Nothing is answered.
fn refused(refusal: Refusal) -> Begun
    ensures { (result.refusal ≡ number refusal) × (result.count ≡ 0) }
{
    Begun {
        refusal: refusal.into(),
        count: 0,
        ..Begun::default()
    }
}

// Everything is answered, by these.
fn accepted(n: usize, layout: Layout, counts: Counts, starts: [u64; 32]) -> Begun
    ensures { (result.refusal ≡ 0) × (result.count ≡ n) × (result.layout ≡ layout) × (result.counts ≡ counts) × (result.starts ≡ starts) }
{
    Begun {
        refusal: 0,
        count: n,
        layout,
        counts,
        starts,
    }
}

// Whether a list has more than 256 questions.
fn is_long(n: usize) -> bool
    ensures { result ≡ ltb 256 n }
{
    256 < n
}

// Judges a list of n questions, then the rota. (A function for each of the two kinds: they read and keep other things, and a page of one kind tests no
// kind at each question.)
pub fn begin_rota(n: usize, s: &[u8]) -> Begun
    ensures { Begins Kind.Rota n s.now result }
{
    if is_long(n) {
        return refused(Refusal::PageTooLong);
    }
    match rota::accepted::open(s) {
        Ok(rota) => accepted(n, rota.layout, Counts::default(), [0; 32]),
        Err(refusal) => refused(refusal),
    }
}

// Judges a list of n questions, then the table.
pub fn begin_table(n: usize, s: &[u8]) -> Begun
    ensures { Begins Kind.Table n s.now result }
{
    if is_long(n) {
        return refused(Refusal::PageTooLong);
    }
    match table_reader::open(s) {
        Ok(table) => accepted(
            n,
            Layout::default(),
            table.counts,
            table_questions::note_starts(&table),
        ),
        Err(refusal) => refused(refusal),
    }
}

// A record with this answer in its place.
fn put(q: Question, a: Result<Option<u8>, Refusal>) -> Question
    ensures { result ≡ with_answer q (place_told (outcome_of a)) }
{
    Question {
        answer: a.into(),
        ..q
    }
}

// A record with its answer by the rota that the page began with.
pub fn answer_by_rota(q: Question, s: &[u8], b: &Begun) -> Question
    requires { Ready Kind.Rota s.now b.now }
    ensures { result ≡ answered Kind.Rota s.now q }
{
    let rota = Rota {
        bytes: s,
        layout: b.layout,
    };
    put(
        q,
        rota_answers::question_in(&rota, q.user, q.permission, q.minute),
    )
}

// A record with its answer by the table that the page began with.
pub fn answer_by_table(q: Question, s: &[u8], b: &Begun) -> Question
    requires { Ready Kind.Table s.now b.now }
    ensures { result ≡ answered Kind.Table s.now q }
{
    let table = Table {
        bytes: s,
        counts: b.counts,
    };
    put(
        q,
        table_questions::question_by(&table, &b.starts, q.user, q.permission, q.minute),
    )
}
