// The C interface for the host: numbers, byte slices and plain structs. Each function tells the result of the call below it in such numbers.
#![tactic(auto)]

ghost use Rattle.std.specs.Prelude.{◌≡◌, length};
ghost use Rattle.calendar.specs.Believed.Calendar.{date_of, minute_of};
ghost use Rattle.policy.specs.Believed.Policy.{question};
ghost use Rattle.policy.specs.Believed.NextUse.{next_use_question};
ghost use Rattle.rota.specs.Believed.Rota.{policy_of as rotaPolicy};
ghost use Rattle.rota.specs.Believed.RotaBytes.{rota_of};
ghost use Rattle.rota.specs.Believed.RotaRefusals.{rota_judged};
ghost use Rattle.rota.specs.Believed.Answers.{read_outcome as rotaRead};
ghost use Rattle.table.specs.Believed.Table.{policy_of as tablePolicy};
ghost use Rattle.table.specs.Believed.TableBytes.{table_of};
ghost use Rattle.table.specs.Believed.TableRefusals.{table_judged};
ghost use Rattle.table.specs.Believed.Answers.{read_outcome as tableRead};
ghost use Rattle.table_board.specs.Believed.Board.{board_told, board_outcome};
ghost use Rattle.tidy_rules.specs.Believed.Tidy.{tidy_outcome, area_tidied};
ghost use Rattle.rewrite_rules.specs.Believed.Rewriting.{rewrite_outcome, size_outcome, area_after};
ghost use Rattle.source.specs.declared.Kind.TheVariants as Kind;
ghost use Rattle.host_page.specs.Believed.Page.{page_judged, page_after};
ghost use Rattle.machine.specs.Believed.Machine.{advance, «open», close, ask};
ghost use Rattle.service.specs.Believed.LentStep.{lent_step};
ghost use Rattle.host_answers.specs.Believed.Told.{question_told, next_told, leaving, stepped_by, rota_told, table_told, tidied_told, written_told, date_told, minute_told};

use host_answers::{
    DateTold, MinuteTold, NextTold, RotaTold, TableTold, TidiedTold, Told, WrittenTold,
};
use host_page::Question;
use machine::Service;
use source::Kind;
use table_board::Board;

// The version is 1.0.0: millions are the major one, thousands the minor one, and the rest the patch.
const VERSION: u32 = 1000000;

#[unsafe(no_mangle)]
pub extern "C" fn softlode_version() -> u32
    ensures { result ≡ 1000000 }
{
    VERSION
}

#[unsafe(no_mangle)]
pub extern "C" fn softlode_rota_read(s: &[u8]) -> RotaTold
    ensures { result ≡ rota_told (rotaRead s.now) }
{
    rota::read(s).into()
}

#[unsafe(no_mangle)]
pub extern "C" fn softlode_table_read(s: &[u8]) -> TableTold
    ensures { result ≡ table_told (tableRead s.now) }
{
    table_reader::read(s).into()
}

// Tidies a rota into the area `out`.
#[unsafe(no_mangle)]
pub extern "C" fn softlode_rota_tidy(s: &[u8], out: &mut [u8]) -> TidiedTold
    ensures { (result ≡ tidied_told (tidy_outcome s.now (length out.old))) × (out.new ≡ area_tidied s.now out.old) }
{
    tidy_rota::tidy(s, out).into()
}

// Rewrites a rota into the area `out`.
#[unsafe(no_mangle)]
pub extern "C" fn softlode_rewrite(s: &[u8], out: &mut [u8]) -> WrittenTold
    ensures { (result ≡ written_told (rewrite_outcome s.now (length out.old))) × (out.new ≡ area_after s.now out.old) }
{
    rewrite::rewrite(s, out).into()
}

// How large the table of a rota is, without an area.
#[unsafe(no_mangle)]
pub extern "C" fn softlode_rewrite_size(s: &[u8]) -> WrittenTold
    ensures { result ≡ written_told (size_outcome s.now) }
{
    rewrite::size(s).into()
}

#[unsafe(no_mangle)]
pub extern "C" fn softlode_date(minute: u32) -> DateTold
    ensures { result ≡ date_told (date_of minute) }
{
    calendar::date_of(minute).into()
}

#[unsafe(no_mangle)]
pub extern "C" fn softlode_minute(
    year: u32,
    month: u32,
    day: u32,
    hour: u32,
    minute: u32,
) -> MinuteTold
    ensures { result ≡ minute_told (minute_of year month day hour minute) }
{
    calendar::minute_of(year, month, day, hour, minute).into()
}

// One question without a service, on a rota and on a table.
#[unsafe(no_mangle)]
pub extern "C" fn softlode_rota_question(s: &[u8], u: u32, p: u32, t: u32) -> Told
    ensures { result ≡ question_told (question (rota_judged s.now) (rotaPolicy (rota_of s.now)) u p t) }
{
    rota_answers::question(s, u, p, t).into()
}

#[unsafe(no_mangle)]
pub extern "C" fn softlode_table_question(s: &[u8], u: u32, p: u32, t: u32) -> Told
    ensures { result ≡ question_told (question (table_judged s.now) (tablePolicy (table_of s.now)) u p t) }
{
    table_questions::question(s, u, p, t).into()
}

// When a permission can next be used, by a table.
#[unsafe(no_mangle)]
pub extern "C" fn softlode_table_next(s: &[u8], u: u32, p: u32, m: u32) -> NextTold
    ensures { result ≡ next_told (next_use_question (table_judged s.now) (tablePolicy (table_of s.now)) u p m) }
{
    table_next::next_use(s, u, p, m).into()
}

// The staff board of a minute, by a table.
#[unsafe(no_mangle)]
pub extern "C" fn softlode_table_board(s: &[u8], t: u32) -> Board
    ensures { result ≡ board_told (board_outcome s.now t) }
{
    table_board::board_at(s, t)
}

// A page of questions, on a rota and on a table: each record's place receives its answer.
#[unsafe(no_mangle)]
pub extern "C" fn softlode_rota_page(questions: &mut [Question], s: &[u8]) -> u32
    ensures { (result ≡ page_judged Kind.Rota (length questions.old) s.now) × (questions.new ≡ page_after Kind.Rota s.now questions.old) }
{
    let b = host_page::begin_rota(questions.len(), s);
    for i in 0..b.count {
        questions[i] = host_page::answer_by_rota(questions[i], s, &b);
    }
    b.refusal
}

#[unsafe(no_mangle)]
pub extern "C" fn softlode_table_page(questions: &mut [Question], s: &[u8]) -> u32
    ensures { (result ≡ page_judged Kind.Table (length questions.old) s.now) × (questions.new ≡ page_after Kind.Table s.now questions.old) }
{
    let b = host_page::begin_table(questions.len(), s);
    for i in 0..b.count {
        questions[i] = host_page::answer_by_table(questions[i], s, &b);
    }
    b.refusal
}

// The four calls on a lent record, with a rota and with a table.
#[unsafe(no_mangle)]
pub extern "C" fn softlode_rota_advance(service: &mut Service, s: &[u8], m: u32) -> Told
    ensures { leaving service.new result ≡ stepped_by (lent_step Kind.Rota s.now service.old (advance m)) }
{
    machine::leave(service::advance(Kind::Rota, s, *service, m), service).into()
}

#[unsafe(no_mangle)]
pub extern "C" fn softlode_rota_open(service: &mut Service, s: &[u8], u: u32) -> Told
    ensures { leaving service.new result ≡ stepped_by (lent_step Kind.Rota s.now service.old («open» u)) }
{
    machine::leave(service::open(Kind::Rota, s, *service, u), service).into()
}

#[unsafe(no_mangle)]
pub extern "C" fn softlode_rota_close(service: &mut Service, s: &[u8], u: u32) -> Told
    ensures { leaving service.new result ≡ stepped_by (lent_step Kind.Rota s.now service.old (close u)) }
{
    machine::leave(service::close(Kind::Rota, s, *service, u), service).into()
}

#[unsafe(no_mangle)]
pub extern "C" fn softlode_rota_ask(service: &mut Service, s: &[u8], u: u32, p: u32) -> Told
    ensures { leaving service.new result ≡ stepped_by (lent_step Kind.Rota s.now service.old (ask u p)) }
{
    service::ask(Kind::Rota, s, *service, u, p).into()
}

#[unsafe(no_mangle)]
pub extern "C" fn softlode_table_advance(service: &mut Service, s: &[u8], m: u32) -> Told
    ensures { leaving service.new result ≡ stepped_by (lent_step Kind.Table s.now service.old (advance m)) }
{
    machine::leave(service::advance(Kind::Table, s, *service, m), service).into()
}

#[unsafe(no_mangle)]
pub extern "C" fn softlode_table_open(service: &mut Service, s: &[u8], u: u32) -> Told
    ensures { leaving service.new result ≡ stepped_by (lent_step Kind.Table s.now service.old («open» u)) }
{
    machine::leave(service::open(Kind::Table, s, *service, u), service).into()
}

#[unsafe(no_mangle)]
pub extern "C" fn softlode_table_close(service: &mut Service, s: &[u8], u: u32) -> Told
    ensures { leaving service.new result ≡ stepped_by (lent_step Kind.Table s.now service.old (close u)) }
{
    machine::leave(service::close(Kind::Table, s, *service, u), service).into()
}

#[unsafe(no_mangle)]
pub extern "C" fn softlode_table_ask(service: &mut Service, s: &[u8], u: u32, p: u32) -> Told
    ensures { leaving service.new result ≡ stepped_by (lent_step Kind.Table s.now service.old (ask u p)) }
{
    service::ask(Kind::Table, s, *service, u, p).into()
}
