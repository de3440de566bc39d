// The service over a lent rota or a lent table: the four calls by value. A call gives what it answers with the state that it leaves; where it is refused
// the state that came is still there.
#![tactic(auto)]

ghost use Rattle.std.specs.Prelude.{◌≡◌};
ghost use Rattle.machine.specs.Believed.Machine.{advance, «open», close, ask, closed, done, answered};
ghost use Rattle.machine.specs.Answers.{stepped, remaining};
ghost use Rattle.service.specs.Believed.LentStep.{lent_step};

use machine::Service;
use refusal::Refusal;
use source::Kind;

// How many sessions it closed.
pub fn advance(kind: Kind, s: &[u8], service: Service, m: u32) -> Result<(u32, Service), Refusal>
    ensures { stepped closed service result ≡ lent_step kind s.now service (advance m) }
{
    let lent = source::lend(kind, s)?;
    machine::judge_advance(lent.users(), service, m)?;
    let stays = service_sweep::steady(&lent, service.now + 1, m + 1, service.open);
    Ok(machine::moved(stays, service, m))
}

pub fn open(kind: Kind, s: &[u8], service: Service, u: u32) -> Result<((), Service), Refusal>
    ensures { stepped (λ _. done) service result ≡ lent_step kind s.now service («open» u) }
{
    let source = source::lend(kind, s)?;
    let users = source.users();
    machine::judge_state(users, service)?;
    let holders = service_sweep::steady(&source, service.now, service.now + 1, u64::MAX);
    machine::opened(users, holders, service, u)
}

pub fn close(kind: Kind, s: &[u8], service: Service, u: u32) -> Result<((), Service), Refusal>
    ensures { stepped (λ _. done) service result ≡ lent_step kind s.now service (close u) }
{
    let source = source::lend(kind, s)?;
    machine::closed(source.users(), service, u)
}

// Yes with the lowest role, or no. The state stays.
pub fn ask(kind: Kind, s: &[u8], service: Service, u: u32, p: u32) -> Result<Option<u8>, Refusal>
    ensures { remaining answered service result ≡ lent_step kind s.now service (ask u p) }
{
    let source = source::lend(kind, s)?;
    machine::judge_ask(source.users(), source.permissions(), service, u, p)?;
    Ok(source.answer_at(u, p, service.now))
}
