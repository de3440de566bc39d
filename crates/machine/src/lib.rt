// The plain machine's state, what each of its four calls is refused for, and each call by what a policy says: its counts, and the set of those who hold a
// permission. A call is by value: it gives what it answers with the state that it leaves, and where it is refused the state that came is still there.
#![tactic(auto)]

ghost use Rattle.std.specs.Prelude.{◌≡◌, ◌≤◌, Ok};
ghost use Rattle.ground.specs.Believed.Judgement.{◌or_else◌};
ghost use Rattle.bitset.specs.Believed.Sets.{has};
ghost use Rattle.refusal.specs.Believed.Ends.{judgement_of};
ghost use Rattle.machine.specs.Believed.Machine.{closed, done, state_judged, advance_judged, open_judged, close_judged, ask_judged};
ghost use Rattle.machine.specs.Answers.{stepped, answer_in, state_after};
ghost use Rattle.machine.specs.Core.{moved_step, opened_step, closed_step};

use refusal::Refusal;

// Now, a minute, and the set of users whose sessions are open.
#[repr(C)]
#[derive(Clone, Copy)]
pub struct Service {
    pub now: u32,
    pub open: u64,
}

// Whether the state is one of a policy of so many users.
pub fn judge_state(users: u32, service: Service) -> Result<(), Refusal>
    requires { users ≤ 64 }
    ensures { judgement_of result ≡ state_judged users service }
{
    if minutes::END <= service.now {
        return Err(Refusal::StateUnfit);
    }
    if !bitset::all_below(service.open, users) {
        return Err(Refusal::StateUnfit);
    }
    Ok(())
}

// The first refusal of an advance, after those of the bytes.
pub fn judge_advance(users: u32, service: Service, m: u32) -> Result<(), Refusal>
    requires { users ≤ 64 }
    ensures { judgement_of result ≡ state_judged users service or_else advance_judged service m }
{
    judge_state(users, service)?;
    if minutes::END <= m {
        return Err(Refusal::NoSuchMinute);
    }
    if m < service.now {
        return Err(Refusal::BeforeNow);
    }
    Ok(())
}

// The first refusal of an open's own. The holders are those who hold a permission now.
fn judge_open(users: u32, holders: u64, service: Service, u: u32) -> Result<(), Refusal>
    requires { users ≤ 64 }
    ensures { judgement_of result ≡ open_judged users (has holders u) service u }
{
    if users <= u {
        return Err(Refusal::NoSuchUser);
    }
    if bitset::contains(service.open, u) {
        return Err(Refusal::AlreadyOpen);
    }
    if !bitset::contains(holders, u) {
        return Err(Refusal::NoPermissionNow);
    }
    Ok(())
}

// The first refusal of a close, after those of the bytes.
fn judge_close(users: u32, service: Service, u: u32) -> Result<(), Refusal>
    requires { users ≤ 64 }
    ensures { judgement_of result ≡ state_judged users service or_else close_judged users service u }
{
    judge_state(users, service)?;
    if users <= u {
        return Err(Refusal::NoSuchUser);
    }
    if !bitset::contains(service.open, u) {
        return Err(Refusal::NotOpen);
    }
    Ok(())
}

// The first refusal of an ask, after those of the bytes.
pub fn judge_ask(
    users: u32,
    permissions: u32,
    service: Service,
    u: u32,
    p: u32,
) -> Result<(), Refusal>
    requires { users ≤ 64 }
    ensures { judgement_of result ≡ state_judged users service or_else ask_judged users permissions service u p }
{
    judge_state(users, service)?;
    if users <= u {
        return Err(Refusal::NoSuchUser);
    }
    if permissions <= p {
        return Err(Refusal::NoSuchPermission);
    }
    if !bitset::contains(service.open, u) {
        return Err(Refusal::NotOpen);
    }
    Ok(())
}

// An advance that is not refused, and the sessions that stay: how many it closed.
pub fn moved(stays: u64, service: Service, m: u32) -> (u32, Service)
    ensures { stepped closed service (Ok result) ≡ moved_step stays service m }
{
    let closed = bitset::count_lost(service.open, stays);
    (
        closed,
        Service {
            now: m,
            open: stays,
        },
    )
}

// An open, where the state is not refused.
pub fn opened(users: u32, holders: u64, service: Service, u: u32) -> Result<((), Service), Refusal>
    requires { users ≤ 64 }
    ensures { stepped (λ _. done) service result ≡ opened_step users holders service u }
{
    judge_open(users, holders, service, u)?;
    Ok((
        (),
        Service {
            open: bitset::with(service.open, u),
            ..service
        },
    ))
}

// A close.
pub fn closed(users: u32, service: Service, u: u32) -> Result<((), Service), Refusal>
    requires { users ≤ 64 }
    ensures { stepped (λ _. done) service result ≡ closed_step users service u }
{
    judge_close(users, service, u)?;
    Ok((
        (),
        Service {
            open: bitset::without(service.open, u),
            ..service
        },
    ))
}

// Leaves in a lent record the state that a call leaves; where it is refused the record stays. What the call answers.
pub fn leave<T: Copy>(r: Result<(T, Service), Refusal>, service: &mut Service) -> Result<T, Refusal>
    ensures answer { result ≡ answer_in r }
    ensures state { service.new ≡ state_after service.old r }
{
    let (answer, after) = r?;
    *service = after;
    Ok(answer)
}
