// Which numbers a question may have, and what a rota and a table both tell a sweep over minutes.
#![tactic(auto)]

ghost use Rattle.std.specs.Prelude.{◌≡◌};
ghost use Rattle.refusal.specs.Believed.Ends.{judgement_of};
ghost use Rattle.policy.specs.Believed.Policy.{arguments_judged};

use refusal::Refusal;

// Who holds a permission at a minute; to before `until` all of them do, and, by the cycle, to before `era`.
#[derive(Clone, Copy)]
pub struct Held {
    pub set: u64,
    pub until: u32,
    pub era: u32,
}

// The first refusal of a question's numbers.
pub fn judge_arguments(users: u32, permissions: u32, u: u32, p: u32, t: u32) -> Result<(), Refusal>
    ensures { judgement_of result ≡ arguments_judged users permissions u p t }
{
    if minutes::END <= t {
        return Err(Refusal::NoSuchMinute);
    }
    if users <= u {
        return Err(Refusal::NoSuchUser);
    }
    if permissions <= p {
        return Err(Refusal::NoSuchPermission);
    }
    Ok(())
}
