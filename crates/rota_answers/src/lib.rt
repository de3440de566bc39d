// What an accepted rota answers: one question to it, and who holds a permission.
#![tactic(auto)]

ghost use Rattle.std.specs.Prelude.{◌≡◌, ◌<◌};
ghost use Rattle.minutes.specs.Believed.Minutes.{E};
ghost use Rattle.refusal.specs.Believed.Ends.{outcome_of};
ghost use Rattle.policy.specs.Believed.Policy.{question, holders_at};
ghost use Rattle.rota.specs.Believed.Rota.{answer, policy_of};
ghost use Rattle.rota.specs.Believed.RotaBytes.{rota_of, roles_of};
ghost use Rattle.rota.specs.Believed.RotaRefusals.{rota_judged};
ghost use Rattle.rota_answers.specs.Gathered.{held, roles_enabled, question_roles, holders_by};

pub mod rows;

use hours::decode;
use refusal::Refusal;
use rota::accepted::{Rota, open};
use rows::{permission_rows, user_rows};

// The roles that are enabled, by the set of the hours records that hold.
pub fn roles_enabled(rota: &Rota<'_>, set: u64) -> u64
    ensures { result ≡ roles_enabled rota.now.bytes.now set (roles_of rota.now.bytes.now) }
{
    let l = rota.layout;
    let h = l.counts.hours as usize;
    let mut roles = 0;
    for k in 0..l.counts.roles as usize {
        if hours_reader::ref_holds(decode(rota.bytes[l.roles_at + k]), set, h) {
            roles = bitset::with(roles, k as u32);
        }
    }
    roles
}

// The roles of a question, by the set of the hours records that hold.
fn question_roles(rota: &Rota<'_>, set: u64, u: u32, p: u32) -> u64
    ensures { result ≡ question_roles rota.now.bytes.now set u p }
{
    let on = roles_enabled(rota, set);
    let user = user_rows(rota).roles_of(set, u);
    let permission = permission_rows(rota).roles_of(set, p);
    bitset::both(bitset::both(on, user), permission)
}

// The hours records that hold at minute t.
pub fn holding_at(rota: &Rota<'_>, t: u32) -> u64
    ensures { result ≡ held rota.now.bytes.now t }
{
    let l = rota.layout;
    let n = l.counts;
    hours_reader::holding_at(rota.bytes, n.cycle, l.hours_at, n.hours as usize, t)
}

// What an accepted rota answers at a minute below E: yes with the lowest role, or no.
pub fn answer_in(rota: &Rota<'_>, u: u32, p: u32, t: u32) -> Option<u8>
    requires { t < E }
    ensures { result ≡ answer (rota_of rota.now.bytes.now) u p t }
{
    let roles = question_roles(rota, holding_at(rota, t), u, p);
    if roles == 0 {
        None
    } else {
        Some(bitset::lowest(roles) as u8)
    }
}

// The users who hold any permission of an accepted rota, by the set of the hours records that hold.
pub fn holders_by(rota: &Rota<'_>, set: u64) -> u64
    ensures { result ≡ holders_by rota.now.bytes.now set }
{
    let on = roles_enabled(rota, set);
    let given = permission_rows(rota).roles_assigned(set);
    user_rows(rota).users_with(set, bitset::both(on, given))
}

// The users who hold any permission of an accepted rota at a minute below E.
pub fn holders_in(rota: &Rota<'_>, t: u32) -> u64
    requires { t < E }
    ensures { result ≡ holders_at (policy_of (rota_of rota.now.bytes.now)) t }
{
    holders_by(rota, holding_at(rota, t))
}

// One question to an accepted rota: 33, 34, 35, or the answer.
pub fn question_in(rota: &Rota<'_>, u: u32, p: u32, t: u32) -> Result<Option<u8>, Refusal>
    ensures { outcome_of result ≡ question (rota_judged rota.now.bytes.now) (policy_of (rota_of rota.now.bytes.now)) u p t }
{
    let n = rota.layout.counts;
    policy::judge_arguments(n.users, n.permissions, u, p, t)?;
    Ok(answer_in(rota, u, p, t))
}

// One question: the rota's refusal, 33, 34, 35, or the answer.
pub fn question(s: &[u8], u: u32, p: u32, t: u32) -> Result<Option<u8>, Refusal>
    ensures { outcome_of result ≡ question (rota_judged s.now) (policy_of (rota_of s.now)) u p t }
{
    let rota = open(s)?;
    question_in(&rota, u, p, t)
}
