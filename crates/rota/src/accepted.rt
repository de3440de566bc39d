// An accepted rota, for the crates above.
#![tactic(auto)]

ghost use Rattle.std.specs.Prelude.{◌≡◌, IfOk};
ghost use Rattle.refusal.specs.Believed.Ends.{judgement_of};
ghost use Rattle.rota.specs.Believed.RotaRefusals.{rota_judged};
ghost use Rattle.rota.specs.Inside.{Located, Located-prop};

use crate::Layout;
use refusal::Refusal;

// An accepted rota: its bytes, its counts and where its parts begin.
#[derive(Clone, Copy)]
pub struct Rota<'a> {
    pub bytes: &'a [u8],
    pub layout: Layout,
    pub ghost located: { Located bytes.now layout } by { Located-prop bytes.now layout },
}

// Reads a rota: the first refusal, or the accepted rota.
pub fn open(s: &[u8]) -> Result<Rota<'_>, Refusal>
    ensures judged { judgement_of result ≡ rota_judged s.now }
    ensures lent { IfOk result (λ r. r.bytes.now ≡ s.now) }
{
    let layout = crate::locate(s)?;
    Ok(Rota { bytes: s, layout })
}
