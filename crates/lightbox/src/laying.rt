// Strips laid on a glass, one on another.
ghost use Rattle.std.specs.Prelude.{◌≡◌, length};
ghost use Rattle.schemes.specs.Refusals.{refusal_in};
ghost use Rattle.lightbox.specs.Laying.{lay_refusal, laid, StacksAddUp, StacksOfMembers};

use crate::LayRefusal;

// Lays a strip on the glass: each byte of the glass becomes its OR with the strip's. Refused where the lengths differ, and
// the glass stays as it is. A glass is cleared by filling it with 0.
#[tactic(auto, using(crate::proofs::StackFacts::laying))]
pub fn lay(glass: &mut [u8], strip: &[u8]) -> Result<(), LayRefusal>
    ensures refusal { refusal_in result ≡ lay_refusal (length glass.old) (length strip.now) }
    ensures leaves { glass.new ≡ laid glass.old strip.now }
    ensures adds { StacksAddUp }
    ensures stacks { StacksOfMembers }
{
    if glass.len() != strip.len() {
        return Err(LayRefusal::Lengths);
    }
    // An index: what a loop over `glass.iter_mut().zip(strip)` writes is not known after it (`returns-clause-leaves`).
    for (i, byte) in glass.iter_mut().enumerate() {
        *byte |= strip[i];
    }
    Ok(())
}
