// The contrast of a set of keyholders. Rests on its levels.
ghost use Rattle.std.specs.Prelude.{◌≡◌, IfOk, IfErr};
ghost use Rattle.lightbox.specs.Contrasts.{contrast_of};

use crate::{Contrast, ContrastRefusal};
use schemes::{KeyholderSet, Levels, Scheme, levels_of};

// The contrast that a set has. Refused where the set is not qualified.
#[tactic(auto, using(crate::proofs::ContrastFacts::levels_distinct))]
pub fn contrast<S: Scheme>(scheme: &S, set: KeyholderSet) -> Result<Contrast, ContrastRefusal>
    ensures seen { IfOk result
        (λ seen. contrast_of (S.means scheme.now) set.bits ≡ Ok (seen.light, seen.dark, seen.columns)) }
    ensures refused { IfErr result (λ why. contrast_of (S.means scheme.now) set.bits ≡ Err why) }
{
    if !scheme.qualified(set) {
        return Err(ContrastRefusal::NotQualified);
    }
    let Levels { light, dark } = levels_of(scheme, set);
    Ok(Contrast {
        light,
        dark,
        columns: scheme.columns(),
    })
}
