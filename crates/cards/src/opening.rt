// Opening a card: reading it, and making the scheme that it names.
ghost use Rattle.std.specs.Prelude.{◌≡◌, ◌⊎◌, Some, None, MatchResult};
ghost use Rattle.schemes.specs.declared.refusals.SchemeRefusal.TheVariants.{Memory};
ghost use Rattle.cumulative.specs.Access.{numbers};
ghost use Rattle.cumulative.specs.Making.{making_refusal};
ghost use Rattle.cards.specs.Answers.{NoMemory, Answers};
ghost use Rattle.cards.specs.Contents.{contents};
ghost use Rattle.cards.specs.Meanings.{scheme_meaning, opened_meaning};
ghost use Rattle.cards.specs.Reading.{reading};
ghost use Rattle.cards.specs.Schemes.{made_in_memory, names_sets, making, Openable, NotOpenable, opening};

use crate::{Card, CardFault, CardKind, CardScheme, read};
use cumulative::Cumulative;
use schemes::{AllOf, KeyholderSet, SchemeRefusal, TwoOf};
use std::alloc::Global;

// The cumulative scheme of the sets, made in the place of a first one.
fn scheme_of_sets(heap: Global, n: u8, sets: &[KeyholderSet]) -> Result<Cumulative, SchemeRefusal>
    ensures { MatchResult result (λ s. (making_refusal n (numbers sets.now) ≡ None) × (s.n ≡ n) × (s.minimal.items ≡ sets.now)) (λ why. (making_refusal n (numbers sets.now) ≡ Some why) ⊎ (why ≡ Memory)) }
{
    let mut made = Cumulative::new(heap)?;
    made.make(heap, n, sets)?;
    Ok(made)
}

// The scheme that a card names, or why it is not made: refusals 7 to 11, with number and place as making the scheme answers them.
// The sets count for the kind of sets alone.
pub fn scheme(heap: Global, card: &Card) -> Result<CardScheme, CardFault>
    ensures answers { Answers scheme_meaning (making (contents card.now)) (made_in_memory card.now.kind) result }
{
    match card.kind {
        CardKind::AllOf => Ok(CardScheme::All(AllOf::new(card.n)?)),
        CardKind::TwoOf => Ok(CardScheme::Two(TwoOf::new(card.n)?)),
        CardKind::Sets => Ok(CardScheme::Sets(scheme_of_sets(heap, card.n, &card.sets)?)),
    }
}

// Opens a card: what it says, and the scheme that it names. The card's own faults come first, 12 to 16, and then those of making
// the scheme, 7 to 11. Only a card of sets needs memory.
pub fn open(heap: Global, bytes: &[u8]) -> Result<(Card, CardScheme), CardFault>
    ensures answers { Answers opened_meaning (opening bytes.now) (names_sets (reading bytes.now)) result }
    ensures exactly_openable { MatchResult result (λ opened. Openable bytes.now (contents opened.0)) (λ e. (NoMemory e → ⊥) → NotOpenable bytes.now) }
{
    let card = read(heap, bytes)?;
    let named = scheme(heap, &card)?;
    Ok((card, named))
}
