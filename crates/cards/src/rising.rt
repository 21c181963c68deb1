// Rising order, of sets and of their numbers.
ghost use Rattle.std.specs.Prelude.{◌≡◌, ◌+◌, ◌^◌, ◌<◌, length, option_map, IfSome};
ghost use Rattle.std.specs.Ordering.{partial_le};
ghost use Rattle.schemes.specs.Refusals.{refusal_in};
ghost use Rattle.cards.specs.Rising.{first_fall, wrong_at};

use crate::{CardFault, CardRefusal};

// The place of the first element that is not above the one before it.
fn first_fall<T: Ord>(list: &[T]) -> Option<usize>
    ensures first { result ≡ first_fall (λ x y. partial_le T.partial_cmp y x) list.now }
    ensures within { IfSome result (λ place. place < length list.now) }
{
    let before = list
        .iter()
        .zip(list.iter().skip(1))
        .position(|(one, next)| next <= one)?;
    Some(before + 1)
}

// That each set of a card is above the one before it, where the first stands at this place.
pub(crate) fn check_rising<T: Ord>(sets: &[T], first_at: usize) -> Result<(), CardFault>
    requires { first_at + length sets.now < 2 ^ 64 }
    ensures { refusal_in result ≡ option_map (wrong_at first_at) (first_fall (λ x y. partial_le T.partial_cmp y x) sets.now) }
{
    match first_fall(sets) {
        None => Ok(()),
        Some(fall) => Err(CardFault::Format(CardRefusal::WrongSets, first_at + fall)),
    }
}
