// Light and dark of a set of keyholders: how many columns of its stack are black.
ghost use Rattle.std.specs.Prelude.{◌≡◌};
ghost use Rattle.schemes.specs.Meaning.{stack, blacks, light, dark};

use crate::{Colour, KeyholderSet, Scheme};

// How many squares are black over a white pixel, and over a black one.
#[derive(Clone, Copy, PartialEq, Eq, Debug)]
pub struct Levels {
    pub light: u8,
    pub dark: u8,
}

// Whether the films of the set's members, laid on one another, are black at the column.
fn is_stack_black<S: Scheme>(scheme: &S, colour: Colour, set: KeyholderSet, column: u8) -> bool
    ensures { result ≡ stack (S.means scheme.now) colour set.bits column }
{
    (0..scheme.keyholders()).any(|k| set.has(k + 1) && scheme.cell(colour, k + 1, column))
}

// At how many columns the stack is black.
fn count_blacks<S: Scheme>(scheme: &S, colour: Colour, set: KeyholderSet) -> u8
    ensures { result ≡ blacks (S.means scheme.now) colour set.bits }
{
    (0..scheme.columns())
        .filter(|column| is_stack_black(scheme, colour, set, *column))
        .count() as u8
}

// Light and dark of any set, qualified or not; keyholders above n show nothing.
pub fn levels_of<S: Scheme>(scheme: &S, set: KeyholderSet) -> Levels
    ensures light { result.light ≡ light (S.means scheme.now) set.bits }
    ensures dark { result.dark ≡ dark (S.means scheme.now) set.bits }
{
    Levels {
        light: count_blacks(scheme, Colour::White, set),
        dark: count_blacks(scheme, Colour::Black, set),
    }
}
