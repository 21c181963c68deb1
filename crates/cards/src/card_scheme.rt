// The scheme that a card names: one of the three schemes. Its meaning and its laws are those of the scheme in it.
ghost use Rattle.cards.specs.Meanings.{scheme_meaning};
ghost use Rattle.schemes.specs.AllOfFacts.{all_of_in_range, all_of_lawful};
ghost use Rattle.schemes.specs.TwoOfFacts.{two_of_in_range, two_of_lawful};
ghost use Rattle.cumulative.specs.Access.{numbers};
ghost use Rattle.cumulative.specs.CumulativeFacts.{cumulative_in_range, cumulative_lawful};
ghost use Rattle.cards.specs.declared.card_scheme.CardScheme.TheVariants.{All, Two, Sets};
ghost use Rattle.cards.specs.SchemeOfSets.{proper_sets, few_forbidden};

use cumulative::Cumulative;
use schemes::{AllOf, Colour, KeyholderSet, Scheme, TwoOf};

// A scheme of one of the three kinds. It is a `Scheme` itself, so that whatever takes a scheme takes it as it is.
#[derive(Drop)]
pub enum CardScheme {
    All(AllOf),
    Two(TwoOf),
    Sets(Cumulative),
}

impl Scheme for CardScheme {
    ghost means = { scheme_meaning };

    ghost in_range = { elim [
      | All s ↦ all_of_in_range s.n s.least s.most
      | Two s ↦ two_of_in_range s.n s.least s.most
      | Sets s ↦ cumulative_in_range s.n (numbers s.minimal.items) (proper_sets s) (few_forbidden s)
    ] };

    ghost lawful = { elim [
      | All s ↦ all_of_lawful s.n s.least
      | Two s ↦ two_of_lawful s.n s.least
      | Sets s ↦ cumulative_lawful s.n (numbers s.minimal.items) (proper_sets s)
    ] };

    // Each method matches for itself: `rt ci` refuses a function that hands out the scheme inside as a `&dyn Scheme`.
    fn keyholders(&self) -> u8 {
        match self {
            CardScheme::All(scheme) => scheme.keyholders(),
            CardScheme::Two(scheme) => scheme.keyholders(),
            CardScheme::Sets(scheme) => scheme.keyholders(),
        }
    }

    fn columns(&self) -> u8 {
        match self {
            CardScheme::All(scheme) => scheme.columns(),
            CardScheme::Two(scheme) => scheme.columns(),
            CardScheme::Sets(scheme) => scheme.columns(),
        }
    }

    fn cell(&self, colour: Colour, keyholder: u8, column: u8) -> bool {
        match self {
            CardScheme::All(scheme) => scheme.cell(colour, keyholder, column),
            CardScheme::Two(scheme) => scheme.cell(colour, keyholder, column),
            CardScheme::Sets(scheme) => scheme.cell(colour, keyholder, column),
        }
    }

    fn qualified(&self, set: KeyholderSet) -> bool {
        match self {
            CardScheme::All(scheme) => scheme.qualified(set),
            CardScheme::Two(scheme) => scheme.qualified(set),
            CardScheme::Sets(scheme) => scheme.qualified(set),
        }
    }
}
