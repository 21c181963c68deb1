// What a card says: a kind of scheme, the number of keyholders, and a list of sets.
ghost use Rattle.std.specs.Prelude.{◌≡◌};
ghost use Rattle.cards.specs.Kinds.{kind_number, kind_of_number};

use crate::CardRefusal;
use schemes::KeyholderSet;

// n where a card does not write it.
pub const UNWRITTEN_N: u8 = 2;

// The bits of the fields in the map.
pub const N_BIT: u8 = 1;

pub const KIND_BIT: u8 = 2;

pub const SETS_BIT: u8 = 4;

// The map of all fields: a greater one has a bit that stands for no field.
pub const ALL_BITS: u8 = N_BIT | KIND_BIT | SETS_BIT;

// The kind of the scheme that a card names, with its number.
#[derive(Clone, Copy, PartialEq, Eq, Debug)]
pub enum CardKind {
    // All of n: only all keyholders together read the secret.
    AllOf = 1,
    // Two of n: any two keyholders read it.
    TwoOf = 2,
    // The sets that contain a set of the card's list read it.
    Sets = 3,
}

impl CardKind {
    // The kind's number: 1 for all of n, 2 for two of n, 3 for sets.
    pub fn number(self) -> u8
        ensures { result ≡ kind_number self }
    {
        self as u8
    }
}

impl TryFrom<u8> for CardKind {
    type Error = CardRefusal;

    ghost try_from_gives = { λ number kind. kind ≡ kind_of_number number };

    // The kind of a number; no other number than 1, 2 and 3 has one.
    fn try_from(number: u8) -> Result<CardKind, CardRefusal> {
        match number {
            1 => Ok(CardKind::AllOf),
            2 => Ok(CardKind::TwoOf),
            3 => Ok(CardKind::Sets),
            _ => Err(CardRefusal::WrongValue),
        }
    }
}

// What a card says. The sets stand in rising order, and there are none unless the kind is `Sets`.
// A card is what a caller fills in: `write` refuses sets that do not fit the kind, or do not rise, with 16.
#[derive(Drop)]
pub struct Card {
    pub kind: CardKind,
    pub n: u8,
    pub sets: Vec<KeyholderSet>,
}
