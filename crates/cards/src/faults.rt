// Why a card is refused: the format's own refusals, and those of making the scheme, which are kept whole.
ghost use Rattle.std.specs.Prelude.{◌≡◌};
ghost use Rattle.cards.specs.Refusals.{refusal_number, fault_number, fault_place};
ghost use Rattle.cards.specs.declared.faults.CardFault.TheVariants.{Scheme, Memory};

use schemes::SchemeRefusal;
use std::alloc::{AllocError, AllocFailed};
use std::fmt;

// Which rule of the format a card breaks, with the refusal's number.
#[derive(Clone, Copy, PartialEq, Eq, Debug)]
pub enum CardRefusal {
    // The card is empty, or its map has a bit that stands for no field.
    WrongMap = 12,
    // The card ends before its fields do.
    EndsEarly = 13,
    // n is written although it is 2, or the kind is neither 2 nor 3.
    WrongValue = 14,
    // Bytes follow the last field.
    BytesLeftOver = 15,
    // There are sets and the kind is not 3, or the other way round; or a set is not above the one before it.
    WrongSets = 16,
}

impl CardRefusal {
    // The refusal's number, 12 to 16.
    pub fn number(self) -> u8
        ensures { result ≡ refusal_number self }
    {
        self as u8
    }

    fn words(self) -> &'static str {
        match self {
            CardRefusal::WrongMap => "the card is empty or its map has a bit without a field",
            CardRefusal::EndsEarly => "the card ends before its fields do",
            CardRefusal::WrongValue => "n is written as 2 or the kind is neither 2 nor 3",
            CardRefusal::BytesLeftOver => "bytes follow the last field",
            CardRefusal::WrongSets =>
                "sets without kind 3, kind 3 without sets, or a set not above the one before",
        }
    }
}

// Why a card is not read, opened or written.
#[derive(Clone, Copy, PartialEq, Eq, Debug)]
pub enum CardFault {
    // The card breaks a rule of the format, at this byte of the card.
    Format(CardRefusal, usize),
    // The card is well formed, but the scheme that it names is not made. The place is one in the list of sets.
    Scheme(SchemeRefusal),
    // There is no memory left. This is no fault of the card.
    Memory,
}

impl CardFault {
    // The number of the refusal, 7 to 16.
    // By a match, since two of the variants hold a value; `Memory` has 0, since it is no refusal of the rules.
    pub fn number(self) -> u8
        ensures { result ≡ fault_number self }
    {
        match self {
            CardFault::Format(refusal, _) => refusal.number(),
            CardFault::Scheme(refusal) => refusal.number(),
            CardFault::Memory => 0,
        }
    }

    // The place of the fault: a byte of the card for 12 to 16, a set of its list for 9 and 10.
    // 0 where it is about none, as docs/REFUSALS.md fixes it.
    pub fn place(self) -> usize
        ensures { result ≡ fault_place self }
    {
        match self {
            CardFault::Format(_, place) => place,
            CardFault::Scheme(refusal) => refusal.place(),
            CardFault::Memory => 0,
        }
    }
}

impl From<SchemeRefusal> for CardFault {
    ghost from_gives = { λ inner fault. fault ≡ Scheme inner };

    fn from(inner: SchemeRefusal) -> CardFault {
        CardFault::Scheme(inner)
    }
}

impl From<AllocError> for CardFault {
    ghost from_gives = { λ _ fault. fault ≡ Memory };

    fn from(_e: AllocError) -> CardFault {
        CardFault::Memory
    }
}

impl<T: Drop> From<AllocFailed<T>> for CardFault {
    ghost from_gives = { λ _ fault. fault ≡ Memory };

    fn from(_e: AllocFailed<T>) -> CardFault {
        CardFault::Memory
    }
}

impl fmt::Display for CardFault {
    fn fmt<W: fmt::Write>(&self, f: &mut fmt::Formatter<W>) -> fmt::Result {
        match *self {
            CardFault::Format(refusal, place) => {
                let number = refusal.number();
                let words = refusal.words();
                write!(f, "refused {number} at {place}: {words}")
            }
            CardFault::Scheme(refusal) => write!(f, "{refusal}"),
            CardFault::Memory => write!(f, "no memory left"),
        }
    }
}
