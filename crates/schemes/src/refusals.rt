// Why a scheme is not made.
ghost use Rattle.std.specs.Prelude.{◌≡◌};
ghost use Rattle.schemes.specs.Refusals.{number, place};
ghost use Rattle.schemes.specs.declared.refusals.SchemeRefusal.TheVariants.{Memory};

use std::alloc::AllocError;
use std::fmt;

// Why a scheme is not made. Each refusal has a number, and a place in the list of sets where it is about one of them.
#[derive(Clone, Copy, PartialEq, Eq, Debug)]
pub enum SchemeRefusal {
    // The number of keyholders is outside 1 to 8, or for two of n outside 2 to 8.
    Keyholders,
    // The list has not 1 to 16 sets.
    ListLength,
    // The set at this place is empty, or names a keyholder above n.
    Members(usize),
    // The set at this place contains another of the list, or equals it.
    Redundant(usize),
    // There are more than 8 maximal forbidden sets.
    ForbiddenSets,
    // There is no memory left. This is no refusal of the rules.
    Memory,
}

impl SchemeRefusal {
    // The refusal's number; `Memory` has 0, since it is no refusal of the rules.
    // By a match, since two of the variants hold a place.
    pub fn number(self) -> u8
        ensures { result ≡ number self }
    {
        match self {
            SchemeRefusal::Keyholders => 7,
            SchemeRefusal::ListLength => 8,
            SchemeRefusal::Members(_) => 9,
            SchemeRefusal::Redundant(_) => 10,
            SchemeRefusal::ForbiddenSets => 11,
            SchemeRefusal::Memory => 0,
        }
    }

    // The place of the set that the refusal is about, from 0; 0 where it is about none, as docs/REFUSALS.md fixes it.
    pub fn place(self) -> usize
        ensures { result ≡ place self }
    {
        match self {
            SchemeRefusal::Members(place) | SchemeRefusal::Redundant(place) => place,
            _ => 0,
        }
    }

    // What the refusal says.
    fn words(self) -> &'static str {
        match self {
            SchemeRefusal::Keyholders => {
                "the number of keyholders is outside 1 to 8, or for two of n outside 2 to 8"
            },
            SchemeRefusal::ListLength => "the list has not 1 to 16 sets",
            SchemeRefusal::Members(_) => "the set is empty or names a keyholder above the last",
            SchemeRefusal::Redundant(_) => "the set contains another set of the list or equals it",
            SchemeRefusal::ForbiddenSets => "the sets leave more than 8 maximal forbidden sets",
            SchemeRefusal::Memory => "no memory left",
        }
    }
}

impl From<AllocError> for SchemeRefusal {
    ghost from_gives = { λ _ why. why ≡ Memory };

    fn from(_e: AllocError) -> SchemeRefusal {
        SchemeRefusal::Memory
    }
}

impl fmt::Display for SchemeRefusal {
    fn fmt<W: fmt::Write>(&self, f: &mut fmt::Formatter<W>) -> fmt::Result {
        let (number, words) = (self.number(), self.words());
        match *self {
            SchemeRefusal::Members(place) | SchemeRefusal::Redundant(place) => {
                write!(f, "refused {number} at {place}: {words}")
            },
            SchemeRefusal::Memory => write!(f, "{words}"),
            _ => write!(f, "refused {number}: {words}"),
        }
    }
}
