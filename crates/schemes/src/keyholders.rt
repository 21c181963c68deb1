// Sets of keyholders, who are numbered from 1 on. The width of a set stands here alone, and as `most_keyholders` in the
// specification.
ghost use Rattle.std.specs.Prelude.{◌≡◌, ℕ, ◌^◌, ◌≤◌, min, ◌&&◌, ◌||◌, is_some, IfSome, Decides, ◌==◌, nat_le, nat_lt};
ghost use Rattle.schemes.specs.Keyholders.{most_keyholders, member, Within, Empty, size, everyone};
ghost use Rattle.schemes.specs.Refusals.{refusal_in, keyholders_from};

use crate::SchemeRefusal;
use crate::bits::{has_bit, with_bit};
use std::fmt;

// A set names keyholders 1 to 8.
pub const MOST_KEYHOLDERS: u8 = 8;

// That a scheme which needs at least so many keyholders can have n of them.
pub fn check_keyholders(least: u8, n: u8) -> Result<(), SchemeRefusal>
    ensures { refusal_in result ≡ keyholders_from least n }
{
    if (least..=MOST_KEYHOLDERS).contains(&n) {
        return Ok(());
    }
    Err(SchemeRefusal::Keyholders)
}

// A set of keyholders, ordered by its number: keyholder i, from 1 on, is bit i - 1. The default is nobody.
#[derive(Clone, Copy, PartialEq, Eq, PartialOrd, Ord, Default, Debug)]
pub struct KeyholderSet {
    bits: u8,
}

impl KeyholderSet {
    // The set of this number.
    pub fn from_bits(bits: u8) -> KeyholderSet
        ensures { result.bits ≡ bits }
    {
        KeyholderSet { bits }
    }

    // All of keyholders 1 to n, as far as a set goes.
    pub fn everyone(n: u8) -> KeyholderSet
        ensures { result.bits ≡ everyone (min n most_keyholders) }
    {
        if n >= MOST_KEYHOLDERS {
            return KeyholderSet { bits: u8::MAX };
        }
        KeyholderSet { bits: (1 << n) - 1 }
    }

    // The number of the set.
    pub fn bits(self) -> u8
        ensures { result ≡ self.bits }
    {
        self.bits
    }

    // Whether the keyholder is a member.
    pub fn has(self, keyholder: u8) -> bool
        ensures { result ≡ member self.bits keyholder }
    {
        (1..=MOST_KEYHOLDERS).contains(&keyholder) && has_bit(self.bits, keyholder - 1)
    }

    // The set with this keyholder as well; none where the keyholder is outside 1 to 8.
    pub fn with(self, keyholder: u8) -> Option<KeyholderSet>
        ensures range { is_some result ≡ (nat_le 1 keyholder && nat_le keyholder most_keyholders) }
        ensures members { IfSome result (λ set. (i : ℕ) → member set.bits i ≡ (i == keyholder || member self.bits i)) }
    {
        (1..=MOST_KEYHOLDERS)
            .contains(&keyholder)
            .then(|| KeyholderSet {
                bits: with_bit(self.bits, keyholder - 1),
            })
    }

    // Whether every member of the other set is a member of this one.
    pub fn contains(self, other: KeyholderSet) -> bool
        ensures { Decides result (Within other.bits self.bits) }
    {
        other.bits & self.bits == other.bits
    }

    // Whether the set has no member.
    pub fn is_empty(self) -> bool
        ensures { Decides result (Empty self.bits) }
    {
        self.bits == 0
    }

    // How many members the set has.
    pub fn len(self) -> u8
        ensures { result ≡ size self.bits }
    {
        self.bits.count_ones() as u8
    }

    // Whether no member is above n.
    pub fn is_among(self, n: u8) -> bool
        ensures { result ≡ nat_lt self.bits (2 ^ n) }
    {
        self <= KeyholderSet::everyone(n)
    }
}

// A set is written as its members in braces, {1,3}.
impl fmt::Display for KeyholderSet {
    fn fmt<W: fmt::Write>(&self, f: &mut fmt::Formatter<W>) -> fmt::Result {
        write!(f, "{{")?;
        let mut members = (1..=MOST_KEYHOLDERS).filter(|keyholder| self.has(*keyholder));
        if let Some(first) = members.next() {
            write!(f, "{first}")?;
        }
        for keyholder in members {
            write!(f, ",{keyholder}")?;
        }
        write!(f, "}}")
    }
}
