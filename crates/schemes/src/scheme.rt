// The interface of a scheme. Its meaning is one record, and every implementation proves the laws.
ghost use Rattle.std.specs.Prelude.{◌≡◌, ◌&&◌, nat_le, nat_lt};
ghost use Rattle.schemes.specs.Meaning.{Meaning};
ghost use Rattle.schemes.specs.Laws.{InRange, Lawful};

use crate::{Colour, KeyholderSet};

// A scheme has at most so many columns.
pub const MOST_COLUMNS: u8 = 128;

// A scheme of visual secret sharing: n keyholders, m columns, a cell for each colour, keyholder and column, and which sets
// of keyholders are qualified. The questions change nothing.
pub trait Scheme {
    // What the scheme means.
    ghost means: { Self → Meaning };

    // The number n of keyholders.
    fn keyholders(&self) -> u8
        ensures { result ≡ (means self.now).n };

    // The number m of columns.
    fn columns(&self) -> u8
        ensures { result ≡ (means self.now).m };

    // The cell of a keyholder, from 1 on, at a column, from 0 on: true is 1, a black square. Out of range it is 0.
    fn cell(&self, colour: Colour, keyholder: u8, column: u8) -> bool
        ensures { result ≡ (means self.now).cell colour keyholder column };

    // Whether the members of the set can read the secret together. A set with a member above n is not qualified.
    fn qualified(&self, set: KeyholderSet) -> bool
        ensures { result ≡ (means self.now).qualified set.bits };

    // 1 to 8 keyholders and 1 to 128 columns; questions out of range are answered by 0 and no.
    ghost in_range: { (s : Self) → InRange (means s) };

    // The four laws.
    ghost lawful: { (s : Self) → Lawful (means s) };
}

// Whether a scheme of n keyholders and m columns has this keyholder and this column.
pub(crate) fn has_cell(n: u8, m: u8, keyholder: u8, column: u8) -> bool
    ensures { result ≡ (nat_le 1 keyholder && nat_le keyholder n && nat_lt column m) }
{
    (1..=n).contains(&keyholder) && column < m
}
