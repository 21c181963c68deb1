// All of n: only all keyholders together read the secret.
ghost use Rattle.std.specs.Prelude.{◌≡◌, ◌^◌, ◌<◌, ◌≤◌, IfOk, OnOk};
ghost use Rattle.schemes.specs.Bits.{parity};
ghost use Rattle.schemes.specs.Keyholders.{most_keyholders};
ghost use Rattle.schemes.specs.AllOf.{row, all_of, LevelsOfAll};
ghost use Rattle.schemes.specs.Refusals.{refusal_in, keyholders_from};
ghost use Rattle.schemes.specs.AllOfFacts.{all_of_in_range, all_of_lawful};

use crate::bits::has_bit;
use crate::scheme::has_cell;
use crate::{Colour, KeyholderSet, Scheme, SchemeRefusal, check_keyholders};

// Whether an odd number of a column's bits is set.
fn is_odd(column: u8, width: u8) -> bool
    requires { column < 2 ^ width }
    ensures { result ≡ parity width column }
{
    column.count_ones() % 2 == 1
}

// The cell of row k, that of keyholder k + 1, where the columns have so many bits.
fn row_cell(width: u8, colour: Colour, k: u8, column: u8) -> bool
    requires { (width < 8) × (column < 2 ^ width) }
    ensures { result ≡ row width colour k column }
{
    if k < width {
        return has_bit(column, k);
    }
    match colour {
        Colour::White => is_odd(column, width),
        Colour::Black => !is_odd(column, width),
    }
}

// The scheme in which only the set of all n keyholders is qualified (Naor and Shamir, k out of k).
#[derive(Clone, Copy)]
pub struct AllOf {
    n: u8,
    ghost least: { 1 ≤ n },
    ghost most: { n ≤ most_keyholders },
}

impl AllOf {
    // All of n. Refused where n is outside 1 to 8.
    pub fn new(n: u8) -> Result<AllOf, SchemeRefusal>
        ensures refusal { refusal_in result ≡ keyholders_from 1 n }
        ensures made { IfOk result (λ s. s.n ≡ n) }
        ensures levels { OnOk result (LevelsOfAll n) }
    {
        check_keyholders(1, n)?;
        Ok(AllOf { n })
    }
}

impl Scheme for AllOf {
    ghost means = { λ s. all_of s.n };

    ghost in_range = { λ s. all_of_in_range s.n s.least s.most };

    ghost lawful = { λ s. all_of_lawful s.n s.least };

    fn keyholders(&self) -> u8 {
        self.n
    }

    fn columns(&self) -> u8 {
        1 << (self.n - 1)
    }

    fn cell(&self, colour: Colour, keyholder: u8, column: u8) -> bool {
        has_cell(self.n, self.columns(), keyholder, column)
            && row_cell(self.n - 1, colour, keyholder - 1, column)
    }

    fn qualified(&self, set: KeyholderSet) -> bool {
        set == KeyholderSet::everyone(self.n)
    }
}
