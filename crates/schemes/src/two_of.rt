// Two of n: any two keyholders read the secret together.
ghost use Rattle.std.specs.Prelude.{◌≡◌, ◌^◌, ◌<◌, ◌≤◌, IfOk};
ghost use Rattle.schemes.specs.Keyholders.{most_keyholders, members_among};
ghost use Rattle.schemes.specs.TwoOf.{row, two_of, LevelsOfTwo};
ghost use Rattle.schemes.specs.Refusals.{refusal_in, keyholders_from};
ghost use Rattle.schemes.specs.TwoOfFacts.{two_of_in_range, two_of_lawful};

use crate::scheme::has_cell;
use crate::{Colour, KeyholderSet, Scheme, SchemeRefusal, check_keyholders};

// The cell of row k, that of keyholder k + 1.
fn row_cell(colour: Colour, k: u8, column: u8) -> bool
    ensures { result ≡ row colour k column }
{
    match colour {
        Colour::White => column == 0,
        Colour::Black => column == k,
    }
}

// The scheme in which the sets of two and more of n keyholders are qualified.
// A struct of its own: a generic one is no plainer, named by its table, its least n and the lemmas of its laws.
#[derive(Clone, Copy)]
pub struct TwoOf {
    n: u8,
    ghost least: { 2 ≤ n },
    ghost most: { n ≤ most_keyholders },
}

impl TwoOf {
    // Two of n. Refused where n is outside 2 to 8.
    pub fn new(n: u8) -> Result<TwoOf, SchemeRefusal>
        ensures refusal { refusal_in result ≡ keyholders_from 2 n }
        ensures made { IfOk result (λ s. s.n ≡ n) }
        ensures levels { LevelsOfTwo n }
    {
        check_keyholders(2, n)?;
        Ok(TwoOf { n })
    }
}

impl Scheme for TwoOf {
    ghost means = { λ s. two_of s.n };

    ghost in_range = { λ s. two_of_in_range s.n s.least s.most };

    ghost lawful = { λ s. two_of_lawful s.n s.least };

    fn keyholders(&self) -> u8 {
        self.n
    }

    fn columns(&self) -> u8 {
        self.n
    }

    fn cell(&self, colour: Colour, keyholder: u8, column: u8) -> bool {
        has_cell(self.n, self.n, keyholder, column) && row_cell(colour, keyholder - 1, column)
    }

    fn qualified(&self, set: KeyholderSet) -> bool {
        set.is_among(self.n) && set.len() >= 2
    }
}
