// The films of a row, laid on a glass and read. Rests on the light box's own `lay` and `read`.
ghost use Rattle.std.specs.Prelude.{◌≡◌, ◌<◌, ◌≤◌, length, MatchResult};
ghost use Rattle.schemes.specs.Keyholders.{most_keyholders};
ghost use Rattle.schemes.specs.PackedRows.{bytes_for};
ghost use Rattle.schemes.specs.Strips.{most_squares};
ghost use Rattle.readback.specs.ReadingBack.{LaidAndRead, Restores, MembersLaid, FilmsShort};
ghost use Rattle.readback.specs.Law.{ReadsBack};

use crate::ReadBackRefusal;
use lightbox::{LayRefusal, admit, lay, read};
use schemes::{KeyholderSet, Scheme};

// Clears the glass, and lays on it the strips of the members of a set of keyholders 1 to n. Refused where the films have not
// n strips of the glass's length; the glass then stays as it is.
fn lay_members(n: u8, set: KeyholderSet, films: &[u8], glass: &mut [u8]) -> Result<(), LayRefusal>
    requires few { n ≤ most_keyholders }
    requires some { 0 < length glass.old }
    requires short { length glass.old ≤ bytes_for most_squares }
    ensures { MatchResult result
        (λ _. MembersLaid n (length glass.old) set.bits films.now glass.new)
        (λ why. FilmsShort n films.now glass.old why glass.new) }
{
    let size = glass.len();
    if films.len() < usize::from(n) * size {
        return Err(LayRefusal::Lengths);
    }
    glass.fill(0);
    for (keyholder, strip) in (1..=n).zip(films.chunks_exact(size)) {
        if set.has(keyholder) {
            lay(glass, strip)?;
        }
    }
    Ok(())
}

// Reads a row back from its films, the output of a row call for w pixels: the strips of keyholders 1 to n, one after another.
// Clears the glass, lays the strips of the set's members on it, and reads it as the set does. Then the glass holds their stack,
// and the output what `read` leaves.
// Refused where `read` refuses a size or the set, and after that where the films are shorter than n strips; the glass and the
// output then stay as they are. Refused too where a pixel has neither of the two counts of black squares; the output is then
// all 0. From the films of a row that a maker accepted, every qualified set reads the secret row.
pub fn read_back<S: Scheme>(
    scheme: &S,
    set: KeyholderSet,
    w: u32,
    films: &[u8],
    glass: &mut [u8],
    out: &mut [u8],
) -> Result<(), ReadBackRefusal>
    ensures reads { LaidAndRead (S.means scheme.now) set.bits w films.now glass.old out.old result glass.new out.new }
    ensures restores { Restores (S.means scheme.now) set.bits w films.now glass.old out.old result out.new }
    ensures whole_runs { ReadsBack (S.means scheme.now) w }
{
    admit(scheme, set, w, glass.len(), out.len())?;
    lay_members(scheme.keyholders(), set, films, glass)?;
    Ok(read(scheme, set, w, glass, out)?)
}
