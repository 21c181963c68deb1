// What a glass shows, read as a row of pixels. Rests on the counts of blocks and the contrast of a set.
ghost use Rattle.std.specs.Prelude.{◌≡◌, ◌≤◌, length, IfOk, Ok, OnOk};
ghost use Rattle.schemes.specs.PackedRows.{bytes_for};
ghost use Rattle.schemes.specs.Refusals.{refusal_in};
ghost use Rattle.schemes.specs.Strips.{most_squares};
ghost use Rattle.lightbox.specs.Contrasts.{contrast_of};
ghost use Rattle.lightbox.specs.Reading.{early_refusal, Counted, Reading, OneReading, ReadsWhatShows};

use crate::counting::count_block;
use crate::{Contrast, ContrastRefusal, ReadRefusal, contrast};
use schemes::{
    Colour, KeyholderSet, MOST_PIXELS, MOST_SQUARES, Scheme, bytes_for, set_bit, strip_size,
    strip_squares,
};

// Refuses what `read` refuses before it counts a square, by the lengths of the glass and the output. Its levels are not asked.
// Its arguments are those of `read`: a caller has each of them apart.
pub fn admit<S: Scheme>(
    scheme: &S,
    set: KeyholderSet,
    w: u32,
    glass_bytes: usize,
    out_bytes: usize,
) -> Result<(), ReadRefusal>
    ensures refusal { refusal_in result ≡ early_refusal (S.means scheme.now) set.bits w glass_bytes out_bytes }
    ensures short { OnOk result (glass_bytes ≤ bytes_for most_squares) }
    ensures long { OnOk result (out_bytes ≡ bytes_for w) }
{
    if !(1..=MOST_PIXELS).contains(&w) {
        return Err(ReadRefusal::Width);
    }
    let m = scheme.columns();
    if strip_squares(m, w) > MOST_SQUARES {
        return Err(ReadRefusal::Squares);
    }
    if !scheme.qualified(set) {
        return Err(ReadRefusal::Contrast(ContrastRefusal::NotQualified));
    }
    if glass_bytes != strip_size(m, w) {
        return Err(ReadRefusal::GlassLength);
    }
    if out_bytes != bytes_for(w as usize) {
        return Err(ReadRefusal::OutputLength);
    }
    Ok(())
}

// What the set sees. Refused as `read` refuses before it counts a square, by the lengths of the glass and the output.
pub fn check_reading<S: Scheme>(
    scheme: &S,
    set: KeyholderSet,
    w: u32,
    glass_bytes: usize,
    out_bytes: usize,
) -> Result<Contrast, ReadRefusal>
    ensures refusal { refusal_in result ≡ early_refusal (S.means scheme.now) set.bits w glass_bytes out_bytes }
    ensures seen { IfOk result
        (λ seen. contrast_of (S.means scheme.now) set.bits ≡ Ok (seen.light, seen.dark, seen.columns)) }
    ensures short { OnOk result (glass_bytes ≤ bytes_for most_squares) }
    ensures long { OnOk result (out_bytes ≡ bytes_for w) }
{
    admit(scheme, set, w, glass_bytes, out_bytes)?;
    Ok(contrast(scheme, set)?)
}

// Counts the black squares of each pixel, and makes a row of them.
#[tactic(auto, using(crate::proofs::ReadFacts::steps))]
fn count_row(seen: Contrast, w: u32, glass: &[u8], out: &mut [u8]) -> Result<(), ReadRefusal>
    requires { length out.old ≡ bytes_for w }
    ensures { Counted seen.columns seen.light seen.dark w glass.now result out.new }
{
    out.fill(0); // all white, and the spare bits 0
    // By the pixel's number: it says which squares are counted, which bit is set, and where the row is refused.
    for c in 0..w {
        match seen.colour_of(count_block(glass, seen.columns, c)) {
            Some(Colour::White) => {}
            Some(Colour::Black) => set_bit(out, c as usize),
            None => {
                out.fill(0);
                return Err(ReadRefusal::NeitherLevel(c));
            }
        }
    }
    Ok(())
}

// Reads a row of w pixels from the glass, as a qualified set sees it: a pixel is white where light of its squares are black,
// and black where dark of them are. Spare bits of the output are 0.
// Refused where w is outside 1 to 4096, where a strip has more than 32768 squares, where the set is not qualified, where
// the glass is not a strip long, or the output not a row; the output then stays as it is. Refused too where a pixel has
// another count of black squares; the output is then all 0.
#[tactic(auto, using(crate::proofs::ReadingFacts::one_reading, crate::proofs::ReadingFacts::reads_what_shows))]
pub fn read<S: Scheme>(
    scheme: &S,
    set: KeyholderSet,
    w: u32,
    glass: &[u8],
    out: &mut [u8],
) -> Result<(), ReadRefusal>
    ensures reads { Reading (S.means scheme.now) set.bits w glass.now out.old result out.new }
    ensures determined { OneReading }
    ensures restores { ReadsWhatShows }
{
    let seen = check_reading(scheme, set, w, glass.len(), out.len())?;
    count_row(seen, w, glass, out)
}
