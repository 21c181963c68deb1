// Fills the strips of a row: draws an order for each pixel and sets its squares on every film.
ghost use Rattle.std.specs.Prelude.{◌≡◌, ◌+◌, ◌*◌, ◌<◌, ◌≤◌, length, replicate, MatchOption};
ghost use Rattle.std.specs.List.{All};
ghost use Rattle.schemes.specs.Strips.{most_squares, strip_squares, strip_size};
ghost use Rattle.maker.specs.Films.{films_size};
ghost use Rattle.maker.specs.Filling.{Blackened, one_square, block, Filled, Written, RanShort, Cleared};

use crate::tables::Tables;
use schemes::{Scheme, bit_at, strip_size};
use tapes::{Tape, draw_order};

// A row of the secret picture: its packed pixels, and its width in pixels.
#[derive(Clone, Copy)]
pub struct SecretRow<'a> {
    pub pixels: &'a [u8],
    pub width: u32,
}

// How the strips of a row lie in an output: those of keyholders 1 to n, one after another, of one size in bytes.
// The bytes go beside: as a `&mut` field, each method would promise that the reference and both numbers stay the same.
#[derive(Clone, Copy)]
pub(crate) struct Strips {
    keyholders: u8,
    size: usize,
    ghost few: { keyholders ≤ 8 },
    ghost short: { size ≤ 4096 },
}

impl Strips {
    // The strips of a row of so many pixels.
    pub(crate) fn new<S: Scheme>(scheme: &S, width: u32) -> Strips
        requires { strip_squares (S.means scheme.now).m width ≤ most_squares }
        ensures keyholders { result.keyholders ≡ (S.means scheme.now).n }
        ensures size { result.size ≡ strip_size (S.means scheme.now).m width }
    {
        Strips {
            keyholders: scheme.keyholders(),
            size: strip_size(scheme.columns(), width),
        }
    }

    // How many bytes they all have.
    pub(crate) fn total(self) -> usize
        ensures { result ≡ self.keyholders * self.size }
    {
        usize::from(self.keyholders) * self.size
    }

    // Sets one bit of each strip whose bit is set in `cells`.
    fn set_square(self, out: &mut [u8], place: usize, cells: u8)
        requires out { length out.old ≡ self.keyholders * self.size }
        requires place { place < 8 * self.size }
        ensures { Blackened self.keyholders self.size out.old out.new (one_square place cells) }
    {
        let first = place / 8;
        let shift = 7 - place % 8;
        // An index: after `chunks_exact_mut` nothing is known of the bytes that it lent, and the goal `returns` stays open.
        for k in 0..self.keyholders {
            out[k as usize * self.size + first] |= ((cells >> k) % 2) << shift;
        }
    }

    // Sets the squares of one pixel on every strip, from bit `start` on.
    fn set_block(self, out: &mut [u8], table: &[u8], order: &[u8], start: usize)
        requires out { length out.old ≡ self.keyholders * self.size }
        requires place { start + length order.now ≤ 8 * self.size }
        requires columns { All (λ j. j < length table.now) order.now }
        ensures { Blackened self.keyholders self.size out.old out.new (block table.now order.now start (length order.now)) }
    {
        for (p, column) in order.iter().enumerate() {
            self.set_square(out, start + p, table[*column as usize]);
        }
    }
}

// Draws an order for each pixel and sets its squares, on strips that are white; `None` if the tape runs short.
#[inline(always)]
fn fill_pixels<S: Scheme, T: Tape>(
    scheme: &S,
    tape: &mut T,
    row: SecretRow<'_>,
    strips: Strips,
    out: &mut [u8],
    order: &mut [u8],
) -> Option<()>
    requires keyholders { strips.keyholders ≡ (S.means scheme.now).n }
    requires size { strips.size ≡ strip_size (S.means scheme.now).m row.width }
    requires out { out.old ≡ replicate (strips.keyholders * strips.size) 0 }
    requires order { length order.old ≡ (S.means scheme.now).m }
    ensures { MatchOption result (RanShort (S.means scheme.now) row.entry.width (T.bytes tape.old) (T.bytes tape.new)) (λ _. Filled (S.means scheme.now) row.entry.width row.entry.pixels.now (T.bytes tape.old) (T.bytes tape.new) out.new) }
{
    let tables = Tables::new(scheme);
    // An index: pixel x is a bit of the packed row, and its squares begin x blocks into each strip.
    for x in 0..row.width as usize {
        draw_order(tape, order)?;
        let table = tables.for_pixel(bit_at(row.pixels, x));
        strips.set_block(out, table, order, x * order.len());
    }
    Some(())
}

// Fills the strips of a row, at the start of the output. If the tape runs short it answers `None`, and they are 0.
pub fn write_films<S: Scheme, T: Tape>(
    scheme: &S,
    tape: &mut T,
    row: SecretRow<'_>,
    out: &mut [u8],
    work: &mut [u8],
) -> Option<()>
    requires squares { strip_squares (S.means scheme.now).m row.width ≤ most_squares }
    requires out { films_size (S.means scheme.now) row.width ≤ length out.old }
    requires work { (S.means scheme.now).m ≤ length work.old }
    ensures { MatchOption result (Cleared (S.means scheme.now) row.entry.width (T.bytes tape.old) (T.bytes tape.new) out.old out.new) (λ _. Written (S.means scheme.now) row.entry.width row.entry.pixels.now (T.bytes tape.old) (T.bytes tape.new) out.old out.new) }
{
    let strips = Strips::new(scheme, row.width);
    let total = strips.total();
    let m = usize::from(scheme.columns());
    out[..total].fill(0);
    // One column apart, so that the loop over its pixels is built for one square each, with no digit.
    let filled = if m == 1 {
        fill_pixels(scheme, tape, row, strips, &mut out[..total], &mut work[..1])
    } else {
        fill_pixels(scheme, tape, row, strips, &mut out[..total], &mut work[..m])
    };
    if filled.is_none() {
        out[..total].fill(0);
    }
    filled
}
