// The sizes of strips, the rows of a film.
ghost use Rattle.std.specs.Prelude.{◌≡◌};
ghost use Rattle.schemes.specs.Strips.{strip_squares, strip_size};

use crate::packed_rows::bytes_for;

// A row has at most so many pixels.
pub const MOST_PIXELS: u32 = 4096;

// A strip has at most so many squares.
pub const MOST_SQUARES: u64 = 32768;

// How many squares a strip has, for so many columns and pixels.
pub fn strip_squares(columns: u8, pixels: u32) -> u64
    ensures { result ≡ strip_squares columns pixels }
{
    u64::from(pixels) * u64::from(columns)
}

// How many bytes a strip has, for so many columns and pixels.
pub fn strip_size(columns: u8, pixels: u32) -> usize
    ensures { result ≡ strip_size columns pixels }
{
    bytes_for(strip_squares(columns, pixels) as usize)
}
