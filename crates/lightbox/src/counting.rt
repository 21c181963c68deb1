// How many squares of a pixel are black. Rests on where the squares of a strip lie.
ghost use Rattle.std.specs.Prelude.{◌≡◌, ◌+◌, ◌%◌, ◌^◌, cond, fold};
ghost use Rattle.std.specs.List.{range_with_len};
ghost use Rattle.schemes.specs.PackedRows.{bit_at};
ghost use Rattle.schemes.specs.Strips.{square_bit, blacks_over};

use schemes::bit_at;

// The bit of a square of a pixel in a strip, for so many columns.
#[tactic(auto, unfolding(schemes::specs::Strips::square_bit))]
fn square_bit(columns: u8, pixel: u32, square: u8) -> usize
    ensures { result ≡ square_bit columns pixel square }
{
    pixel as usize * usize::from(columns) + usize::from(square)
}

// The black squares of a pixel, added in a byte without a branch on a square: what a film shows is like noise, which no
// processor foresees. A chain asks for a clause that mirrors it.
fn add_squares(glass: &[u8], columns: u8, pixel: u32) -> u8
    ensures { result ≡ fold (λ n square. (n + cond (bit_at glass.now (square_bit columns pixel square)) 1 0) % 2 ^ 8) 0 (range_with_len 0 columns) }
{
    (0..columns).fold(
        0u8,
        |n, square| n.wrapping_add(u8::from(bit_at(glass, square_bit(columns, pixel, square)))),
    )
}

// How many of a pixel's squares are black on the glass, for so many columns. Squares past its end are white.
pub fn count_block(glass: &[u8], columns: u8, pixel: u32) -> u8
    ensures { result ≡ blacks_over columns (bit_at glass.now) pixel }
{
    add_squares(glass, columns, pixel)
}
