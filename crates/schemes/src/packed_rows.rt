// Rows of bits packed into bytes, the highest bit of each byte first.
ghost use Rattle.std.specs.Prelude.{◌≡◌, ℕ, ◌-◌, ◌*◌, ◌/◌, ◌%◌, ◌^◌, ◌<◌, ◌&&◌, ◌||◌, length, ◌==◌, bit_or, nat_lt, slice_index, slice_set};
ghost use Rattle.schemes.specs.Bits.{bit};
ghost use Rattle.schemes.specs.PackedRows.{bytes_for, bit_at};

use crate::bits::{has_bit, with_bit};

// How many bytes hold so many bits.
pub fn bytes_for(bits: usize) -> usize
    ensures { result ≡ bytes_for bits }
{
    bits.div_ceil(8)
}

// Bit k of a row; 0 past its end.
pub fn bit_at(row: &[u8], k: usize) -> bool
    ensures { result ≡ bit_at row.now k }
{
    row.get(k / 8)
        .is_some_and(|byte| has_bit(*byte, 7 - (k % 8) as u8))
}

// Sets bit k of a row, and no other. A bit past the row's end changes nothing.
pub fn set_bit(row: &mut [u8], k: usize)
    ensures bits { (j : ℕ) → bit_at row.new j ≡ ((j == k && nat_lt k (8 * length row.old)) || bit_at row.old j) }
    ensures bytes { ((i : ℕ) → slice_index row.old i < 256) → (i : ℕ) → slice_index row.new i < 256 }
{
    // An index: no clause says what a slice holds after a write through `get_mut`.
    if k / 8 < row.len() {
        row[k / 8] = with_bit(row[k / 8], 7 - (k % 8) as u8);
    }
}
