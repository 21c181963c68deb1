// The head of a picture file, written into a buffer. It rests on the refusals, and on `itoa` for the digits of a number.
ghost use Rattle.std.specs.Prelude.{◌≡◌, ℕ, ◌+◌, ◌≤◌, List, ◌++◌, length, take, OnOk};
ghost use Rattle.pictures.specs.Rows.{RowsFit};
ghost use Rattle.pictures.specs.Reading.{got, opened};
ghost use Rattle.pictures.specs.Head.{head_of, over_front, heading};

use crate::parts::LONGEST_SIDE;
use crate::refusals::HeadRefusal;
use itoa::Buffer;

/// The most points of a row that a head may name.
const WIDEST: u32 = 32768;

/// The first line of every head.
const MAGIC_LINE: [u8; 3] = *b"P4\n";

/// Writes `part` at `at`, and answers the place after it.
fn put(buf: &mut [u8], at: usize, part: &[u8]) -> usize
    requires { at + length part.now ≤ length buf.old }
    ensures after { result ≡ at + length part.now }
    ensures written { buf.new ≡ over_front (take at buf.old ++ part.now) buf.old }
{
    let end = at + part.len();
    buf[at..end].copy_from_slice(part);
    end
}

/// Writes the head of a picture file of `w` by `h` points over the front of `buf`, and answers its length. The bytes after it stay.
/// `Size` is answered of a width outside 1 to 32768 or a height outside 1 to 4096, and `BufferShort` of a buffer that is shorter
/// than the head; then all of `buf` stays.
pub fn head(buf: &mut [u8], w: u32, h: u32) -> Result<usize, HeadRefusal>
    ensures answers { result ≡ (heading w h buf.old).answer }
    ensures leaves { buf.new ≡ (heading w h buf.old).leaves }
    ensures opens { OnOk result (w ≤ 4096 → (s : List ℕ) → RowsFit w h s → opened (head_of w h ++ s) ≡ got (w, h) s) }
{
    if !(1..=WIDEST).contains(&w) || !(1..=LONGEST_SIDE).contains(&h) {
        return Err(HeadRefusal::Size);
    }
    let mut width = Buffer::new();
    let width = width.format(w).as_bytes();
    let mut height = Buffer::new();
    let height = height.format(h).as_bytes();
    if buf.len() < MAGIC_LINE.len() + width.len() + 1 + height.len() + 1 {
        return Err(HeadRefusal::BufferShort);
    }
    // Five calls and a sum by hand: of an array of the parts, the bound of their `sum` (`sum-len-requires-clause-fits`) is not proved.
    let end = put(buf, 0, &MAGIC_LINE);
    let end = put(buf, end, width);
    let end = put(buf, end, b" ");
    let end = put(buf, end, height);
    let end = put(buf, end, b"\n");
    Ok(end)
}
