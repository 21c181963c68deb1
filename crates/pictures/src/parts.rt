// The readers of the parts of a picture file. Each takes the bytes that are left and answers those after its part, or those from
// the fault on. It rests on the refusals.
ghost use Rattle.std.specs.Prelude.{◌≡◌, ℕ, ◌≤◌, true, false, length, ◌==◌, position, IfOk, IfErr, MatchResult, List, [], ◌∷◌, ◌⊎◌};
ghost use Rattle.pictures.specs.Reading.{got, fault, is_white_byte, magic, blank, gap, number, white};
ghost use Rattle.pictures.specs.declared.refusals.PictureRefusal.TheVariants.{WrongByte, EndsEarly};

use crate::refusals::PictureRefusal;

/// The most points of a side of a picture.
pub(crate) const LONGEST_SIDE: u32 = 4096;

/// Why the reading stopped, and the bytes of the file from there on.
#[derive(Clone, Copy)]
pub(crate) struct Stop<'a> {
    pub(crate) refusal: PictureRefusal,
    pub(crate) rest: &'a [u8],
}

/// The file ends before the part does.
pub(crate) const FILE_END: Stop = Stop {
    refusal: PictureRefusal::EndsEarly,
    rest: &[],
};

fn is_white(b: u8) -> bool
    ensures { result ≡ is_white_byte b }
{
    matches!(b, b'\t' | b'\n' | b'\r' | b' ')
}

/// Past the next byte, where it is one that `fits`.
fn skip_one<F: Fn(u8) -> bool>(bytes: &[u8], fits: F) -> Result<&[u8], Stop<'_>>
    requires { F.IsAlwaysCallable fits }
    ensures past { IfOk result (λ s. (b : ℕ) × (bytes.now ≡ b ∷ s.now) × F.post fits b true) }
    ensures stays { IfErr result (λ e. e.rest.now ≡ bytes.now) }
    ensures why { IfErr result (λ e. (bytes.now ≡ [] × e.refusal ≡ EndsEarly) ⊎ ((b : ℕ) × (s : List ℕ) × (bytes.now ≡ b ∷ s) × F.post fits b false × e.refusal ≡ WrongByte)) }
{
    match bytes {
        [] => Err(FILE_END),
        [first, rest @ ..] if fits(*first) => Ok(rest),
        _ => Err(Stop {
            refusal: PictureRefusal::WrongByte,
            rest: bytes,
        }),
    }
}

/// Past the bytes 80 and 52, P4.
pub(crate) fn skip_magic(file: &[u8]) -> Result<&[u8], Stop<'_>>
    ensures { MatchResult result (λ s. magic file.now ≡ got tt s.now) (λ e. magic file.now ≡ fault e.refusal e.rest.now) }
{
    match file {
        [b'P', b'4', rest @ ..] => Ok(rest),
        [_, _, ..] => Err(Stop {
            refusal: PictureRefusal::WrongMagic,
            rest: file,
        }),
        _ => Err(FILE_END),
    }
}

/// The place of the first byte 10.
fn line_end(bytes: &[u8]) -> Option<usize>
    ensures { result ≡ position (λ b. b == 10) bytes.now }
{
    bytes.iter().position(|b| *b == b'\n')
}

/// Past the next byte 10, from within a comment.
fn skip_comment(bytes: &[u8]) -> Result<&[u8], Stop<'_>>
    ensures reads { MatchResult result (λ s. blank true bytes.now ≡ blank false s.now) (λ e. blank true bytes.now ≡ fault e.refusal e.rest.now) }
    ensures shorter { IfOk result (λ s. length s.now ≤ length bytes.now) }
{
    match line_end(bytes) {
        Some(end) => Ok(&bytes[end + 1..]),
        None => Err(FILE_END),
    }
}

/// Past white bytes and comments, at least one.
pub(crate) fn skip_gap(bytes: &[u8]) -> Result<&[u8], Stop<'_>>
    ensures { MatchResult result (λ s. gap bytes.now ≡ got tt s.now) (λ e. gap bytes.now ≡ fault e.refusal e.rest.now) }
{
    skip_one(bytes, |b| is_white(b) || b == b'#')?;
    let mut rest = bytes;
    while let [first, after @ ..] = rest {
        rest = match *first {
            b'#' => skip_comment(after)?,
            b if is_white(b) => after,
            _ => return Ok(rest),
        };
    }
    Err(FILE_END)
}

/// A number from 1 to 4096, with the bytes after its digits.
pub(crate) fn read_number(bytes: &[u8]) -> Result<(u32, &[u8]), Stop<'_>>
    ensures reads { MatchResult result (λ x. number bytes.now ≡ got x.0 x.1.now) (λ e. number bytes.now ≡ fault e.refusal e.rest.now) }
    ensures least { IfOk result (λ x. 1 ≤ x.0) }
    ensures most { IfOk result (λ x. x.0 ≤ 4096) }
{
    skip_one(bytes, |b| b.is_ascii_digit())?;
    let mut n = 0;
    let mut rest = bytes;
    while let [digit @ b'0'..=b'9', after @ ..] = rest {
        // past the most, the number only has to stay there
        n = (n * 10 + u32::from(*digit - b'0')).min(LONGEST_SIDE + 1);
        rest = after;
    }
    if rest.is_empty() {
        return Err(FILE_END);
    }
    if !(1..=LONGEST_SIDE).contains(&n) {
        return Err(Stop {
            refusal: PictureRefusal::NumberOutside,
            rest: bytes,
        });
    }
    Ok((n, rest))
}

/// Past one white byte: a part of its own, since its clause is in the words of the format, as that of each part is.
pub(crate) fn skip_white(bytes: &[u8]) -> Result<&[u8], Stop<'_>>
    ensures { MatchResult result (λ s. white bytes.now ≡ got tt s.now) (λ e. white bytes.now ≡ fault e.refusal e.rest.now) }
{
    skip_one(bytes, is_white)
}
