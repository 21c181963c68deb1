// Digits drawn from a tape. Every digit of a base is spelled by equally many bytes.
ghost use Rattle.std.specs.Prelude.{◌≡◌, ◌%◌, ◌≤◌, if◌then◌else◌, Some, None, nat_lt};
ghost use Rattle.std.specs.Option.{option_map};
ghost use Rattle.tapes.specs.Drawing.{value_of, rest_of};
ghost use Rattle.tapes.specs.Digits.{is_base, bound, digit, Fair};

use crate::Tape;

// The smallest and the greatest base.
const BASE_MIN: u8 = 2;

pub(crate) const BASE_MAX: u8 = 128;

// The base of a digit, 2 to 128.
#[derive(Clone, Copy)]
pub struct Base {
    value: u8,
    ghost least: { 2 ≤ value },
    ghost most: { value ≤ 128 },
}

impl Base {
    // This number as a base; `None` outside 2 to 128.
    pub fn new(value: u8) -> Option<Base>
        ensures answers { option_map (λ b. b.value) result ≡ (if is_base value then Some value else None) }
    {
        if !(BASE_MIN..=BASE_MAX).contains(&value) {
            return None;
        }
        Some(Base { value })
    }

    // A number that is known to be a base.
    pub(crate) fn known(value: u8) -> Base
        requires least { 2 ≤ value }
        requires most { value ≤ 128 }
        ensures { result.value ≡ value }
    {
        Base { value }
    }

    // The number that it is.
    pub fn value(self) -> u8
        ensures gives { result ≡ self.value }
    {
        self.value
    }
}

// The digit that a byte spells; `None` for a byte at or above the bound. The bytes 0 to 255 fall into rows, of one byte for
// each digit, and the bound is the end of the last whole row: so a byte is below it if its row begins by 256 - base.
fn spelled(byte: u8, base: Base) -> Option<u8>
    ensures { result ≡ (if nat_lt byte (bound base.value) then Some (byte % base.value) else None) }
{
    let digit = byte % base.value;
    let row = byte - digit;
    let last_row = u8::MAX - (base.value - 1);
    if row > last_row {
        return None;
    }
    Some(digit)
}

// Draws a digit: the first byte below 256 - 256 % base, mod the base. Bytes before it are thrown away.
// At the tape's end `None`, and the tape is empty.
#[tactic(auto, using(crate::proofs::Spellings::fair))]
pub fn draw_digit<T: Tape>(tape: &mut T, base: Base) -> Option<u8>
    ensures answers { result ≡ value_of (digit base.value (T.bytes tape.old)) }
    ensures leaves { T.bytes tape.new ≡ rest_of (digit base.value (T.bytes tape.old)) }
    ensures fair { Fair base.value }
{
    // A loop: a tape is no iterator, and a chain would begin with a closure that takes from it.
    loop {
        let byte = tape.next()?;
        if let Some(digit) = spelled(byte, base) {
            return Some(digit);
        }
    }
}
