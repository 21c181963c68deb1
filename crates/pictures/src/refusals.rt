// Why a picture file, a row or a head is refused: the cases, their numbers and what they print. It rests on nothing.
ghost use Rattle.std.specs.Prelude.{◌≡◌, Some};
ghost use Rattle.pictures.specs.Refusals.{number_of, words_of, shown_at, head_number_of, head_words_of, head_shown};

use std::fmt;

/// Why a picture file was not opened, or has no such row.
#[derive(Clone, Copy, PartialEq, Eq, Debug)]
pub enum PictureRefusal {
    /// Two bytes stand at the front, but not 80 and 52.
    WrongMagic = 1,
    /// A byte stands where one of another kind is required.
    WrongByte = 2,
    /// A number is outside 1 to 4096.
    NumberOutside = 3,
    /// The file ends before its last row does.
    EndsEarly = 4,
    /// Bytes follow the rows.
    BytesAfterRows = 5,
    /// The row number is not below the height.
    NoSuchRow = 6,
}

impl PictureRefusal {
    /// The number of the refusal, from 1 to 6.
    pub fn number(self) -> u8
        ensures number { result ≡ number_of self }
    {
        self as u8 // 1 to 6
    }

    fn words(self) -> &'static str
        ensures { result.now ≡ words_of self }
    {
        match self {
            PictureRefusal::WrongMagic => "the file does not begin with P4",
            PictureRefusal::WrongByte => "another kind of byte is required here",
            PictureRefusal::NumberOutside => "a number is outside 1 to 4096",
            PictureRefusal::EndsEarly => "the file ends too early",
            PictureRefusal::BytesAfterRows => "bytes follow the rows",
            PictureRefusal::NoSuchRow => "the row number is not below the height",
        }
    }
}

/// A refusal and its place: the number of bytes before the one that it is about. Of a row that is not there it is 0.
#[derive(Clone, Copy, PartialEq, Eq, Debug)]
pub struct PictureFault {
    pub refusal: PictureRefusal,
    pub place: usize,
}

impl fmt::Display for PictureFault {
    ghost output = { λ x. Some (shown_at x.refusal x.place) };

    fn fmt<W: fmt::Write>(&self, f: &mut fmt::Formatter<W>) -> fmt::Result {
        let number = self.refusal.number();
        let place = self.place;
        let words = self.refusal.words();
        write!(f, "refused {number} at {place}: {words}")
    }
}

/// Why a head was not written.
#[derive(Clone, Copy, PartialEq, Eq, Debug)]
pub enum HeadRefusal {
    /// The width is outside 1 to 32768, or the height outside 1 to 4096.
    Size = 33,
    /// The buffer is shorter than the head.
    BufferShort = 34,
}

// Calls like those of `PictureRefusal`: a trait of both would state each law once more and save no line.
impl HeadRefusal {
    /// The number of the refusal, 33 or 34.
    pub fn number(self) -> u8
        ensures number { result ≡ head_number_of self }
    {
        self as u8 // 33 and 34
    }

    fn words(self) -> &'static str
        ensures { result.now ≡ head_words_of self }
    {
        match self {
            HeadRefusal::Size => "the width is outside 1 to 32768 or the height outside 1 to 4096",
            HeadRefusal::BufferShort => "the buffer is too short for the head",
        }
    }
}

impl fmt::Display for HeadRefusal {
    ghost output = { λ x. Some (head_shown x) };

    fn fmt<W: fmt::Write>(&self, f: &mut fmt::Formatter<W>) -> fmt::Result {
        let number = self.number();
        let words = self.words();
        write!(f, "refused {number}: {words}")
    }
}
