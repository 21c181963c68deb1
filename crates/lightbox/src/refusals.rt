// Why the light box refuses. Each refusal has a number.
ghost use Rattle.std.specs.Prelude.{◌≡◌};
ghost use Rattle.lightbox.specs.declared.refusals.ReadRefusal.TheVariants.{Contrast};
ghost use Rattle.lightbox.specs.Refusals.{lay_number, contrast_number, read_number, read_place};

use std::fmt;

// Why a strip is not laid.
#[derive(Clone, Copy, PartialEq, Eq, Debug)]
pub enum LayRefusal {
    // The strip is not as long as the glass.
    Lengths = 28,
}

// Why a set has no contrast.
#[derive(Clone, Copy, PartialEq, Eq, Debug)]
pub enum ContrastRefusal {
    // The set is not qualified.
    NotQualified = 29,
}

// Why a glass is not read.
#[derive(Clone, Copy, PartialEq, Eq, Debug)]
pub enum ReadRefusal {
    // The width is outside 1 to 4096.
    Width,
    // A strip of this width has more than 32768 squares.
    Squares,
    // The set has no contrast.
    Contrast(ContrastRefusal),
    // The glass is not as long as a strip of this width.
    GlassLength,
    // The output is not as long as a row of this width.
    OutputLength,
    // The count of this pixel, the first such, is neither light nor dark.
    NeitherLevel(u32),
}

impl LayRefusal {
    // The refusal's number.
    pub fn number(self) -> u8
        ensures { result ≡ lay_number self }
    {
        self as u8
    }

    // What is wrong, in words.
    fn words(self) -> &'static str {
        match self {
            LayRefusal::Lengths => "the strip is not as long as the glass",
        }
    }
}

impl ContrastRefusal {
    // The refusal's number.
    pub fn number(self) -> u8
        ensures { result ≡ contrast_number self }
    {
        self as u8
    }

    // What is wrong, in words.
    fn words(self) -> &'static str {
        match self {
            ContrastRefusal::NotQualified => "the set is not qualified",
        }
    }
}

impl ReadRefusal {
    // The refusal's number. By a match: two of the variants hold a value, so that no `as` gives it.
    pub fn number(self) -> u8
        ensures { result ≡ read_number self }
    {
        match self {
            ReadRefusal::Width => 17,
            ReadRefusal::Squares => 18,
            ReadRefusal::Contrast(why) => why.number(),
            ReadRefusal::GlassLength => 30,
            ReadRefusal::OutputLength => 31,
            ReadRefusal::NeitherLevel(_) => 32,
        }
    }

    // The pixel that the refusal is about, from 0, where it is about one.
    pub fn place(self) -> Option<u32>
        ensures { result ≡ read_place self }
    {
        match self {
            ReadRefusal::NeitherLevel(pixel) => Some(pixel),
            _ => None,
        }
    }

    // What is wrong, in words.
    fn words(self) -> &'static str {
        match self {
            ReadRefusal::Width => "the width is outside 1 to 4096",
            ReadRefusal::Squares => "a strip of this width has more than 32768 squares",
            ReadRefusal::Contrast(why) => why.words(),
            ReadRefusal::GlassLength => "the glass is not as long as a strip of this width",
            ReadRefusal::OutputLength => "the output is not as long as a row of this width",
            ReadRefusal::NeitherLevel(_) => "the count of black squares is neither light nor dark",
        }
    }
}

impl From<ContrastRefusal> for ReadRefusal {
    ghost from_gives = { λ why r. r ≡ Contrast why };

    fn from(why: ContrastRefusal) -> ReadRefusal {
        ReadRefusal::Contrast(why)
    }
}

// Writes a refusal, as `refused 32 at 5: ..`, or as `refused 28: ..` where it is about no pixel.
// Private in each crate: nothing is proved of printed text, and a public call has a contract.
fn write_refusal<W: fmt::Write>(
    f: &mut fmt::Formatter<W>,
    number: u8,
    place: Option<u32>,
    words: &str,
) -> fmt::Result {
    match place {
        Some(pixel) => write!(f, "refused {number} at {pixel}: {words}"),
        None => write!(f, "refused {number}: {words}"),
    }
}

impl fmt::Display for LayRefusal {
    fn fmt<W: fmt::Write>(&self, f: &mut fmt::Formatter<W>) -> fmt::Result {
        write_refusal(f, self.number(), None, self.words())
    }
}

impl fmt::Display for ContrastRefusal {
    fn fmt<W: fmt::Write>(&self, f: &mut fmt::Formatter<W>) -> fmt::Result {
        write_refusal(f, self.number(), None, self.words())
    }
}

impl fmt::Display for ReadRefusal {
    fn fmt<W: fmt::Write>(&self, f: &mut fmt::Formatter<W>) -> fmt::Result {
        write_refusal(f, self.number(), self.place(), self.words())
    }
}
