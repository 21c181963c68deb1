// Why films are not read back. The refusals of the light box are kept whole.
ghost use Rattle.std.specs.Prelude.{◌≡◌};
ghost use Rattle.readback.specs.declared.refusals.ReadBackRefusal.TheVariants.{Lay, Read};
ghost use Rattle.readback.specs.Refusals.{read_back_number, read_back_place};

use lightbox::{LayRefusal, ReadRefusal};
use std::fmt;

// Why the films of a row are not read back.
#[derive(Clone, Copy, PartialEq, Eq, Debug)]
pub enum ReadBackRefusal {
    // The strips cannot be laid: the films are too short to have the strips of all keyholders.
    Lay(LayRefusal),
    // The glass cannot be read.
    Read(ReadRefusal),
}

impl ReadBackRefusal {
    // The refusal's number. By a match, since the variants hold the refusals that have it.
    pub fn number(self) -> u8
        ensures { result ≡ read_back_number self }
    {
        match self {
            ReadBackRefusal::Lay(why) => why.number(),
            ReadBackRefusal::Read(why) => why.number(),
        }
    }

    // The pixel that the refusal is about, from 0, where it is about one.
    pub fn place(self) -> Option<u32>
        ensures { result ≡ read_back_place self }
    {
        match self {
            ReadBackRefusal::Lay(_) => None,
            ReadBackRefusal::Read(why) => why.place(),
        }
    }
}

impl From<LayRefusal> for ReadBackRefusal {
    ghost from_gives = { λ why r. r ≡ Lay why };

    fn from(why: LayRefusal) -> ReadBackRefusal {
        ReadBackRefusal::Lay(why)
    }
}

impl From<ReadRefusal> for ReadBackRefusal {
    ghost from_gives = { λ why r. r ≡ Read why };

    fn from(why: ReadRefusal) -> ReadBackRefusal {
        ReadBackRefusal::Read(why)
    }
}

impl fmt::Display for ReadBackRefusal {
    fn fmt<W: fmt::Write>(&self, f: &mut fmt::Formatter<W>) -> fmt::Result {
        match *self {
            ReadBackRefusal::Lay(why) => write!(f, "{why}"),
            ReadBackRefusal::Read(why) => write!(f, "{why}"),
        }
    }
}
