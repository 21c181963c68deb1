// The films of a run, and the files that they become.
ghost use Rattle.std.specs.Prelude.{◌≤◌};

use crate::failure::Failure;
use crate::files;
use crate::files::Overwrite;
use films::film_rows;
use schemes::{Scheme, strip_size};
use std::alloc::{AllocError, Global};

// No head is longer: P4, two numbers of at most five digits, and three white bytes.
const LONGEST_HEAD: usize = 15;

// The strips of a run, row after row, and the sizes of the films that they make up.
#[derive(Drop)]
pub struct Films {
    strips: Vec<u8>,
    keyholders: u8,
    // A strip in bytes.
    strip_size: u32,
    // A film in squares.
    pub width: u32,
    pub height: u16,
}

impl Films {
    // Films without rows, for a picture of this size.
    pub fn new<S: Scheme>(heap: Global, scheme: &S, width: u32, height: u32) -> Films
        requires width { width ≤ 4096 }
        requires height { height ≤ 4096 }
    {
        let columns = scheme.columns();
        Films {
            strips: Vec::new(heap),
            keyholders: scheme.keyholders(),
            strip_size: strip_size(columns, width) as u32,
            width: width.saturating_mul(u32::from(columns)),
            height: height as u16,
        }
    }

    // How many bytes the strips of a row have, those of all keyholders.
    pub fn row_size(&self) -> usize {
        usize::from(self.keyholders) * self.strip_size as usize
    }

    // The strips of a row go on the films.
    pub fn add(&mut self, strips: &[u8]) -> Result<(), AllocError> {
        self.strips.extend_from_slice(strips)
    }

    // A keyholder's film as a PBM file: its head and its rows. There is none before every row is made.
    fn file(&self, heap: Global, keyholder: u8) -> Result<Vec<u8>, Failure> {
        let mut file = film_rows(
            heap,
            &self.strips,
            self.keyholders,
            self.strip_size,
            self.height,
            keyholder,
        )?
        .ok_or(Failure::BrokenOff)?;
        // An array with its length beside: a head is written into a buffer of the caller's.
        let mut head = [0; LONGEST_HEAD];
        let long = pictures::head(&mut head, self.width, u32::from(self.height))?;
        // The head is turned from behind the rows to their front: before a copy of them, a film would be held twice.
        file.extend_from_slice(&head[..long])?;
        file.rotate_right(long);
        Ok(file)
    }
}

// The files of the films: PREFIX1.pbm, PREFIX2.pbm and so on, one for each keyholder.
#[derive(Clone, Copy)]
pub struct FilmFiles<'a> {
    pub prefix: &'a str,
    pub keyholders: u8,
    pub overwrite: Overwrite,
}

impl FilmFiles<'_> {
    fn name(&self, heap: Global, keyholder: u8) -> Result<String, AllocError> {
        let prefix = self.prefix;
        format!(in heap; "{prefix}{keyholder}.pbm")
    }

    // Refuses files that exist, unless they may be overwritten.
    pub fn check_new(&self, rt: &HostRuntime) -> Result<(), Failure> {
        for keyholder in 1..=self.keyholders {
            let name = self.name(rt.alloc(), keyholder)?;
            files::check_new(rt, name.as_str(), self.overwrite)?;
        }
        Ok(())
    }

    // Writes the films, and says which files they are.
    pub fn write(&self, rt: &HostRuntime, films: &Films) -> Result<(), Failure> {
        for keyholder in 1..=self.keyholders {
            let name = self.name(rt.alloc(), keyholder)?;
            let file = films.file(rt.alloc(), keyholder)?;
            files::write(rt, name.as_str(), &file, self.overwrite)?;
            println!(rt; "wrote {name}")?;
        }
        Ok(())
    }
}
