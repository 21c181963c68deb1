// Opening a picture file, and its rows. It rests on the readers of the parts.
ghost use Rattle.std.specs.Prelude.{◌≡◌, ℕ, ◌^◌, ◌<◌, ◌≤◌, IsOk, IfOk, IfErr, Some, None, MatchResult};
ghost use Rattle.pictures.specs.declared.refusals.PictureRefusal.TheVariants.{NoSuchRow};
ghost use Rattle.pictures.specs.Rows.{row_bytes, RowsFit, row_of, EveryRow};
ghost use Rattle.pictures.specs.Format.{Only, NoPicture};
ghost use Rattle.pictures.specs.Reading.{got, fault, opened, FaultAt};
ghost use Rattle.pictures.specs.FirstFault.{FirstFault, Whole};

use crate::parts::{FILE_END, Stop, read_number, skip_gap, skip_magic, skip_white};
use crate::refusals::{PictureFault, PictureRefusal};

/// A picture file that was opened. Its sides are from 1 to 4096, and its rows are a part of the file, with all of their bytes.
#[derive(Clone, Copy)]
pub struct Picture<'a> {
    width: u32,
    height: u32,
    rows: &'a [u8],
    pub ghost width_within: { (1 ≤ width) × (width ≤ 4096) },
    pub ghost height_within: { (1 ≤ height) × (height ≤ 4096) },
    pub ghost whole: { RowsFit width height rows.now },
}

/// The bytes of a row of `w` points.
fn row_bytes(w: u32) -> usize
    ensures is { result ≡ row_bytes w }
    ensures bound { result ≤ 2 ^ 29 }
{
    w.div_ceil(8) as usize
}

impl<'a> Picture<'a> {
    /// The points of a row, from 1 to 4096.
    pub fn width(&self) -> u32
        ensures is { result ≡ self.now.width }
        ensures within { (1 ≤ result) × (result ≤ 4096) }
    {
        self.width
    }

    /// The number of rows, from 1 to 4096.
    pub fn height(&self) -> u32
        ensures is { result ≡ self.now.height }
        ensures within { (1 ≤ result) × (result ≤ 4096) }
    {
        self.height
    }

    /// The bytes of all rows, from the first to the last.
    pub fn rows(&self) -> &'a [u8]
        ensures is { result.now ≡ self.now.rows.now }
    {
        self.rows
    }

    /// Row `y`, from 0, as a part of the file: the width divided by 8 and rounded up in bytes, highest bit first, 1 for black.
    /// Every row below the height is there; from the height on `NoSuchRow` is answered, at place 0.
    pub fn row(&self, y: u32) -> Result<&'a [u8], PictureFault>
        ensures answers { MatchResult result (λ s. row_of self.now.width self.now.height self.now.rows.now y ≡ Some s.now) (λ _. row_of self.now.width self.now.height self.now.rows.now y ≡ None) }
        ensures there { y < self.now.height → IsOk result }
        ensures refuses { IfErr result (λ e. (e.refusal ≡ NoSuchRow) × (e.place ≡ 0)) }
    {
        if y >= self.height {
            return Err(PictureFault {
                refusal: PictureRefusal::NoSuchRow,
                place: 0,
            });
        }
        let size = row_bytes(self.width);
        let from = y as usize * size;
        Ok(&self.rows[from..from + size])
    }
}

/// Opens a picture file: its width, its height and its rows, which stay where they are in the file. Nothing is copied, and the time
/// does not grow with the rows.
/// Else the first fault from the front is answered, with the number of bytes before it: `WrongMagic` at 0, `WrongByte` at that byte,
/// `NumberOutside` at the number's first digit, `EndsEarly` at the file's end, or `BytesAfterRows` at the first of them.
pub fn open(file: &[u8]) -> Result<Picture<'_>, PictureFault>
    ensures answers { MatchResult result (λ p. opened file.now ≡ got (p.width, p.height) p.rows.now) (λ e. FaultAt file.now e.refusal e.place) }
    ensures grammar { MatchResult result (λ p. Only file.now p.width p.height p.rows.now) (λ _. NoPicture file.now) }
    ensures first_fault { MatchResult result (λ _. Whole file.now) (λ e. FirstFault file.now e.refusal e.place) }
    ensures every_row { IfOk result (λ p. EveryRow p.width p.height p.rows.now) }
{
    read_picture(file).map_err(|stop| PictureFault {
        refusal: stop.refusal,
        place: file.len() - stop.rest.len(),
    })
}

/// The parts one after another, as far as they go.
fn read_picture(file: &[u8]) -> Result<Picture<'_>, Stop<'_>>
    ensures { MatchResult result (λ p. opened file.now ≡ got (p.width, p.height) p.rows.now) (λ e. opened file.now ≡ fault e.refusal e.rest.now) }
{
    let rest = skip_magic(file)?;
    let rest = skip_gap(rest)?;
    let (width, rest) = read_number(rest)?;
    let rest = skip_gap(rest)?;
    let (height, rest) = read_number(rest)?;
    let rows = skip_white(rest)?;
    let size = height as usize * row_bytes(width);
    if rows.len() < size {
        return Err(FILE_END);
    }
    if rows.len() > size {
        return Err(Stop {
            refusal: PictureRefusal::BytesAfterRows,
            rest: &rows[size..],
        });
    }
    Ok(Picture {
        width,
        height,
        rows,
    })
}
