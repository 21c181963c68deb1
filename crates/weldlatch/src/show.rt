// The command `show`: a picture in the terminal, two rows to a line, or as plain zeros and ones.
ghost use Rattle.std.specs.Prelude.{◌≤◌};

use crate::failure::Failure;
use crate::files;
use pictures::{Picture, PictureFault};
use schemes::{bit_at, bytes_for};
use std::alloc::{AllocError, Global};

// A line has at most so many characters; a wider picture is scaled down.
const LINE: u32 = 160;

// Whether at least half of the pixels are black in the square of `scale` by `scale` pixels at (x, y).
fn is_dark(picture: &Picture<'_>, scale: u32, x: u32, y: u32) -> Result<bool, PictureFault> {
    let right = x.saturating_add(scale).min(picture.width());
    let below = y.saturating_add(scale).min(picture.height());
    let all = (x..right).len().saturating_mul((y..below).len());
    let black = (y..below).try_fold(0usize, |black, row| -> Result<usize, PictureFault> {
        let bits = picture.row(row)?;
        let more = (x..right).filter(|c| bit_at(bits, *c as usize)).count();
        Ok(black.saturating_add(more))
    })?;
    Ok(black > 0 && black.saturating_mul(2) >= all)
}

// One line of the drawing: two rows of squares.
fn line(heap: Global, picture: &Picture<'_>, scale: u32, y: u32) -> Result<String, Failure>
    requires { 1 ≤ scale }
{
    let below = y.saturating_add(scale);
    (0..picture.width())
        .step_by(scale as usize)
        .map(|x| -> Result<char, Failure> {
            let upper = is_dark(picture, scale, x, y)?;
            let lower = is_dark(picture, scale, x, below)?;
            Ok(match (upper, lower) {
                (true, true) => '█',
                (true, false) => '▀',
                (false, true) => '▄',
                (false, false) => ' ',
            })
        })
        .try_collect(heap)
}

fn draw(rt: &HostRuntime, file: &[u8]) -> Result<(), Failure> {
    let picture = pictures::open(file)?;
    let scale = picture.width().div_ceil(LINE).max(1);
    // By number: a line is two rows of squares, and begins at the number of its first row.
    for y in (0..picture.height()).step_by(scale.saturating_mul(2) as usize) {
        println!(rt; "{}", line(rt.alloc(), &picture, scale, y)?)?;
    }
    Ok(())
}

// A row as zeros and ones, 1 for black.
fn plain_row(heap: Global, bits: &[u8], width: u32) -> Result<String, AllocError> {
    (0..width)
        .map(|column| if bit_at(bits, column as usize) {
            '1'
        } else {
            '0'
        })
        .collect(heap)
}

fn print_plain(rt: &HostRuntime, file: &[u8]) -> Result<(), Failure> {
    let picture = pictures::open(file)?;
    let width = picture.width();
    let height = picture.height();
    println!(rt; "{width} {height}")?;
    for bits in picture.rows().chunks_exact(bytes_for(width as usize)) {
        println!(rt; "{}", plain_row(rt.alloc(), bits, width)?)?;
    }
    Ok(())
}

// `show PICTURE`, `show --plain PICTURE`
pub fn run(rt: &HostRuntime, words: &[String]) -> Result<(), Failure> {
    match words {
        [name] => draw(rt, &files::read(rt, name.as_str())?),
        [option, name] if option.as_str() == "--plain" => {
            print_plain(rt, &files::read(rt, name.as_str())?)
        }
        _ => Err(Failure::Usage),
    }
}
