// Why the program ends with status 1, and what it then says.
use crate::usage;
use cards::CardFault;
use lightbox::ContrastRefusal;
use maker::RowRefusal;
use pictures::{HeadRefusal, PictureFault};
use schemes::KeyholderSet;
use std::alloc::AllocError;
use std::io;
use thiserror::Error;

#[derive(Debug, Drop, Error)]
pub enum Failure {
    // The words are not a command.
    #[error("{text}", text = usage::TEXT)]
    Usage,
    // The number of columns is not that of a block.
    #[error("weldlatch: a block has 1 to 128 columns")]
    NoBlock,
    // A word is no set of keyholders.
    #[error("weldlatch: a set is written as 1,3, of keyholders 1 to 8")]
    NoSet,
    // A card was not read or not written, or a scheme was not made.
    #[error("weldlatch: {0}")]
    Card(#[from] CardFault),
    // A picture was not opened.
    #[error("weldlatch: {0}")]
    Picture(#[from] PictureFault),
    // The head of a film was not written.
    #[error("weldlatch: {0}")]
    Head(#[from] HeadRefusal),
    // A set has no contrast.
    #[error("weldlatch: {0}")]
    Contrast(#[from] ContrastRefusal),
    // A row was not made: why, which row, and of how many bytes the tape was.
    #[error("weldlatch: {why} (row {row}, a tape of {supply} bytes)")]
    Row {
        why: RowRefusal,
        row: u32,
        supply: usize,
    },
    // A row did not read back through this set.
    #[error("weldlatch: a row did not read back through the set {0}")]
    NotReadBack(KeyholderSet),
    // The run ended before every row was made.
    #[error("weldlatch: the run ended before every row was made")]
    BrokenOff,
    // A file of this name exists.
    #[error("weldlatch: {0} exists; --force overwrites it")]
    Exists(String),
    // A file of this name failed.
    #[error("weldlatch: {0}: {1}")]
    File(String, io::Error),
    // Standard input or output, or an argument, failed.
    #[error("weldlatch: {0}")]
    Io(#[from] io::Error),
    // There is no memory left.
    #[error("weldlatch: no memory left")]
    Memory(#[from(alloc)] AllocError),
}
