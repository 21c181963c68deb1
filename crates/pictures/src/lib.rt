// Picture files in the raw PBM format: opening one, its rows as parts of the file, and the head of a file that is to be written.
// It rests on the standard library, and on `itoa` for numbers as text.
#![tactic(auto)]

mod heads;
mod parts;
mod pictures;
mod refusals;

pub use heads::head;
pub use pictures::{Picture, open};
pub use refusals::{HeadRefusal, PictureFault, PictureRefusal};

#[cfg(test)]
mod tests;
