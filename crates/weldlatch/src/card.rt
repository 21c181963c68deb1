// The command `card`: writes a card file.
use crate::failure::Failure;
use crate::{arguments, files};

// `card [--force] OUT all N`, and so on. A card has its sets in rising order, however they are given.
pub fn run(rt: &HostRuntime, words: &[String]) -> Result<(), Failure> {
    let (overwrite, words) = arguments::overwrite(words);
    let [out, rest @ ..] = words else {
        return Err(Failure::Usage);
    };
    let mut card = arguments::card(rt.alloc(), rest)?;
    card.sets.sort_unstable();
    let bytes = cards::write(rt.alloc(), &card)?;
    files::write(rt, out.as_str(), &bytes, overwrite)
}
