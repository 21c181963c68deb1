// The command `scheme`: a scheme with its films and levels.
use crate::failure::Failure;
use crate::report::Report;
use crate::{arguments, files};
use cards::CardScheme;

// The scheme that the words name: `all N`, `two N`, `sets N SET..`, or a card file.
fn named(rt: &HostRuntime, words: &[String]) -> Result<CardScheme, Failure> {
    let [file] = words else {
        let card = arguments::card(rt.alloc(), words)?;
        return Ok(cards::scheme(rt.alloc(), &card)?);
    };
    let (_card, scheme) = files::open_card(rt, file.as_str())?;
    Ok(scheme)
}

pub fn run(rt: &HostRuntime, words: &[String]) -> Result<(), Failure> {
    let scheme = named(rt, words)?;
    print!(rt; "{}", Report(&scheme))?;
    Ok(())
}
