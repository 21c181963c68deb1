// The command `levels`: light, dark and squares of a set, or of every minimal qualified set.
use crate::failure::Failure;
use crate::{arguments, files};
use cards::CardScheme;
use films::minimal_sets;
use lightbox::{Contrast, contrast};
use schemes::KeyholderSet;

// The contrast of one set.
fn print_levels(rt: &HostRuntime, scheme: &CardScheme, set: KeyholderSet) -> Result<(), Failure> {
    let Contrast {
        light,
        dark,
        columns,
        ..
    } = contrast(scheme, set)?;
    println!(rt; "set {set}: light {light} dark {dark} of {columns} squares")?;
    Ok(())
}

// `levels CARD`, `levels CARD KEYHOLDERS`
pub fn run(rt: &HostRuntime, words: &[String]) -> Result<(), Failure> {
    let [card, rest @ ..] = words else {
        return Err(Failure::Usage);
    };
    let (_card, scheme) = files::open_card(rt, card.as_str())?;
    match rest {
        [] => {
            for set in minimal_sets(rt.alloc(), &scheme)?.iter() {
                print_levels(rt, &scheme, *set)?;
            }
            Ok(())
        }
        [word] => {
            let set = arguments::keyholders(word.as_str()).ok_or(Failure::NoSet)?;
            print_levels(rt, &scheme, set)
        }
        _ => Err(Failure::Usage),
    }
}
