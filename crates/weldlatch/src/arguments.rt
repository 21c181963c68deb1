// Words of the command line: numbers, sets of keyholders, cards, and the option `--force`.
use crate::failure::Failure;
use crate::files::Overwrite;
use cards::{Card, CardKind};
use schemes::KeyholderSet;
use std::alloc::Global;

// A number in decimal digits. One that is too large for the type is the largest, which no rule allows.
pub fn number(word: &str) -> Option<u32> {
    if word.is_empty() || !word.bytes().all(|b| b.is_ascii_digit()) {
        return None;
    }
    Some(word.parse().unwrap_or(u32::MAX))
}

// A number of one byte, where too large a number is 255.
pub fn small_number(word: &str) -> Option<u8> {
    Some(u8::try_from(number(word)?).unwrap_or(u8::MAX))
}

// A number from 0 to 255.
pub fn byte(word: &str) -> Option<u8> {
    u8::try_from(number(word)?).ok()
}

// A set of keyholders, as `1,3`; nothing is the empty set. Keyholders above 8 are in no set.
pub fn keyholders(word: &str) -> Option<KeyholderSet> {
    let nobody = KeyholderSet::default();
    if word.is_empty() {
        return Some(nobody);
    }
    word.split(',')
        .try_fold(nobody, |set, part| set.with(small_number(part)?))
}

// The sets that the words name, in their order.
fn sets(heap: Global, words: &[String]) -> Result<Vec<KeyholderSet>, Failure> {
    words
        .iter()
        .map(|word| keyholders(word.as_str()).ok_or(Failure::NoSet))
        .try_collect(heap)
}

// The card that the words `all N`, `two N` and `sets N SET..` say, with the sets in the order of the words.
pub fn card(heap: Global, words: &[String]) -> Result<Card, Failure> {
    let [kind, n, rest @ ..] = words else {
        return Err(Failure::Usage);
    };
    let n = small_number(n.as_str()).ok_or(Failure::Usage)?;
    let kind = match (kind.as_str(), rest) {
        ("all", []) => CardKind::AllOf,
        ("two", []) => CardKind::TwoOf,
        ("sets", _) => CardKind::Sets,
        _ => return Err(Failure::Usage),
    };
    let sets = sets(heap, rest)?;
    Ok(Card { kind, n, sets })
}

// Whether the words begin with `--force`, and the other words.
pub fn overwrite(words: &[String]) -> (Overwrite, &[String]) {
    match words {
        [option, rest @ ..] if option.as_str() == "--force" => (Overwrite::Allowed, rest),
        _ => (Overwrite::Never, words),
    }
}
