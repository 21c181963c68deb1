// The command `order`: the column order that bytes spell.
use crate::arguments;
use crate::failure::Failure;
use crate::text::Words;
use schemes::MOST_COLUMNS;
use std::alloc::Global;
use tapes::{NoiseTape, Tape, draw_order};

// The bytes that the words name.
// A chain as in `arguments`: a function of both would take what reads a word and what fails where it does not.
fn bytes_of(heap: Global, words: &[String]) -> Result<Vec<u8>, Failure> {
    words
        .iter()
        .map(|word| arguments::byte(word.as_str()).ok_or(Failure::Usage))
        .try_collect(heap)
}

// `order M BYTE..`
pub fn run(rt: &HostRuntime, words: &[String]) -> Result<(), Failure> {
    let [columns, bytes @ ..] = words else {
        return Err(Failure::Usage);
    };
    let columns = arguments::small_number(columns.as_str()).ok_or(Failure::Usage)?;
    if !(1..=MOST_COLUMNS).contains(&columns) {
        return Err(Failure::NoBlock);
    }
    let mut tape = NoiseTape::new(bytes_of(rt.alloc(), bytes)?);
    let all = tape.waiting();
    let mut order = vec![in rt.alloc(); 0; usize::from(columns)]?;
    match draw_order(&mut tape, &mut order) {
        Some(()) => println!(rt; "order{}", Words(&order))?,
        None => println!(rt; "the tape ended before the order of {columns} columns was drawn")?,
    }
    let taken = all.saturating_sub(tape.waiting());
    println!(rt; "bytes taken {taken} of {all}")?;
    Ok(())
}
