// The column orders of blocks, drawn digit by digit.
ghost use Rattle.std.specs.Prelude.{◌≡◌, ◌<◌, ◌≤◌, ◌∷◌, length, if◌then◌else◌, Some, slice_index};
ghost use Rattle.std.specs.List.{remove};
ghost use Rattle.tapes.specs.Drawing.{DrawnInPlace};
ghost use Rattle.tapes.specs.Orders.{columns, arranging};
ghost use Rattle.tapes.specs.Permutations.{Permutation, OneToOne};
ghost use Rattle.tapes.specs.Blocks.{outcome};

use crate::digits::BASE_MAX;
use crate::{Base, Tape, draw_digit};
use std::mem;

// The most columns of a block: its first digit has a base of so many.
const COLUMNS_MAX: usize = BASE_MAX as usize;

// Writes the columns 0, 1, 2 and so on, in rising order.
#[tactic(auto, using(crate::proofs::Counts::counting_more, std::proofs::lemmas::List::take_more_set))]
fn number_columns(order: &mut [u8])
    requires { length order.old ≤ 128 }
    ensures { order.new ≡ columns (length order.old) }
{
    for (column, place) in order.iter_mut().enumerate() {
        *place = column as u8;
    }
}

// The first value where the test holds, and else the second: small enough to become a select and no branch.
fn select(test: bool, a: u8, b: u8) -> u8
    ensures { result ≡ (if test then a else b) }
{
    if test { a } else { b }
}

// Brings the column at a place to the front. Every place is written, whatever the digit, so that no branch depends on it.
#[tactic(auto, using(crate::proofs::Forward::forward_all))]
fn bring_forward(remaining: &mut [u8], place: usize)
    requires { place < length remaining.old }
    ensures { remaining.new ≡ slice_index remaining.old place ∷ remove remaining.old place }
{
    let mut carried = remaining[place];
    for (k, column) in remaining.iter_mut().enumerate() {
        let moved = select(k <= place, carried, *column);
        carried = mem::replace(column, moved);
    }
}

// Arranges the columns by digits drawn from the tape.
#[tactic(auto, using(crate::proofs::Steps::arranging_short, crate::proofs::Spellings::drawn_below))]
fn arrange<T: Tape>(tape: &mut T, remaining: &mut [u8]) -> Option<()>
    requires { length remaining.old ≤ 128 }
    ensures { DrawnInPlace (arranging (length remaining.old) remaining.old (T.bytes tape.old)) result remaining.new (T.bytes tape.new) }
{
    if remaining.len() <= 1 {
        return Some(());
    }
    let base = Base::known(remaining.len() as u8);
    let place = draw_digit(tape, base)?;
    bring_forward(remaining, place as usize);
    arrange(tape, &mut remaining[1..])
}

// Draws the order of a block into a slice of one byte for each of its columns, 1 to 128.
// A slice of any other length is no block: `None`, no byte is taken, and the slice is unchanged.
// At the tape's end `None`, the tape is empty, and the slice is all 0.
#[tactic(auto, using(crate::proofs::Permutations::one_to_one))]
pub fn draw_order<T: Tape>(tape: &mut T, order: &mut [u8]) -> Option<()>
    ensures answers { result ≡ (outcome order.old (T.bytes tape.old)).answer }
    ensures slice { order.new ≡ (outcome order.old (T.bytes tape.old)).slice }
    ensures leaves { T.bytes tape.new ≡ (outcome order.old (T.bytes tape.old)).waiting }
    ensures permutation { result ≡ Some tt → Permutation (length order.old) order.new }
    ensures bijection { OneToOne (length order.old) }
{
    if !(1..=COLUMNS_MAX).contains(&order.len()) {
        return None;
    }
    number_columns(order);
    let drawn = arrange(tape, order);
    if drawn.is_none() {
        order.fill(0);
    }
    drawn
}
