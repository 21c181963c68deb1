// One row of the maker for a caller in another language, and a tape that costs next to nothing, to time a row by.
#![tactic(auto)]

ghost use Rattle.std.specs.Prelude.{◌≡◌, ◌≤◌};
ghost use Rattle.schemes.specs.AllOf.{all_of};
ghost use Rattle.maker.specs.Runs.{fresh, outcome, row as row_call};
ghost use Rattle.timing.specs.Generated.{generated};
ghost use Rattle.timing.specs.Generating.{generated_below};

use maker::Maker;
use schemes::AllOf;
use tapes::Tape;

// Bytes of a linear congruential generator: like noise to a branch predictor, and no noise at all to anybody else.
#[derive(Drop)]
pub struct GeneratedTape {
    state: u32,
    count: u32,
}

impl Tape for GeneratedTape {
    ghost bytes = { λ t. generated t.state t.count };

    ghost below = { λ t. generated_below t.state t.count };

    fn next(&mut self) -> Option<u8> {
        self.count = self.count.checked_sub(1)?;
        let byte = ((self.state >> 24) % 256) as u8;
        self.state = self.state.wrapping_mul(1664525).wrapping_add(1013904223);
        Some(byte)
    }

    #[tactic(auto, using(crate::specs::Generating::generated_length))]
    fn waiting(&self) -> usize {
        self.count as usize
    }
}

// Makes one row of all of n, on a tape of so many bytes from this state. Answers 0, or the number of the refusal.
#[unsafe(no_mangle)]
pub extern "C" fn weldlatch_row(
    n: u8,
    state: u32,
    count: u32,
    width: u32,
    secret: &[u8],
    out: &mut [u8],
    work: &mut [u8],
) -> u8
    ensures output { 1 ≤ n → n ≤ 8 → out.new ≡ (outcome (all_of n) width 1 (fresh (generated state count)) (row_call secret.now out.old work.old)).out }
{
    // By a match: the C interface answers a number.
    let scheme = match AllOf::new(n) {
        Ok(scheme) => scheme,
        Err(why) => return why.number(),
    };
    let tape = GeneratedTape { state, count };
    match Maker::new(scheme, tape, width, 1).row(secret, out, work) {
        Ok(_) => 0,
        Err(why) => why.number(),
    }
}
