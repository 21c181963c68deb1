// Tapes of noise, and what is drawn from them: digits, and the column orders of blocks. Rests on the standard library only.
#![tactic(auto)]

mod digits;
mod noise;
mod orders;
mod practice;

ghost use Rattle.std.specs.Prelude.{◌≡◌, ℕ, ◌<◌, List, [], ◌∷◌, length, MatchOption};
ghost use Rattle.std.specs.List.{All};

pub use digits::{Base, draw_digit};
pub use noise::NoiseTape;
pub use orders::draw_order;
pub use practice::PracticeTape;

// A tape gives byte after byte, each once. All that draws is generic over it.
pub trait Tape {
    // The bytes that still wait, the next one first.
    ghost bytes: { Self → List ℕ };

    // Takes the first byte that waits. Where none waits, `None`, and the tape stays empty.
    fn next(&mut self) -> Option<u8>
        ensures takes { MatchOption result ((bytes self.old ≡ []) × (bytes self.new ≡ [])) (λ b. bytes self.old ≡ b ∷ bytes self.new) };

    // How many bytes wait. Takes none.
    fn waiting(&self) -> usize
        ensures counts { result ≡ length (bytes self.now) };

    ghost below: { (t : Self) → All (λ b. b < 256) (bytes t) };
}

#[cfg(test)]
mod tests;
