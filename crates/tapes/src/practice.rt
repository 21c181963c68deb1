// The practice tape: an arithmetic run of bytes, for trials that anybody can repeat.
ghost use Rattle.std.specs.Prelude.{◌≡◌, ◌<◌};
ghost use Rattle.std.proofs.Common.{rules};
ghost use Rattle.std.proofs.lemmas.List.Elements.{All-map};
ghost use Rattle.std.proofs.lemmas.Nat.{mod_below};
ghost use Rattle.tapes.specs.Tapes.{arithmetic_run};

use crate::Tape;

// A tape of `count` bytes, each by `step` more than the one before it, around 256. Like every tape it cannot be copied.
#[derive(Drop)]
pub struct PracticeTape {
    byte: u8,
    step: u8,
    count: u32,
}

impl PracticeTape {
    // A tape on which `count` bytes wait: `byte` first, then each by `step` more, mod 256.
    pub fn new(byte: u8, step: u8, count: u32) -> Self
        ensures waits { ⟦<PracticeTape as Tape>⟧.bytes result ≡ arithmetic_run byte step count }
    {
        PracticeTape { byte, step, count }
    }
}

impl Tape for PracticeTape {
    ghost bytes = { λ t. arithmetic_run t.byte t.step t.count };

    ghost below = { λ t. All-map (λ b. b < 256) _ _ (λ k _ _. mod_below _ 256 (Prim.search rules)) };

    #[tactic(auto, using(crate::proofs::Runs::run_next))]
    fn next(&mut self) -> Option<u8> {
        self.count = self.count.checked_sub(1)?;
        let byte = self.byte;
        self.byte = byte.wrapping_add(self.step);
        Some(byte)
    }

    #[tactic(auto, using(crate::proofs::Runs::run_length))]
    fn waiting(&self) -> usize {
        self.count as usize
    }
}
