// The noise tape: bytes that were handed in.
ghost use Rattle.std.specs.Prelude.{◌≡◌, ◌<◌};
ghost use Rattle.std.specs.List.{All};
ghost use Rattle.std.specs.Vec.Iter.{into_iter_items};

use crate::Tape;
use std::vec::IntoIter;

// A tape of bytes that were handed in. It owns them and cannot be copied, so that no byte is given twice.
#[derive(Drop)]
pub struct NoiseTape {
    rest: IntoIter<u8>,
    ghost below: { All (λ b. b < 256) (into_iter_items rest) },
}

impl NoiseTape {
    // A tape on which exactly these bytes wait, in their order.
    pub fn new(noise: Vec<u8>) -> Self
        ensures waits { ⟦<NoiseTape as Tape>⟧.bytes result ≡ noise.items }
    {
        NoiseTape {
            rest: noise.into_iter(),
        }
    }
}

impl Tape for NoiseTape {
    ghost bytes = { λ t. into_iter_items t.rest };

    ghost below = { λ t. t.below };

    fn next(&mut self) -> Option<u8> {
        self.rest.next()
    }

    fn waiting(&self) -> usize {
        self.rest.len()
    }
}
