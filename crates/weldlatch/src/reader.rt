// Reading rows back.
use crate::failure::Failure;
use cards::CardScheme;
use films::minimal_sets;
use readback::read_back;
use schemes::{KeyholderSet, Scheme, bit_at, bytes_for, strip_size};
use std::alloc::{AllocError, Global};

// Whether two rows have the same pixels.
fn same_pixels(a: &[u8], b: &[u8], width: u32) -> bool {
    (0..width as usize).all(|c| bit_at(a, c) == bit_at(b, c))
}

// Reads rows back: a scheme, its minimal qualified sets, a glass, and the row that is read from it.
#[derive(Drop)]
pub struct Reader {
    pub scheme: CardScheme,
    pub sets: Vec<KeyholderSet>,
    pub width: u32,
    glass: Vec<u8>,
    row: Vec<u8>,
}

impl Reader {
    pub fn new(heap: Global, scheme: CardScheme, width: u32) -> Result<Reader, AllocError> {
        let sets = minimal_sets(heap, &scheme)?;
        let glass = vec![in heap; 0; strip_size(scheme.columns(), width)]?;
        let row = vec![in heap; 0; bytes_for(width as usize)]?;
        Ok(Reader {
            scheme,
            sets,
            width,
            glass,
            row,
        })
    }

    // Reads the strips of a row through every minimal qualified set, and compares what is read with the secret row.
    pub fn check_row(&mut self, secret: &[u8], strips: &[u8]) -> Result<(), Failure> {
        for set in self.sets.iter() {
            let answer = read_back(
                &self.scheme,
                *set,
                self.width,
                strips,
                &mut self.glass,
                &mut self.row,
            );
            if answer.is_err() || !same_pixels(&self.row, secret, self.width) {
                return Err(Failure::NotReadBack(*set));
            }
        }
        Ok(())
    }
}
