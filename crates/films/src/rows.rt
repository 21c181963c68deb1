// The rows of one film, out of the strips of all films. Rests on nothing.
ghost use Rattle.std.specs.Prelude.{◌≡◌, true, false, IfOk, MatchOption};
ghost use Rattle.films.specs.FilmRows.{has_film, film_of};

use std::alloc::{AllocError, Global};

// The rows of a keyholder's film, one after another. The strips are those of `height` rows; each row has the strips of
// keyholders 1 to n, of `size` bytes, one after another. None where there are fewer strips, or no such keyholder.
pub fn film_rows(
    heap: Global,
    strips: &[u8],
    n: u8,
    size: u32,
    height: u16,
    keyholder: u8,
) -> Result<Option<Vec<u8>>, AllocError>
    ensures { IfOk result (λ film. MatchOption film (has_film n size strips.now keyholder height ≡ false) (λ rows. (has_film n size strips.now keyholder height ≡ true) × (rows.items ≡ film_of n size strips.now keyholder height))) }
{
    let size = size as usize;
    let row = n as usize * size;
    let all = height as usize * row;
    if !(1..=n).contains(&keyholder) || all > strips.len() {
        return Ok(None);
    }
    let first = (keyholder - 1) as usize * size;
    let mut rows = Vec::new(heap);
    // A count of rows, and not chunks of the strips: a row may have no bytes, and then there is no chunk of its size.
    for y in 0..height as usize {
        let start = y * row + first;
        rows.extend_from_slice(&strips[start..start + size])?;
    }
    Ok(Some(rows))
}
