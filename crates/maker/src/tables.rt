// The cells of a scheme's columns as bits, asked once for a row.
ghost use Rattle.std.specs.Prelude.{◌≡◌, cond};
ghost use Rattle.maker.specs.Filling.{cells_of, Table, Tabled};

use schemes::{Colour, MOST_COLUMNS, Scheme};

// A byte for each column, the cell of keyholder k + 1 at bit k. Its size is fixed, since a row call takes no memory.
type Cells = [u8; MOST_COLUMNS as usize];

// The cells of all columns, for a white pixel and for a black one.
#[derive(Clone, Copy)]
pub struct Tables {
    white: Cells,
    black: Cells,
}

impl Tables {
    // The tables of a scheme.
    pub fn new<S: Scheme>(scheme: &S) -> Tables
        ensures { Tabled (S.means scheme.now) result.white result.black }
    {
        Tables {
            white: cells_of(scheme, Colour::White),
            black: cells_of(scheme, Colour::Black),
        }
    }

    // The table for a pixel that is black, or white.
    pub fn for_pixel(&self, is_black: bool) -> &[u8]
        ensures { result.now ≡ cond is_black self.now.black self.now.white }
    {
        if is_black { &self.black } else { &self.white }
    }
}

// The cells of a column.
fn column_cells<S: Scheme>(scheme: &S, colour: Colour, column: u8) -> u8
    ensures { result ≡ cells_of (S.means scheme.now) colour column }
{
    (0..scheme.keyholders()).fold(0, |cells, k| {
        cells | u8::from(scheme.cell(colour, k + 1, column)) << k
    })
}

// The cells of all columns, for one colour.
fn cells_of<S: Scheme>(scheme: &S, colour: Colour) -> Cells
    ensures { Table (S.means scheme.now) colour result }
{
    let mut table = [0; MOST_COLUMNS as usize];
    let m = usize::from(scheme.columns());
    for (column, cells) in table[..m].iter_mut().enumerate() {
        *cells = column_cells(scheme, colour, column as u8);
    }
    table
}
