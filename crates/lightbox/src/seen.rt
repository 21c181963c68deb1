// What a set of keyholders sees of a pixel. Rests on nothing.
ghost use Rattle.std.specs.Prelude.{◌≡◌};
ghost use Rattle.lightbox.specs.Contrasts.{colour_seen, Distinct};

use schemes::Colour;

// What a qualified set sees of a pixel: light black squares over a white one and dark over a black one, out of its columns.
// Light is below dark, and dark at most the number of columns.
#[derive(Clone, Copy, PartialEq, Eq, Debug)]
pub struct Contrast {
    pub light: u8,
    pub dark: u8,
    pub columns: u8,
    pub ghost distinct: { Distinct (light, dark, columns) },
}

impl Contrast {
    // The colour of a pixel with so many black squares; none where the count is neither light nor dark.
    pub(crate) fn colour_of(self, blacks: u8) -> Option<Colour>
        ensures { result ≡ colour_seen self.light self.dark blacks }
    {
        // Dark first: the loop over a row's pixels then has fewer tests, by a tenth of a run where blocks have one column.
        if blacks == self.dark {
            return Some(Colour::Black);
        }
        if blacks == self.light {
            return Some(Colour::White);
        }
        None
    }
}
