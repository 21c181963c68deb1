// The colours of a picture. Rests on nothing.

// The colour of a pixel.
#[derive(Clone, Copy, PartialEq, Eq, Debug)]
pub enum Colour {
    White,
    Black,
}
