// The maker's own state. Rests on nothing.
ghost use Rattle.std.specs.Prelude.{◌≤◌};

// Makes the films of one page, row by row. It owns its scheme and its tape, so that no other maker draws from the same bytes.
#[derive(Drop)]
pub struct Maker<S, T> {
    pub(crate) scheme: S,
    pub(crate) tape: T,
    pub(crate) width: u32,
    pub(crate) height: u32,
    // Rows made, and rows spoiled.
    pub(crate) made: u32,
    pub(crate) spoiled: u16,
    // How many bytes waited on the tape when the maker was made.
    pub(crate) supply: usize,
    ghost within: { made ≤ height },
}
