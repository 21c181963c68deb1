// Schemes of visual secret sharing: sets of keyholders, the interface `Scheme` with its laws, the schemes all of n and two
// of n, rows of bits packed into bytes, and the sizes of strips.
#![tactic(auto)]

mod all_of;
mod bits;
mod colour;
mod keyholders;
mod levels;
mod packed_rows;
mod refusals;
mod scheme;
mod strips;
mod two_of;

pub use all_of::AllOf;
pub use colour::Colour;
pub use keyholders::{KeyholderSet, MOST_KEYHOLDERS, check_keyholders};
pub use levels::{Levels, levels_of};
pub use packed_rows::{bit_at, bytes_for, set_bit};
pub use refusals::SchemeRefusal;
pub use scheme::{MOST_COLUMNS, Scheme};
pub use strips::{MOST_PIXELS, MOST_SQUARES, strip_size, strip_squares};
pub use two_of::TwoOf;
