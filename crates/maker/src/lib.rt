// The maker: makes the films of a page, row by row. Cells come from a scheme, column orders from a tape.
#![tactic(auto)]

mod films;
mod maker;
mod plays;
mod refusals;
mod runs;
mod tables;
mod work_strip;

pub use maker::Maker;
pub use plays::{Call, Reply, RunLog, Unplayed, play};
pub use refusals::{RowRefusal, SpoilRefusal};
pub use runs::{Closed, MOST_ROWS, Tally};
