// The light box: strips are laid on a glass, and what the stack shows is read from it. Rests on the crate `schemes`.
#![tactic(auto)]

mod contrasts;
mod counting;
mod laying;
mod reading;
mod refusals;
mod seen;

pub use contrasts::contrast;
pub use laying::lay;
pub use reading::{admit, check_reading, read};
pub use refusals::{ContrastRefusal, LayRefusal, ReadRefusal};
pub use seen::Contrast;

#[cfg(test)]
mod tests;
