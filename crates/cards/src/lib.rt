// Cards: small files that name a scheme. Reading and writing them, and the scheme that a card names.
#![tactic(auto)]

mod card;
mod card_scheme;
mod faults;
mod opening;
mod reading;
mod rising;
#[cfg(test)]
mod tests;
mod writing;

pub use card::{Card, CardKind};
pub use card_scheme::CardScheme;
pub use faults::{CardFault, CardRefusal};
pub use opening::{open, scheme};
pub use reading::read;
pub use writing::write;
