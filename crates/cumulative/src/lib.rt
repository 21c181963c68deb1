// The cumulative scheme: the owners list the minimal sets of keyholders who may open together. Rests on the crate of
// schemes, whose scheme all of n gives its table.
#![tactic(auto)]

mod access;
mod cumulative;
mod lists;
mod records;

pub use cumulative::Cumulative;
pub use records::KeyholderRecord;

#[cfg(test)]
mod tests;
