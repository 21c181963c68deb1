// Examples of what the libraries answer. They stand in a crate of their own, so that a library is proved only once.
#![tactic(auto)]

#[cfg(test)]
mod scheme_tests;
