// Whole films: the sets of keyholders that a run is checked through, and the rows of one film out of the strips of a run.
// It rests on the crates schemes and cumulative.
#![tactic(auto)]

mod minimal;
mod rows;

pub use minimal::minimal_sets;
pub use rows::film_rows;
