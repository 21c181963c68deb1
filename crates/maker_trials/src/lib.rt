// Trials of the maker: the worked row, every refusal, and a whole run.
#![tactic(auto)]

#[cfg(test)]
mod tests;
