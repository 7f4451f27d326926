//! The store and the line language as a user runs them: what the clauses say in general, at given
//! lines, and what no clause says.
#![tactic(auto)]

#[cfg(test)]
mod tests;
