//! Pointers and stacks at concrete types: what the clauses say in general, seen at each pointer
//! type and each stack, and what no clause says.
#![tactic(auto)]

#[cfg(test)]
mod tests;
