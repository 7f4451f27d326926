//! Tests that no script can make: links, kinds and pairs as values, with their texts, comparisons
//! and hashes; what becomes of values that have a `Drop`; arenas of strings, keys whose order
//! falls, a direct arena that learns new pointers, and two values that are borrowed at once.
//!
//! Other tests over arenas stand in `checks/layer-tests`, and run beside the gate.
#![tactic(auto)]

#[cfg(test)]
mod tests;
