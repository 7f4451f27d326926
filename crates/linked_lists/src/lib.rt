//! The theory of doubly linked lists: definitions and laws over a function from an index to its two
//! neighbors, which has a value where the index is live. It knows no arena, and has no code.
#![tactic(auto)]
