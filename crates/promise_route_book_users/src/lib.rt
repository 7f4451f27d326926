//! What callers of the store prove by the clauses of its calls, and by lemmas on its model: a
//! dispatcher, who knows the route that it made; a service that packs whenever it likes, and
//! answers as if it never did; one who removes a place to which stops still have references; one
//! whose places come in the order of their keys; one with places of one key; and those who move a
//! store to other pointers, stacks and rooms, one of them as it is full.
#![tactic(auto)]

pub mod dispatching;
pub mod moving;
pub mod packing;
pub mod placing;
pub mod removing;
pub mod same_key;
