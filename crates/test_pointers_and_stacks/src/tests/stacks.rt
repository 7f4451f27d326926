//! What no clause says: that memory is had if there is some, at every size; and each generic
//! call at each stack.
mod capacities;
mod generic;
mod refusals;
mod sizes;
