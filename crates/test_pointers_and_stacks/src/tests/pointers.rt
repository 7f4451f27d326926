//! What no clause says, and what a caller may rely on.
mod calls;
mod edges;
mod laws;
mod texts;
