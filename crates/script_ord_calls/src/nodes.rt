//! Entries with their neighbors in the list and in the tree, as the checks of a script see them.
use triple_arena::{PtrCore, PtrInxCore};

/// An entry: its key and its value, its neighbors in the list, its parent, its left and its right
/// child, and its rank.
#[derive(Clone, Copy)]
pub struct Node<I: PtrInxCore> {
    pub key: u64,
    pub value: u64,
    pub prev: Option<I>,
    pub next: Option<I>,
    pub parent: Option<I>,
    pub left: Option<I>,
    pub right: Option<I>,
    pub rank: u8,
}

/// What has such entries.
pub trait ShowsNodes<P: PtrCore> {
    /// How many entries there are.
    fn size(&self) -> u64;

    /// The index of the first one.
    fn start(&self) -> Option<P::Inx>;

    /// The index of the last one.
    fn end(&self) -> Option<P::Inx>;

    /// The entry at an index.
    fn node(&self, i: P::Inx) -> Option<Node<P::Inx>>;

    /// The pointer to it.
    fn ptr(&self, i: P::Inx) -> Option<P>;

    /// Whether no key is greater than the next one.
    fn ascends(&self) -> bool;
}
