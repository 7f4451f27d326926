//! Where an insertion puts its link.
use triple_arena_ptr::PtrCore;

/// Where an insertion puts its link, by pointers of the type `P` or by indexes of the type `I`,
/// whose generation is not looked at.
#[derive(Clone, Copy, Debug, PartialEq, Eq, PartialOrd, Ord, Hash)]
pub enum InsertKind<P, I> {
    /// In a linear chain of its own.
    Disconnected,
    /// In a ring of its own.
    SingleLinkCyclic,
    /// After a link that has no next.
    ChainEnd(P),
    /// After the link at this index, which has no next.
    ChainEndInx(I),
    /// Before a link that has no previous one.
    ChainStart(P),
    /// Before the link at this index, which has no previous one.
    ChainStartInx(I),
    /// Directly after a link, between it and its next if it has one.
    NextTo(P),
    /// Directly after the link at this index, between it and its next if it has one.
    NextToInx(I),
    /// Directly before a link, between it and its previous one if it has one.
    PrevTo(P),
    /// Directly before the link at this index, between it and its previous one if it has one.
    PrevToInx(I),
    /// Between two links of which the second is the next of the first.
    AtInterlink(P, P),
    /// Between the links at two indexes, of which the second is the next of the first.
    AtInterlinkInx(I, I),
    /// Between a link that has no next and one that has no previous one. Between the end and the
    /// start of one linear chain it makes a ring.
    Bridge(P, P),
    /// Between the link at the first index, which has no next, and the one at the second, which has
    /// no previous one. Between the end and the start of one linear chain it makes a ring.
    BridgeInx(I, I),
}

/// Where an insertion puts its link.
pub type LinkInsertKind<P> = InsertKind<P, <P as PtrCore>::Inx>;
