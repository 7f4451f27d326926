//! What a line asks of a store.
use crate::word::Word;

/// What a line asks of a store: one variant for each form of line.
#[derive(Debug, PartialEq, Eq, Drop)]
pub enum Command {
    /// `place K W`: a place with this key and word, behind all that have the key. With `near T`
    /// behind it, the search begins at the place T.
    Place {
        key: u64,
        word: Word,
        near: Option<u64>,
    },
    /// `word T W`: another word for a place.
    Word {
        ticket: u64,
        word: Word,
    },
    /// `show T`: what stands under a ticket.
    Show {
        ticket: u64,
    },
    /// `find K`: the ticket of the first place with this key.
    Find {
        key: u64,
    },
    /// `floor K`: the ticket of the last place whose key is not above this one.
    Floor {
        key: u64,
    },
    /// `after T`: the ticket of the next place in the order of the keys.
    After {
        ticket: u64,
    },
    /// `before T`: the ticket of the place before this one in the order of the keys.
    Before {
        ticket: u64,
    },
    /// `all`: every place in the order of the keys.
    All,
    /// `remove T`: the place, stop or mark of the ticket ends.
    Remove {
        ticket: u64,
    },
    /// `start P`: a stop at this place, alone on a linear route.
    Start {
        place: u64,
    },
    /// `extend S P`: directly behind this stop, a stop at this place.
    Extend {
        stop: u64,
        place: u64,
    },
    /// `join S U`: the second stop follows the first.
    Join {
        stop: u64,
        next: u64,
    },
    /// `cut S`: no stop follows this one.
    Cut {
        stop: u64,
    },
    /// `swap S U`: the two stops exchange the stops that follow them.
    Swap {
        stop: u64,
        other: u64,
    },
    /// `walk S`: the stops of the route, from this one on.
    Walk {
        stop: u64,
    },
    /// `mark P S`: a mark of this place and this stop.
    Mark {
        place: u64,
        stop: u64,
    },
    /// `pack`: references to what has ended are swept, and what lives moves to the front of its
    /// arena.
    Pack,
}
