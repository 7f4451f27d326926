//! What `show` answers.
use crate::word::Word;

/// What stands under a ticket. A reference is the ticket of a living item, or `None` if that item
/// is gone.
#[derive(Debug, PartialEq, Eq, Drop)]
pub enum Shown {
    /// A place, with its key and its word.
    Place {
        key: u64,
        word: Word,
    },
    /// A stop of a route, with the place that it stands for.
    Stop {
        place: Option<u64>,
    },
    /// A mark, with the place and the stop that it names.
    Mark {
        place: Option<u64>,
        stop: Option<u64>,
    },
}
