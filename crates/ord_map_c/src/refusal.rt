//! Why a call did nothing.
ghost use Rattle.std.specs.Prelude.{◌≡◌};
ghost use Rattle.ord_map_c.specs.State.{status_of};

/// Why a call of an ordered map did nothing.
#[derive(Clone, Copy, Drop)]
pub enum Refusal {
    /// The memory was refused.
    NoMemory,
    /// More entries are asked for than there are indexes.
    Full,
    /// No generation is left.
    Spent,
    /// The handle finds no entry.
    NotFound,
    /// There is no such entry.
    NoEntry,
}

impl Refusal {
    // The status that an export answers for it.
    pub(crate) fn status(self) -> u8
        ensures { result ≡ status_of self }
    {
        match self {
            Refusal::NoMemory => 1,
            Refusal::Full => 2,
            Refusal::Spent => 3,
            Refusal::NotFound => 4,
            Refusal::NoEntry => 7,
        }
    }
}
