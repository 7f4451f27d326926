//! How many comparisons a call made, held against how many it may make.

/// Numbers that count their comparisons, all in one place.
pub trait Counting: Copy {
    /// The number.
    fn n(&self) -> u64;

    /// Another number, which counts in the same place.
    fn with(&self, n: u64) -> Self;

    /// How many comparisons there were.
    fn count(&self) -> u64;
}

/// What is told of the comparisons of a call. A number is told if the rules fix it, and if it is
/// too great.
#[derive(Clone, Copy, Debug, PartialEq, Eq)]
pub enum Work {
    /// There was none.
    Nothing,
    /// There were no more than there may be.
    Within,
    /// There were so many, along the list alone.
    Along(u64),
    /// There were more, or the call counted another number of them than the keys did.
    Past {
        ticks: u64,
        comparisons: u64,
        most: u64,
    },
}

/// The greatest number c with `2^(c+1) <= (n+1)^2`: a search among n entries makes no more
/// comparisons.
pub fn most(n: u64) -> u64 {
    let side = n.saturating_add(1);
    let square = side.saturating_mul(side);
    let mut c: u64 = 0;
    let mut power: u64 = 4;
    for _ in 0..61 {
        if power <= square {
            c = c.saturating_add(1);
            power = power.saturating_mul(2);
        }
    }
    c
}

/// How many comparisons a call may make: along the list first, and then from the root.
#[derive(Clone, Copy)]
pub struct Limit {
    pub along: u64,
    pub most: u64,
    /// Whether the list alone says how many they are, where those along it were enough.
    pub is_exact: bool,
}

impl Limit {
    /// That of a call that begins at the root, among so many entries.
    pub fn from_root(size: u64) -> Self {
        Limit {
            along: 0,
            most: most(size),
            is_exact: false,
        }
    }

    /// That of a call that compares no keys.
    pub fn none() -> Self {
        Limit {
            along: 0,
            most: 0,
            is_exact: false,
        }
    }

    /// What is told of so many ticks of a call, and of so many comparisons that the keys counted.
    pub fn held(&self, ticks: u64, comparisons: u64) -> Work {
        let most = self.most.saturating_add(self.along);
        if ticks != comparisons || most < ticks {
            Work::Past {
                ticks,
                comparisons,
                most,
            }
        } else if ticks == 0 {
            Work::Nothing
        } else if self.is_exact && ticks <= self.along {
            Work::Along(ticks)
        } else {
            Work::Within
        }
    }
}

/// The comparisons from a moment on.
#[derive(Clone, Copy)]
pub struct Since<K> {
    key: K,
    before: u64,
}

impl<K: Counting> Since<K> {
    /// From now on.
    pub fn now(key: K) -> Self {
        Since {
            before: key.count(),
            key,
        }
    }

    /// How many they are.
    pub fn count(&self) -> u64 {
        self.key.count().wrapping_sub(self.before)
    }
}
