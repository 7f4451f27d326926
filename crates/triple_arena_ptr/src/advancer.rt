//! Going over a collection with no borrow of it between the steps.
ghost use Rattle.std.specs.Prelude.{◌≡◌, List, [], Option, Some};
ghost use Rattle.triple_arena_ptr.specs.Advancer.{Advances};

/// Gives the items of a collection, one a call. The collection is free between the calls: it may be
/// read, written and changed.
///
/// ```rust
/// let mut advancer = arena.advancer();
/// while let Some(p) = advancer.advance(&arena) {
///     // here `arena` can be changed
/// }
/// ```
pub trait Advancer<C> {
    /// What is given.
    type Item;

    // The items that it will give over the collection as it is, in order, or `None` if they may
    // have no end or are not told here. Over a collection that stays as it is, it gives these items
    // and then ends.
    ghost remaining: { Self → C → Option (List Self.Item) };

    // What else is known of a call over a collection, by the item that it gave and what it left.
    ghost advance_gives: { Self → C → Option Self.Item → Self → Type 0 } = { λ _ _ _ _. Unit {0} };

    /// The next item, or `None` if there is none left.
    fn advance(&mut self, collection: &C) -> Option<Self::Item>
        ensures left { Advances (remaining self.old collection.now) result
            (remaining self.new collection.now) }
        ensures given { advance_gives self.old collection.now result self.new };

    /// An advancer that gives nothing.
    fn empty() -> Self
        ensures { (collection : C) → remaining result collection ≡ Some [] };
}
