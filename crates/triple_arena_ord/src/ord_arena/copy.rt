//! An ordered arena as a clone of another one, and an arena or a chain arena as a copy of an
//! ordered one.
ghost use Rattle.std.specs.Prelude.{◌≡◌, ◌≤◌, ◌↔◌, ◌⊎◌, IsOk, IfOk, OnOk};
ghost use Rattle.triple_arena_ptr.specs.Errors.{IsBeyondMaxCapacity, IsAllocError};
ghost use Rattle.triple_arena_ptr.specs.Generation.{second_generation};
ghost use Rattle.triple_arena_stack.specs.Room.{capacity as capacity_of, IsBeyond};
ghost use Rattle.triple_arena.specs.ArenaRoom.{room_of};
ghost use Rattle.triple_arena.specs.Content.{entry_at, empty};
ghost use Rattle.triple_arena.specs.Copy.{MayRefuse, NeedsMemory, NeverRefuses, IsMappedCopy};
ghost use Rattle.triple_arena.specs.Copy.{IsRefusedCopy};
ghost use Rattle.linked_lists.specs.LinkedLists.{IsLinear};
ghost use Rattle.triple_arena_chain.specs.LinkCopies.{IsUnmade as IsChainUnmade};
ghost use Rattle.triple_arena_chain.specs.Links.{ends_in, IsChained};
ghost use Rattle.triple_arena_chain.specs.Listed.{listed_values};
ghost use Rattle.triple_arena_chain.specs.Values.{room_in as chain_room};
ghost use Rattle.triple_arena_ord.specs.Copies.{last_inx, IsClone, IsChainCopy, IsUnmade};
ghost use Rattle.triple_arena_ord.specs.Indexed.{indexed};
ghost use Rattle.triple_arena_ord.specs.Ordered.{IsOrdered, order_in, size_in};
ghost use Rattle.triple_arena_ord.specs.Ordered.{counter_in, room_in};

use crate::ord_arena::link_copies::copy_items;
use crate::{OrdSlots, SimpleOrdArena, SimpleOrdArenaNode};
use triple_arena::{AllocError, Arena, ArenaTrait, PtrCore, ReallocationError};
use triple_arena_chain::{ChainArena, ChainSlots, LinkCloneSource, LinkNoGen};

/// [`clone_to_arena`](LinkCloneSource::clone_to_arena) makes an arena a copy of this one by a map
/// that sees the links with their nodes.
impl<P: PtrCore, T: Drop, S: OrdSlots<P, T>> LinkCloneSource<P> for SimpleOrdArena<P, T, S> {
    ghost use Rattle.triple_arena_chain.specs.LinkCopyLaws.{listed_ends-is};
    ghost use Rattle.triple_arena_chain.specs.Links.{ends_in};

    type Link = LinkNoGen<P, SimpleOrdArenaNode<P, T>>;

    type Links = Arena<P, LinkNoGen<P, SimpleOrdArenaNode<P, T>>, S>;

    ghost links = { λ o. o.chains };

    ghost ends = { λ o. ends_in o.chains };

    ghost linked = { λ o i. listed_ends-is o.chains i };

    fn links(&self) -> &Arena<P, LinkNoGen<P, SimpleOrdArenaNode<P, T>>, S> {
        self.chains.links()
    }
}

impl<P: PtrCore, T: Drop, S: OrdSlots<P, T>> SimpleOrdArena<P, T, S> {
    /// Makes `target` a copy of this arena: with its pointers, its counter and its list as one
    /// chain, each value what `map` makes of the item there. `map` is called once for each entry,
    /// in the order of the indexes. What `target` held is dropped, and its smallest free index is
    /// the next one to be taken. It returns what `clone_to_arena` does.
    pub fn clone_to_chain_arena<U, R, F>(
        &self,
        target: &mut ChainArena<P, U, R>,
        map: F,
    ) -> Result<(), ReallocationError>
    where
        U: Drop,
        R: ChainSlots<P, U>,
        F: FnMut(P, &T) -> Result<U, AllocError>,
        requires { F.IsAlwaysCallable map }
        ensures mapped { OnOk result (IsMappedCopy P.index P.generation F.step map
            (indexed self.now) (listed_values target.new)) }
        ensures copied { OnOk result (IsChainCopy (entry_at self.now.chains)
            (size_in self.now) (last_inx self.now) (counter_in self.now)
            (ends_in self.now.chains) target.old target.new) }
        ensures list { OnOk result (IsLinear (ends_in target.new) (order_in self.now)) }
        ensures succeeds { last_inx self.now ≤ capacity_of (chain_room target.old)
            → NeverRefuses F.step → IsOk result }
        ensures beyond { IsBeyondMaxCapacity result
            ↔ IsBeyond (chain_room target.old).limit (last_inx self.now) }
        ensures kept { IsBeyondMaxCapacity result → target.new ≡ target.old }
        ensures unmade { IsAllocError result
            → IsChainUnmade R.takes_memory P.Gen.last (last_inx self.now)
            (IsRefusedCopy P.index P.generation F.step map (indexed self.now)) target.old
            target.new }
        ensures formed { IsChained target.new }
    {
        copy_items::<
            P,
            LinkNoGen<P, SimpleOrdArenaNode<P, T>>,
            T,
            U,
            ChainArena<P, SimpleOrdArenaNode<P, T>, S>,
            ChainArena<P, U, R>,
            F,
        >(target, &self.chains, map)
    }
}

impl<P: PtrCore, T: Clone, S: OrdSlots<P, T>> SimpleOrdArena<P, T, S> {
    /// A new arena with the same pointers, clones of the items, the same list, tree and counter,
    /// where the smallest free index is the next one to be taken. It has room for the last live
    /// index. A clone of an item must equal it.
    ///
    /// It returns `BeyondMaxCapacity` if no new arena of this type has so much room, and
    /// `AllocError` if the memory or the clone of an item was refused.
    pub fn clone(&self, alloc: S::Alloc) -> Result<Self, ReallocationError>
        requires { (x y : T) → T.is_clone x y → y ≡ x }
        ensures cloned { IfOk result
            (λ o. IsClone (empty (second_generation P.Gen.last)
            (room_of P.Inx.greatest (S.room_at (last_inx self.now)))) self.now o) }
        ensures succeeds { last_inx self.now ≤ capacity_of (room_of P.Inx.greatest (S.room_at 0))
            → ((x : T) → T.is_infallible x) → IsOk result }
        ensures beyond { IsBeyondMaxCapacity result
            ↔ IsBeyond (room_of P.Inx.greatest (S.room_at (last_inx self.now))).limit
            (last_inx self.now) }
        ensures unmade { IsAllocError result → NeedsMemory S.takes_memory
            (room_of P.Inx.greatest (S.room_at 0)) (last_inx self.now)
            ⊎ MayRefuse T.is_infallible (indexed self.now) }
        ensures ordered { IfOk result (λ o. IsOrdered o) }
    {
        match self.chains.clone(alloc) {
            Ok(chains) => Ok(SimpleOrdArena {
                chains,
                root: self.root,
                first: self.first,
                last: self.last,
            }),
            Err(error) => Err(error),
        }
    }

    /// Makes this arena a clone of `source`: with its pointers, list, tree and counter, and with
    /// clones of the items. A clone of an item must equal it. What the arena held is dropped, and
    /// the smallest free index is the next one to be taken.
    ///
    /// No memory is taken if the last live index of `source` is within the capacity, which then
    /// stays. Else the arena first grows to exactly that index.
    ///
    /// It returns `BeyondMaxCapacity` if the last live index of `source` is past the greatest
    /// capacity, and `AllocError` if the memory was refused; the arena is then as it was. It also
    /// returns `AllocError` if the clone of an item was refused; the arena is then grown to that
    /// index and cleared.
    pub fn clone_from(&mut self, source: &Self) -> Result<(), ReallocationError>
        requires { (x y : T) → T.is_clone x y → y ≡ x }
        ensures cloned { OnOk result (IsClone self.old.chains source.now self.new) }
        ensures succeeds { last_inx source.now ≤ capacity_of (room_in self.old)
            → ((x : T) → T.is_infallible x) → IsOk result }
        ensures beyond { IsBeyondMaxCapacity result
            ↔ IsBeyond (room_in self.old).limit (last_inx source.now) }
        ensures kept { IsBeyondMaxCapacity result → self.new ≡ self.old }
        ensures unmade { IsAllocError result
            → IsUnmade S.takes_memory P.Gen.last (last_inx source.now)
            (MayRefuse T.is_infallible (indexed source.now)) self.old self.new }
        ensures ordered { IsOrdered self.new }
    {
        match self.chains.clone_from(&source.chains) {
            Ok(()) => {
                self.root = source.root;
                self.first = source.first;
                self.last = source.last;
                Ok(())
            }
            Err(error) => {
                // If a clone was refused, no link is left.
                if self.chains.is_empty() {
                    self.root = None;
                    self.first = None;
                    self.last = None;
                }
                Err(error)
            }
        }
    }
}
