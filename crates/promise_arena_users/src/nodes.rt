//! Nodes in an arena.
ghost use Rattle.std.specs.Prelude.{false, ◌≡◌, ◌≢◌, ℕ, ◌+◌, ◌<◌, ◌↔◌, Some, None, IsOk, IsTrue};
ghost use Rattle.std.specs.Prelude.{IsSome, IsNone, IfOk, OnOk, OnErr, option_copied};
ghost use Rattle.triple_arena.specs.Content.{entry_at, live_count, arena_capacity};
ghost use Rattle.triple_arena.specs.Entries.{with_entry, without};
ghost use Rattle.promise_arena_users.specs.Nodes.{value_at};

use std::marker::Model;
use triple_arena::{Arena, ArenaInsertTrait, ArenaSlots, ArenaTrait};
use triple_arena_ptr::{NotWithinCapacityError, PtrCore};

/// A value with the pointer of the node below.
#[derive(Drop)]
pub struct Node<P: PtrCore, T> {
    below: Option<P>,
    value: T,
}

impl<P: PtrCore, T> Model for Node<P, T> {
    ghost use Rattle.promise_arena_users.specs.Node.{NodeView};
    ghost use Rattle.std.specs.Option.{option_map};

    ghost Value = { NodeView T };

    ghost view = { λ n. record {
      below = option_map
          (λ p. (P.index p, P.generation p)) n.below;
      value = n.value;
    } };
}

/// Nodes, and the top one.
#[derive(Drop)]
pub struct Nodes<P: PtrCore, T: Drop, S: ArenaSlots<P, Node<P, T>>> {
    arena: Arena<P, Node<P, T>, S>,
    top: Option<P>,
}

impl<P: PtrCore, T: Drop, S: ArenaSlots<P, Node<P, T>>> Model for Nodes<P, T, S> {
    ghost use Rattle.promise_arena_users.specs.Nodes.{Nodes as View};
    ghost use Rattle.triple_arena.specs.Content.{IsWellFormed};
    ghost use Rattle.std.specs.Option.{option_map};

    ghost Value = { View T };

    ghost view = { λ n. record {
      arena = n.arena;
      top = option_map
          (λ p. (P.index p, P.generation p)) n.top;
    } };

    ghost invariant = { λ n. IsWellFormed n.arena };
}

impl<P: PtrCore, T: Drop, S: ArenaSlots<P, Node<P, T>>> Nodes<P, T, S> {
    /// No nodes.
    pub fn new(alloc: S::Alloc) -> Self
        ensures none { live_count result.arena ≡ 0 }
        ensures top { result.top ≡ None }
    {
        Nodes {
            arena: Arena::new(alloc),
            top: None,
        }
    }

    /// The value at `p`.
    pub fn get(&self, p: P) -> Option<&T>
        ensures { option_copied result ≡ value_at self.now (P.index p) (P.generation p) }
    {
        match self.arena.get(p) {
            Some(node) => Some(&node.value),
            None => None,
        }
    }

    /// Stores `value` in a node on top of the others.
    pub fn push(&mut self, value: T) -> Result<P, NotWithinCapacityError>
        ensures variant { IsOk result
            ↔ (live_count self.old.arena < arena_capacity self.old.arena) }
        ensures stored { IfOk result (λ p. value_at self.new (P.index p) (P.generation p)
            ≡ Some value) }
        ensures nodes { IfOk result (λ p. (j : ℕ) → entry_at self.new.arena j
            ≡ with_entry (entry_at self.old.arena) (P.index p)
            (P.generation p, record { below = self.old.top; value = value }) j) }
        ensures top { IfOk result (λ p. self.new.top ≡ Some (P.index p, P.generation p)) }
        ensures count { OnOk result (live_count self.new.arena ≡ live_count self.old.arena + 1) }
        ensures err { OnErr result (self.new ≡ self.old) }
    {
        let node = Node {
            below: self.top,
            value,
        };
        let p = self.arena.insert_within_capacity(node)?;
        self.top = Some(p);
        Ok(p)
    }

    /// Removes the node at `p`, and forgets the top.
    pub fn remove(&mut self, p: P) -> Option<T>
        ensures value { result ≡ value_at self.old (P.index p) (P.generation p) }
        ensures nodes { IsSome result → (j : ℕ) → entry_at self.new.arena j
            ≡ without (entry_at self.old.arena) (P.index p) j }
        ensures top { IsSome result → self.new.top ≡ None }
        ensures count { IsSome result
            → live_count self.new.arena + 1 ≡ live_count self.old.arena }
        ensures none { IsNone result → self.new ≡ self.old }
    {
        match self.arena.remove(p).allow() {
            Some(node) => {
                self.top = None;
                let Node { below: _, value } = node;
                Some(value)
            }
            None => None,
        }
    }

    /// Changes the value at `p`, and says whether there was one.
    #[tactic(auto, using(triple_arena::specs::ContentLaws::writes))]
    pub fn set(&mut self, p: P, value: T) -> bool
        ensures variant { IsTrue result ↔ IsSome (value_at self.old (P.index p) (P.generation p)) }
        ensures written { IsTrue result
            → value_at self.new (P.index p) (P.generation p) ≡ Some value }
        ensures missed { result ≡ false → self.new ≡ self.old }
        ensures others { (j : ℕ) → j ≢ P.index p
            → entry_at self.new.arena j ≡ entry_at self.old.arena j }
        ensures top { self.new.top ≡ self.old.top }
    {
        match self.arena.get_mut(p) {
            Some(node) => {
                node.value = value;
                true
            }
            None => false,
        }
    }
}
