//! Nodes in an arena, named by numbers that a compression does not change.
ghost use Rattle.std.specs.Prelude.{◌≡◌, ◌≢◌, ℕ, ◌+◌, Some, None, IsSome, IfOk, OnOk, OnErr};
ghost use Rattle.std.specs.Prelude.{option_copied};
ghost use Rattle.triple_arena_ptr.specs.Errors.{IsBeyondMaxCapacity};
ghost use Rattle.triple_arena.specs.Compression.{IsCompact};
ghost use Rattle.triple_arena.specs.Content.{live_count};
ghost use Rattle.triple_arena.specs.LiveEntries.{live_entries};
ghost use Rattle.example_chain.specs.Scene.{node_at as node_of, given, IsFull};

use crate::follow::{Moved, compress_with_table};
use proof_marks::recall;
use std::alloc::Global;
use std::marker::Model;
use std::mem;
use triple_arena::{ArenaInsertTrait, ArenaTrait, HeapArena, Ptr, ReallocationError};

/// A node, with the number of its parent.
#[derive(Drop)]
pub struct Node {
    pub parent: Option<usize>,
    pub height: u64,
}

/// Nodes, each named by the number that `add` gave.
///
/// Nodes name their parents by these numbers, so that a compression, which moves nodes and renews
/// their pointers, has one table to follow.
#[derive(Drop)]
pub struct Scene<P: Ptr> {
    nodes: HeapArena<P, Moved<P, Node>, Global>,
    // The pointer of each node that was added, in that order, or none if it was removed.
    pointers: Vec<Option<P>>,
}

impl<P: Ptr> Model for Scene<P> {
    ghost use Rattle.example_chain.specs.Scene.{IsScene, State};
    ghost use Rattle.example_chain.specs.declared.scene.Node.{Node};
    ghost use Rattle.example_chain.specs.declared.follow.Moved.{Moved};

    ghost Value = { State P (Moved P Node P.Inx P.Gen P.Inx.Word) };

    ghost view = { λ s. record { nodes = s.nodes; pointers = s.pointers.items } };

    ghost invariant = { λ s. IsScene P.index P.generation
        (record { nodes = s.nodes; pointers = s.pointers.items }) };
}

impl<P: Ptr> Scene<P> {
    /// A scene without a node. It takes no memory.
    pub fn new(alloc: Global) -> Self
        ensures empty { (number : ℕ)
            → node_of P.index P.generation (λ m. m.value) result number ≡ None }
        ensures given { given result ≡ 0 }
        ensures live { live_count result.nodes ≡ 0 }
        ensures room { result.nodes.room.reserved ≡ 0 }
    {
        Scene {
            nodes: HeapArena::<P, Moved<P, Node>, Global>::new(alloc),
            pointers: Vec::new(alloc),
        }
    }

    /// Takes in a node, and gives the number that names it from now on: as many as were given
    /// before, so that none is given twice.
    ///
    /// It returns `AllocError` if the memory was refused, and `BeyondMaxCapacity` only if there are
    /// as many nodes as pointers have indexes. Then nothing changes.
    pub fn add(&mut self, node: Node) -> Result<usize, ReallocationError>
        ensures number { IfOk result (λ number. number ≡ given self.old) }
        ensures vacant { IfOk result (λ number.
            node_of P.index P.generation (λ m. m.value) self.old number ≡ None) }
        ensures given { OnOk result (given self.new ≡ given self.old + 1) }
        ensures live { OnOk result (live_count self.new.nodes ≡ live_count self.old.nodes + 1) }
        ensures added { IfOk result (λ number.
            node_of P.index P.generation (λ m. m.value) self.new number ≡ Some node) }
        ensures others { IfOk result (λ number. (k : ℕ) → k ≢ number
            → node_of P.index P.generation (λ m. m.value) self.new k
            ≡ node_of P.index P.generation (λ m. m.value) self.old k) }
        ensures fits { OnOk result (IsFull self.old → ⊥) }
        ensures beyond { IsBeyondMaxCapacity result → IsFull self.old }
        ensures err { OnErr result (self.new ≡ self.old) }
    {
        if self.pointers.reserve(1).is_err() {
            return Err(ReallocationError::AllocError);
        }
        let moved = Moved {
            was: P::invalid(),
            value: node,
        };
        let p = self.nodes.insert(moved)?;
        let number = self.pointers.len();
        if self.pointers.push(Some(p)).is_err() {
            unreachable!();
        }
        Ok(number)
    }

    /// The node with this number; none if it was removed.
    pub fn get(&self, number: usize) -> Option<&Node>
        ensures { option_copied result
            ≡ node_of P.index P.generation (λ m. m.value) self.now number }
    {
        let p = (*self.pointers.get(number)?)?;
        Some(&self.nodes.get(p)?.value)
    }

    /// Takes out the node with this number, which names none from now on.
    pub fn remove(&mut self, number: usize) -> Option<Node>
        ensures node { result ≡ node_of P.index P.generation (λ m. m.value) self.old number }
        ensures given { given self.new ≡ given self.old }
        ensures live { IsSome result → live_count self.new.nodes + 1 ≡ live_count self.old.nodes }
        ensures room { self.new.nodes.room ≡ self.old.nodes.room }
        ensures gone { node_of P.index P.generation (λ m. m.value) self.new number ≡ None }
        ensures others { (k : ℕ) → k ≢ number
            → node_of P.index P.generation (λ m. m.value) self.new k
            ≡ node_of P.index P.generation (λ m. m.value) self.old k }
    {
        let p = mem::replace(self.pointers.get_mut(number)?, None)?;
        let moved = self.nodes.remove(p).allow()?;
        Some(moved.value)
    }

    /// Moves the nodes together, so that those that are left stand at the first indexes. Each
    /// number names the same node as before.
    pub fn compress(&mut self)
        ensures same { (number : ℕ)
            → node_of P.index P.generation (λ m. m.value) self.new number
            ≡ node_of P.index P.generation (λ m. m.value) self.old number }
        ensures given { given self.new ≡ given self.old }
        ensures live { live_count self.new.nodes ≡ live_count self.old.nodes }
        ensures room { self.new.nodes.room ≡ self.old.nodes.room }
        ensures compact { IsCompact (live_entries self.new.nodes) }
    {
        compress_with_table(&mut self.nodes, &mut self.pointers);
        // Well-formed after.
        recall!(self.nodes.len());
    }
}
