//! Clones: the same pointers, items, list, tree and counter.
ghost use Rattle.std.specs.Prelude.{◌≡◌, ◌≤◌, ◌↔◌, IsOk, OnOk};
ghost use Rattle.triple_arena_ptr.specs.Errors.{IsBeyondMaxCapacity, IsAllocError};
ghost use Rattle.triple_arena_stack.specs.Room.{capacity as capacity_of, IsBeyond};
ghost use Rattle.triple_arena.specs.Copy.{MayRefuse};
ghost use Rattle.triple_arena_ord.specs.Copies.{last_inx, IsClone, IsUnmade};
ghost use Rattle.triple_arena_ord.specs.Indexed.{indexed};
ghost use Rattle.triple_arena_ord.specs.Ordered.{IsOrdered, room_in};

use triple_arena::{PtrCore, ReallocationError};
use triple_arena_ord::{OrdSlots, SimpleOrdArena};

/// Makes the first arena a clone of the second.
pub fn clone_from<P: PtrCore, T: Clone, S: OrdSlots<P, T>>(
    target: &mut SimpleOrdArena<P, T, S>,
    source: &SimpleOrdArena<P, T, S>,
) -> Result<(), ReallocationError>
    requires { (x y : T) → T.is_clone x y → y ≡ x }
    ensures cloned { OnOk result (IsClone target.old.chains source.now target.new) }
    ensures succeeds { last_inx source.now ≤ capacity_of (room_in target.old)
        → ((x : T) → T.is_infallible x) → IsOk result }
    ensures beyond { IsBeyondMaxCapacity result
        ↔ IsBeyond (room_in target.old).limit (last_inx source.now) }
    ensures kept { IsBeyondMaxCapacity result → target.new ≡ target.old }
    ensures unmade { IsAllocError result → IsUnmade S.takes_memory P.Gen.last (last_inx source.now)
        (MayRefuse T.is_infallible (indexed source.now)) target.old target.new }
    ensures ordered { IsOrdered target.new }
{
    let cloned = target.clone_from(source);
    cloned
}
