//! Whether the keys ascend.
ghost use Rattle.std.specs.Prelude.{◌≡◌, ◌↔◌, IsOk, IfErr, codes};
ghost use Rattle.triple_arena_ord.specs.Ordered.{IsAscending};

use crate::ascends::ascends;
use crate::{OrdSlots, SimpleOrdArena, SimpleOrdArenaNode, SimpleOrdItem};
use triple_arena::{ArenaTrait, PtrCore};
use triple_arena_chain::ChainArena;

impl<P: PtrCore, T: SimpleOrdItem + Drop, S: OrdSlots<P, T>> SimpleOrdArena<P, T, S> {
    /// Whether no key is greater than the next one. If one is, it returns the error "incorrect
    /// ordering". All else that an arena keeps, its tree, ranks and list, needs no look: no call
    /// can break it.
    pub fn _check_invariants(this: &Self) -> Result<(), &'static str>
        ensures ascends { IsOk result ↔ IsAscending T.Key.cmp T.key_of this.now }
        ensures error { IfErr result (λ e. e.now ≡ codes "incorrect ordering") }
    {
        let Some(first) = this.first else {
            return Ok(());
        };
        let most = this.chains.len();
        if ascends::<P, T, ChainArena<P, SimpleOrdArenaNode<P, T>, S>>(&this.chains, first, most) {
            Ok(())
        } else {
            Err("incorrect ordering")
        }
    }
}
