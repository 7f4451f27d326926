//! Pointers of another type that have the same index.
ghost use Rattle.std.specs.Prelude.{◌≡◌, min};
ghost use Rattle.triple_arena_ptr.specs.Generation.{second_generation};
ghost use Rattle.triple_arena_ptr.specs.Index.{max_index_of};

use crate::ptr::{PtrCore, PtrGenCore, PtrInxCore};

/// The pointer of another type with the same index, or with the greatest one if that type has no
/// such index, and with the second generation.
pub fn at_index_of<P: PtrCore, Q: PtrCore>(p: P) -> Q
    ensures index { Q.index result ≡ min (max_index_of Q.Inx.greatest) (P.index p) }
    ensures generation { Q.generation result ≡ second_generation Q.Gen.last }
{
    Q::_from_raw(index_of(p.inx()), Q::Gen::two())
}

// The index of another type with the same number, or the greatest one if that type has no such
// index.
fn index_of<I: PtrInxCore, J: PtrInxCore>(inx: I) -> J
    ensures { J.number result ≡ min (max_index_of J.greatest) (I.number inx) }
{
    let same = match inx.try_into_usize() {
        Some(index) => J::try_from_usize(index),
        None => None,
    };
    match same {
        Some(same) => same,
        None => J::max_index(),
    }
}
