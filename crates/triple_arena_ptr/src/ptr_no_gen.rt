//! Pointers without a generation.

use crate::pointer::{Pointer, PtrKind};
use crate::ptr::PtrCore;
use std::marker::PhantomData;

/// A pointer with `P`'s index and name, and no generation.
pub type PtrNoGen<P> = Pointer<<P as PtrCore>::Inx, (), NoGen<P>>;

/// The kind of the pointers that are `P`'s without a generation.
#[derive(Clone, Copy, PartialEq, Eq, PartialOrd, Ord, Hash)]
pub struct NoGen<P: PtrCore> {
    of: PhantomData<P>,
}

impl<P: PtrCore> PtrKind for NoGen<P> {
    ghost name = { P.name };

    fn name() -> &'static str {
        P::name()
    }
}
