//! What code that is generic in the pointer type knows, with no proof of its own.
ghost use Rattle.std.specs.Prelude.{◌≡◌, ◌<◌, ◌^◌, ◌↔◌, false, IsTrue, IsSome, IfSome, IsOk, IfOk};
ghost use Rattle.std.specs.Prelude.{string_bytes};
ghost use Rattle.triple_arena_ptr.specs.Generation.{next_generation};
ghost use Rattle.triple_arena_ptr.specs.Pointer.{pointer_text};

use std::alloc::{AllocError, Global};
use std::num::NonZeroUsize;
use std::process::Abort;
use std::test::Fail;
use triple_arena_ptr::{
    P0, P1, P4, P5, Ptr, PtrCore, PtrGen, PtrGenCore, PtrInx, PtrInxCore, PtrNoGen,
};

// The pointers are equal if they are one, and only then.
fn is_same<P: Ptr>(p: P, q: P) -> bool
    ensures { IsTrue result ↔ (p ≡ q) }
{
    p == q
}

fn rebuilt<P: Ptr>(p: P) -> P
    ensures same { result ≡ p }
    ensures index { 0 < P.index p }
    ensures generation { 0 < P.generation p }
{
    P::_from_raw(p.inx(), p.generation())
}

// A clone is the pointer itself, and is always made.
fn clone_of<P: Ptr>(p: P) -> P
    ensures { result ≡ p }
{
    match p.clone() {
        Ok(clone) => clone,
        Err(_) => unreachable!(),
    }
}

// So is the clone of what holds pointers.
fn clones_of<P: Ptr>(pair: (P, P::Inx)) -> Result<(P, P::Inx), AllocError>
    ensures same { IfOk result (λ clones. clones ≡ pair) }
    ensures succeeds { IsOk result }
{
    pair.clone()
}

fn in_next_generation<P: Ptr>(p: P) -> P
    ensures index { P.index result ≡ P.index p }
    ensures generation { P.generation result ≡ next_generation P.Gen.last (P.generation p) }
{
    let (next, _) = p.generation().generational_inc();
    P::_from_raw(p.inx(), next)
}

fn is_before_by_index<P: Ptr>(p: P, q: P) -> bool
    requires { P.index p < P.index q }
    ensures { IsTrue result }
{
    p < q
}

fn is_before_by_generation<P: Ptr>(p: P, q: P) -> bool
    requires index { P.index p ≡ P.index q }
    requires generation { P.generation p < P.generation q }
    ensures { IsTrue result }
{
    p < q
}

// Equal pointers feed a hasher alike.
fn feeds_alike<P: Ptr>(p: P, q: P) -> bool
    ensures { IsTrue result → P.hash_input p ≡ P.hash_input q }
{
    p == q
}

fn counts<G: PtrGen>() -> bool
    ensures { IsTrue result ↔ IsSome G.last }
{
    G::one() != G::two()
}

// A generation that counts goes from 1 to 2.
fn first_step_starts_again<G: PtrGen>() -> bool
    ensures { result ≡ false }
{
    G::one().generational_inc().1
}

fn there_and_back<I: PtrInx>(inx: I) -> Option<I>
    ensures fits { IsSome result ↔ (I.number inx < 2 ^ 64) }
    ensures same { IfSome result (λ back. back ≡ inx) }
{
    I::try_from_usize(inx.try_into_usize()?)
}

fn back_and_there<I: PtrInx>(number: NonZeroUsize) -> Option<NonZeroUsize>
    ensures { IfSome result (λ back. back ≡ number) }
{
    I::try_from_usize(number)?.try_into_usize()
}

fn greatest<I: PtrInx>() -> Option<NonZeroUsize>
    ensures { IsSome result }
{
    I::max_index().try_into_usize()
}

fn text<P: Ptr>(alloc: Global, p: P) -> Result<String, AllocError>
    ensures { IfOk result
        (λ s. string_bytes s ≡ pointer_text P.name P.Gen.last (P.index p) (P.generation p)) }
{
    format!(in alloc; "{p:?}")
}

// Each law once at a concrete type, and what its functions answer there.
fn laws_at<P: Ptr>(rt: &impl Abort, p: P, is_counted: bool) {
    assert!(rt; is_same(rebuilt(p), p));
    assert!(rt; feeds_alike(p, p));
    assert!(rt; clone_of(p) == p);
    assert!(rt; clones_of((p, p.inx())) == Ok((p, p.inx())));
    assert!(rt; (p == in_next_generation(p)) == !is_counted);
    assert!(rt; counts::<P::Gen>() == is_counted);
    assert!(rt; !first_step_starts_again::<P::Gen>());
    assert!(rt; there_and_back(p.inx()) == Some(p.inx()));
    assert!(rt; back_and_there::<P::Inx>(NonZeroUsize::MIN) == Some(NonZeroUsize::MIN));
    assert!(rt; greatest::<P::Inx>() == P::invalid().inx().try_into_usize());
}

// Named at a pointer that is a parameter: at `P0` itself the check takes a minute longer.
fn laws_without_the_generation<P: Ptr>(rt: &impl Abort) {
    laws_at(rt, PtrNoGen::<P>::invalid(), false);
}

#[test]
fn laws_at_each_kind_of_pointer(rt: HostRuntime) -> Result<(), Fail> {
    laws_at(&rt, P0::invalid(), true);
    laws_at(&rt, P1::invalid(), true);
    laws_at(&rt, P4::invalid(), true);
    laws_at(&rt, P5::invalid(), false);
    laws_without_the_generation::<P0>(&rt);
    let p = P0::_from_raw(NonZeroUsize::MIN, PtrGenCore::one());
    assert!(rt; is_before_by_index(p, P0::invalid()));
    assert!(rt; is_before_by_generation(p, in_next_generation(p)));
    assert!(rt; text(rt.alloc(), p)?.as_str() == "P0[1](1)");
    Ok(())
}
