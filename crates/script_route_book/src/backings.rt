//! What is done with stores over a backing.
//!
//! These traits promise nothing. A backing meets its laws in its two `impl`s, and not wherever a
//! section names it.
use crate::books::{Book, refused_room};
use crate::moves::Moving;
use crate::runs::{Cut, play_runs};
use route_book::{BookBacking, OnArray, OnHeap, PtrCore, RoomError, RouteBook};
use std::alloc::{AllocError, Allocator};
use std::marker::PhantomData;
use test_kit::{Call, N3};
use triple_arena_ptr::{P0, P1};

/// What is done with the stores over a backing.
pub trait Visit {
    /// Does it over a backing.
    fn visit<P: PtrCore, B: BookBacking<P>>(self, backing: &B) -> Result<String, AllocError>;
}

/// A backing of stores over pointers of the type `P`.
pub trait Backing<P> {
    /// Lets a visitor make stores over it.
    fn accept<V: Visit>(&self, visitor: V) -> Result<String, AllocError>;
}

/// A backing into which a store may move.
pub trait Target<Q> {
    /// Moves a store to a new one over it, and plays the runs behind that.
    fn take<P: PtrCore, B: BookBacking<P>>(
        &self,
        store: RouteBook<P, B>,
        moving: &Moving<'_>,
        text: String,
    ) -> Result<String, AllocError>;
}

impl<P: PtrCore, A: Allocator + Copy> Backing<P> for OnHeap<A> {
    fn accept<V: Visit>(&self, visitor: V) -> Result<String, AllocError> {
        visitor.visit::<P, Self>(self)
    }
}

impl<P: PtrCore, A: Allocator + Copy> Target<P> for OnHeap<A> {
    fn take<O: PtrCore, B: BookBacking<O>>(
        &self,
        store: RouteBook<O, B>,
        moving: &Moving<'_>,
        text: String,
    ) -> Result<String, AllocError> {
        take_into::<O, B, P, Self>(store, self, moving, text)
    }
}

// An array is named with its pointer type, since its size is known only then.
impl Backing<P0> for OnArray<3> {
    fn accept<V: Visit>(&self, visitor: V) -> Result<String, AllocError> {
        visitor.visit::<P0, Self>(self)
    }
}

impl Backing<P1> for OnArray<3> {
    fn accept<V: Visit>(&self, visitor: V) -> Result<String, AllocError> {
        visitor.visit::<P1, Self>(self)
    }
}

impl Backing<P1> for OnArray<10> {
    fn accept<V: Visit>(&self, visitor: V) -> Result<String, AllocError> {
        visitor.visit::<P1, Self>(self)
    }
}

impl Backing<N3> for OnArray<10> {
    fn accept<V: Visit>(&self, visitor: V) -> Result<String, AllocError> {
        visitor.visit::<N3, Self>(self)
    }
}

impl Target<P1> for OnArray<3> {
    fn take<O: PtrCore, B: BookBacking<O>>(
        &self,
        store: RouteBook<O, B>,
        moving: &Moving<'_>,
        text: String,
    ) -> Result<String, AllocError> {
        take_into::<O, B, P1, Self>(store, self, moving, text)
    }
}

impl Target<P1> for OnArray<4> {
    fn take<O: PtrCore, B: BookBacking<O>>(
        &self,
        store: RouteBook<O, B>,
        moving: &Moving<'_>,
        text: String,
    ) -> Result<String, AllocError> {
        take_into::<O, B, P1, Self>(store, self, moving, text)
    }
}

impl Target<P1> for OnArray<10> {
    fn take<O: PtrCore, B: BookBacking<O>>(
        &self,
        store: RouteBook<O, B>,
        moving: &Moving<'_>,
        text: String,
    ) -> Result<String, AllocError> {
        take_into::<O, B, P1, Self>(store, self, moving, text)
    }
}

/// Plays a section over a new store.
#[derive(Drop)]
pub struct Playing<'a> {
    pub book: &'a Book<'a>,
    pub lines: &'a str,
    pub cut: Cut,
    pub text: String,
}

impl<'a> Visit for Playing<'a> {
    fn visit<P: PtrCore, B: BookBacking<P>>(self, backing: &B) -> Result<String, AllocError> {
        play_new::<P, B>(backing, self.book, self.lines, self.cut, self.text)
    }
}

/// Plays a section over a new store, which moves to another backing.
#[derive(Drop)]
pub struct Leaving<'a, Q, K> {
    pub to: &'a K,
    pub pointers: PhantomData<Q>,
    pub moving: &'a Moving<'a>,
    pub header: &'a Call<'a>,
    pub text: String,
}

impl<'a, Q: PtrCore, K: Target<Q>> Visit for Leaving<'a, Q, K> {
    fn visit<P: PtrCore, B: BookBacking<P>>(self, backing: &B) -> Result<String, AllocError> {
        play_and_move::<P, B, Q, K>(backing, self.to, self.moving, self.header, self.text)
    }
}

// A store of the rooms, after the last ticket that the header names, if it names one.
fn make<P: PtrCore, B: BookBacking<P>>(
    backing: &B,
    header: &Call<'_>,
) -> Result<RouteBook<P, B>, RoomError> {
    let places = header.first as usize;
    let stops = header.second as usize;
    let marks = header.third as usize;
    match header.fourth {
        0 => RouteBook::new(backing, places, stops, marks),
        last => RouteBook::new_after(backing, places, stops, marks, last),
    }
}

fn play_new<P: PtrCore, B: BookBacking<P>>(
    backing: &B,
    book: &Book<'_>,
    lines: &str,
    cut: Cut,
    text: String,
) -> Result<String, AllocError> {
    match make::<P, B>(backing, &book.header) {
        Ok(mut store) => play_runs(&mut store, lines, cut, text),
        Err(refusal) => refused_room(&refusal, text),
    }
}

fn play_and_move<P: PtrCore, B: BookBacking<P>, Q: PtrCore, K: Target<Q>>(
    from: &B,
    to: &K,
    moving: &Moving<'_>,
    header: &Call<'_>,
    text: String,
) -> Result<String, AllocError> {
    match make::<P, B>(from, header) {
        Ok(store) => play_up_to_the_move::<P, B, Q, K>(store, to, moving, text),
        Err(refusal) => refused_room(&refusal, text),
    }
}

fn play_up_to_the_move<P: PtrCore, B: BookBacking<P>, Q: PtrCore, K: Target<Q>>(
    store: RouteBook<P, B>,
    to: &K,
    moving: &Moving<'_>,
    text: String,
) -> Result<String, AllocError> {
    let mut store = store;
    match moving.play_before(&mut store, text) {
        Ok(text) => to.take(store, moving, text),
        Err(error) => Err(error),
    }
}

/// Moves a store to a new one over this backing, and plays the runs behind that.
pub fn take_into<P: PtrCore, B: BookBacking<P>, Q: PtrCore, C: BookBacking<Q>>(
    store: RouteBook<P, B>,
    backing: &C,
    moving: &Moving<'_>,
    text: String,
) -> Result<String, AllocError> {
    match moving.move_into::<P, B, Q, C>(store, backing) {
        Ok(moved) => play_to_the_end(moved, moving, None, text),
        Err((refusal, same)) => play_to_the_end(same, moving, Some(refusal), text),
    }
}

// The store goes at its end, and at no other place.
fn play_to_the_end<P: PtrCore, B: BookBacking<P>>(
    store: RouteBook<P, B>,
    moving: &Moving<'_>,
    refusal: Option<RoomError>,
    text: String,
) -> Result<String, AllocError> {
    let mut store = store;
    moving.play_behind(&mut store, refusal, text)
}
