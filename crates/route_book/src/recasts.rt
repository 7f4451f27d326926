//! Stored references that are recast by mirrors: one that leads to nothing is gone.
ghost use Rattle.std.specs.Prelude.{◌≡◌, ℕ, ◌+◌, ◌*◌, List, Option};
ghost use Rattle.triple_arena.specs.Content.{entry_at as mark_at, live_count};
ghost use Rattle.triple_arena.specs.DirectContent.{entry_at};
ghost use Rattle.triple_arena_chain.specs.Links.{ends_in, values_in};
ghost use Rattle.ticket_book.specs.Mirrors.{AreCast, numbers};
ghost use Rattle.route_book.specs.Holds.{found_by};
ghost use Rattle.route_book.specs.Item.{MarkView, StopView, reference_of};
ghost use Rattle.route_book.specs.Packing.{recast_mark_by, recast_stop_by};

use crate::items::{Mark, Ref, Stop};
use triple_arena::{Advancer, Arena, ArenaSlots, ArenaTrait, DirectArena, DirectSlots};
use triple_arena_chain::{ChainArena, ChainSlots};
use triple_arena_ptr::{Probes, PtrCore};

// The reference as a mirror has it: one that it has not is gone.
fn recast<P: PtrCore, M: ArenaTrait<P, P>>(mirror: &M, to: Ref<P>) -> Ref<P>
    ensures { reference_of P.index P.generation result
        ≡ found_by (numbers P.index P.generation (M.entry_at mirror.now))
        (reference_of P.index P.generation to) }
{
    match to {
        Ref::To(p) => match mirror.get(p) {
            Some(q) => Ref::To(*q),
            None => Ref::Gone,
        },
        Ref::Gone => Ref::Gone,
    }
}

impl<P: PtrCore> Stop<P> {
    fn recast<M: ArenaTrait<P, P>>(&mut self, places: &M)
        ensures { self.new ≡ recast_stop_by P.index P.generation (M.entry_at places.now) self.old }
    {
        self.place = recast(places, self.place);
    }
}

impl<P: PtrCore> Mark<P> {
    fn recast<M: ArenaTrait<P, P>, N: ArenaTrait<P, P>>(&mut self, places: &M, stops: &N)
        ensures { self.new ≡ recast_mark_by P.index P.generation (M.entry_at places.now)
            (N.entry_at stops.now) self.old }
    {
        self.place = recast(places, self.place);
        self.stop = recast(stops, self.stop);
    }
}

// Recasts the references of the stops by a mirror of the places: one look for each stop. What no
// write of a value changes stays.
fn recast_stops<P: PtrCore, A: ArenaTrait<P, Stop<P>>, M: ArenaTrait<P, P>>(
    stops: &mut A,
    places: &M,
    looks: &mut Probes,
)
    ensures entries { AreCast (recast_stop_by P.index P.generation (M.entry_at places.now))
        (A.entry_at stops.old) (A.entry_at stops.new) }
    ensures live { A.live_count stops.new ≡ A.live_count stops.old }
    ensures counter { A.counter stops.new ≡ A.counter stops.old }
    ensures room { A.room stops.new ≡ A.room stops.old }
    ensures kept { (f : A → Option (Option ℕ × Option ℕ))
        → ((s : A) (i : ℕ) (t : StopView) → f (A.with_value s i t) ≡ f s)
        → f stops.new ≡ f stops.old }
    ensures kept_list { (f : A → List ℕ)
        → ((s : A) (i : ℕ) (t : StopView) → f (A.with_value s i t) ≡ f s)
        → f stops.new ≡ f stops.old }
    ensures looks { looks.new ≡ looks.old + A.live_count stops.old }
{
    let mut walk = stops.advancer();
    while let Some(p) = walk.advance(stops) {
        if let Some(stop) = stops.get_mut(p) {
            stop.recast(places);
            looks.tick();
        }
    }
}

// Recasts the references of the marks by a mirror of the places and one of the stops: two looks for
// each mark. What no write of a value changes stays.
fn recast_marks<P: PtrCore, A: ArenaTrait<P, Mark<P>>, M: ArenaTrait<P, P>, N: ArenaTrait<P, P>>(
    marks: &mut A,
    places: &M,
    stops: &N,
    looks: &mut Probes,
)
    ensures entries { AreCast (recast_mark_by P.index P.generation (M.entry_at places.now)
        (N.entry_at stops.now)) (A.entry_at marks.old) (A.entry_at marks.new) }
    ensures live { A.live_count marks.new ≡ A.live_count marks.old }
    ensures counter { A.counter marks.new ≡ A.counter marks.old }
    ensures room { A.room marks.new ≡ A.room marks.old }
    ensures kept_list { (f : A → List ℕ)
        → ((s : A) (i : ℕ) (m : MarkView) → f (A.with_value s i m) ≡ f s)
        → f marks.new ≡ f marks.old }
    ensures looks { looks.new ≡ looks.old + 2 * A.live_count marks.old }
{
    let mut walk = marks.advancer();
    while let Some(p) = walk.advance(marks) {
        if let Some(mark) = marks.get_mut(p) {
            mark.recast(places, stops);
            looks.tick();
            looks.tick();
        }
    }
}

// Recasts the stops of the chain arena, whose interlinks stay.
pub(crate) fn recast_all_stops<P: PtrCore, S: ChainSlots<P, Stop<P>>, R: DirectSlots<P, P>>(
    stops: &mut ChainArena<P, Stop<P>, S>,
    places: &DirectArena<P, P, R>,
    looks: &mut Probes,
)
    ensures entries { AreCast (recast_stop_by P.index P.generation (entry_at places.now))
        (values_in stops.old) (values_in stops.new) }
    ensures ends { (j : ℕ) → ends_in stops.new j ≡ ends_in stops.old j }
    ensures live { live_count stops.new ≡ live_count stops.old }
    ensures free { stops.new.free ≡ stops.old.free }
    ensures counter { stops.new.counter ≡ stops.old.counter }
    ensures room { stops.new.room ≡ stops.old.room }
    ensures looks { looks.new ≡ looks.old + live_count stops.old }
{
    recast_stops(stops, places, looks);
}

// Recasts the marks of the arena.
pub(crate) fn recast_all_marks<P: PtrCore, S: ArenaSlots<P, Mark<P>>, R: DirectSlots<P, P>>(
    marks: &mut Arena<P, Mark<P>, S>,
    places: &DirectArena<P, P, R>,
    stops: &DirectArena<P, P, R>,
    looks: &mut Probes,
)
    ensures entries { AreCast (recast_mark_by P.index P.generation (entry_at places.now)
        (entry_at stops.now)) (mark_at marks.old) (mark_at marks.new) }
    ensures live { live_count marks.new ≡ live_count marks.old }
    ensures free { marks.new.free ≡ marks.old.free }
    ensures counter { marks.new.counter ≡ marks.old.counter }
    ensures room { marks.new.room ≡ marks.old.room }
    ensures looks { looks.new ≡ looks.old + 2 * live_count marks.old }
{
    recast_marks(marks, places, stops, looks);
}
