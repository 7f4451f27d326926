//! A store that moves on the way through a section.
use crate::backings::{Backing, Leaving, Target};
use crate::runs::play_runs;
use route_book::{BookBacking, PtrCore, RoomError, RouteBook};
use std::alloc::AllocError;
use std::fmt::Write;
use std::marker::PhantomData;
use test_kit::Call;

/// A section whose store moves: the runs before the line of the move, that line, and the runs
/// behind it.
#[derive(Clone, Copy)]
pub struct Moving<'a> {
    before: &'a str,
    line: &'a str,
    call: Call<'a>,
    behind: &'a str,
}

impl<'a> Moving<'a> {
    /// The parts of a section with a line `>move POINTERS,BACKINGS PLACES STOPS MARKS`, if it has
    /// one.
    pub fn new(lines: &'a str) -> Option<Self> {
        let (before, rest) = lines.split_once(">move")?;
        let (line, behind) = rest.split_once('\n').unwrap_or((rest, ""));
        let call = Call::new(line);
        Some(Moving {
            before,
            line,
            call,
            behind,
        })
    }

    /// The pointers to which the store moves, in one play for each.
    pub fn pointers(&self) -> &'a str {
        match self.call.verb.split_once(',') {
            Some((pointers, _)) => pointers,
            None => "",
        }
    }

    /// The backings to which it moves.
    pub fn backings(&self) -> &'a str {
        match self.call.verb.split_once(',') {
            Some((_, backings)) => backings,
            None => "",
        }
    }

    /// Plays the section over a store of one kind, which moves to another one.
    pub fn play_to<P: PtrCore, F: Backing<P>, Q: PtrCore, K: Target<Q>>(
        &self,
        from: &F,
        to: &K,
        header: &Call<'_>,
        text: String,
    ) -> Result<String, AllocError> {
        from.accept(Leaving::<'_, Q, K> {
            to,
            pointers: PhantomData,
            moving: self,
            header,
            text,
        })
    }

    /// Plays the runs before the line of the move.
    pub fn play_before<P: PtrCore, B: BookBacking<P>>(
        &self,
        store: &mut RouteBook<P, B>,
        text: String,
    ) -> Result<String, AllocError> {
        play_rest(store, self.before, text)
    }

    /// The store of another kind that the line asks for, or the same.
    pub fn move_into<P: PtrCore, B: BookBacking<P>, Q: PtrCore, C: BookBacking<Q>>(
        &self,
        store: RouteBook<P, B>,
        backing: &C,
    ) -> Result<RouteBook<Q, C>, (RoomError, RouteBook<P, B>)> {
        let (places, stops, marks) = (self.call.first, self.call.second, self.call.third);
        store.into_room::<Q, C>(backing, places as usize, stops as usize, marks as usize)
    }

    /// Tells how the move ended, and plays the runs behind it.
    pub fn play_behind<P: PtrCore, B: BookBacking<P>>(
        &self,
        store: &mut RouteBook<P, B>,
        refusal: Option<RoomError>,
        text: String,
    ) -> Result<String, AllocError> {
        let text = self.tell(refusal, text)?;
        play_rest(store, self.behind, text)
    }

    // The line of the move, and how it ended.
    fn tell(&self, refusal: Option<RoomError>, text: String) -> Result<String, AllocError> {
        let mut text = text;
        writeln!(text, ">move{}", self.line)?;
        match refusal {
            Some(refusal) => writeln!(text, "not moved: {refusal}")?,
            None => writeln!(text, "moved")?,
        }
        Ok(text)
    }
}

// The runs, if there are any.
fn play_rest<P: PtrCore, B: BookBacking<P>>(
    store: &mut RouteBook<P, B>,
    runs: &str,
    text: String,
) -> Result<String, AllocError> {
    if runs.is_empty() {
        return Ok(text);
    }
    play_runs(store, runs, (usize::MAX, usize::MAX), text)
}
