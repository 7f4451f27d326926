//! The calls that put an item in where its key belongs, or at an entry.
use crate::items::{CountingKey, Item, Pairs};
use script_ord_calls::{KnownPlace, Limit, PutsIn, Since, tell};
use std::cmp::Ordering;
use std::fmt::Debug;
use test_kit::{Call, Transcript, index};
use triple_arena::{ArenaTrait, PtrCore};
use triple_arena_ord::{OrdPair, OrdSlots, Probes};

impl<P: PtrCore, K: CountingKey, S: OrdSlots<P, Item<K>>> Pairs<P, K, S> {
    // The only entry, or why there can be none.
    fn put_alone(&mut self, item: Item<K>) -> Result<P, &'static str> {
        if !self.arena.is_empty() {
            return Err("not empty");
        }
        if self.arena.len() >= self.arena.capacity() {
            return Err("no room");
        }
        Ok(self.arena.insert_inx_manual_within_capacity(None, item))
    }

    // The same of one directly before or after the entry at an index.
    fn put_beside(&mut self, i: P::Inx, item: Item<K>, before: bool) -> Result<P, &'static str> {
        if self.arena.get_inx(i).is_none() {
            return Err("not live");
        }
        if self.arena.len() >= self.arena.capacity() {
            return Err("no room");
        }
        if before {
            let place = Some((i, Ordering::Less));
            return Ok(self.arena.insert_inx_manual_within_capacity(place, item));
        }
        let place = Some((i, Ordering::Greater));
        Ok(self.arena.insert_inx_manual_within_capacity(place, item))
    }
}

impl<P: PtrCore + Debug, K: CountingKey, S: OrdSlots<P, Item<K>>> PutsIn<K> for Pairs<P, K, S> {
    fn puts(&mut self, transcript: &mut Transcript, line: &str, item: &(K, u64), limit: Limit) {
        let since = Since::now(item.0);
        let answer = self.arena.insert(OrdPair::new(item.0, item.1));
        tell(transcript, line, &answer, limit, &since);
    }

    fn puts_reallocating(
        &mut self,
        transcript: &mut Transcript,
        line: &str,
        item: &(K, u64),
        limit: Limit,
    ) {
        let since = Since::now(item.0);
        let answer = self.arena.insert_reallocating(OrdPair::new(item.0, item.1));
        tell(transcript, line, &answer, limit, &since);
    }

    fn puts_within_capacity(
        &mut self,
        transcript: &mut Transcript,
        line: &str,
        item: &(K, u64),
        limit: Limit,
    ) {
        let since = Since::now(item.0);
        let answer = self
            .arena
            .insert_within_capacity(OrdPair::new(item.0, item.1));
        tell(transcript, line, &answer, limit, &since);
    }

    fn gets_or_puts(
        &mut self,
        transcript: &mut Transcript,
        line: &str,
        item: &(K, u64),
        limit: Limit,
    ) {
        let since = Since::now(item.0);
        let mut probes = Probes::new();
        let new = OrdPair::new(item.0, item.1);
        let answer = self.arena.get_or_insert_counted(new, &mut probes);
        let work = limit.held(probes.count(), since.count());
        transcript.answer(line, &(answer, work));
    }

    fn puts_at(
        &mut self,
        transcript: &mut Transcript,
        call: &Call<'_>,
        item: &(K, u64),
        direction: Ordering,
    ) {
        let i = index(call.third);
        if self.arena.get_inx(i).is_none() {
            transcript.answer(call.line, &"not live");
            return;
        }
        let since = Since::now(item.0);
        let answer = self
            .arena
            .insert_inx_manual(i, direction, OrdPair::new(item.0, item.1));
        tell(transcript, call.line, &answer, Limit::none(), &since);
    }

    fn puts_at_within_capacity(
        &mut self,
        transcript: &mut Transcript,
        call: &Call<'_>,
        item: &(K, u64),
        place: KnownPlace,
    ) {
        let i = index(call.third);
        let new = OrdPair::new(item.0, item.1);
        let since = Since::now(item.0);
        let put = match place {
            KnownPlace::Alone => self.put_alone(new),
            KnownPlace::Before => self.put_beside(i, new, true),
            KnownPlace::After => self.put_beside(i, new, false),
        };
        match put {
            Ok(p) => tell(transcript, call.line, &p, Limit::none(), &since),
            Err(refused) => transcript.answer(call.line, &refused),
        }
    }
}
