//! Insertions by an entry, of each kind, in each form.
use crate::items::{CountingKey, Item, Pairs};
use script_ord_calls::{Counting, Limit, PutsByEntry, Since, Takes, tell};
use std::cmp::Ordering;
use std::fmt::Debug;
use test_kit::{Call, Transcript, index};
use triple_arena::{ArenaTrait, PtrCore};
use triple_arena_ord::{
    InsertKind, OrdEntryKind, OrdInsertKind, OrdInsertionError, OrdPair, OrdSlots,
};

/// What an entry told, and the item that it replaced.
pub type Entered<P, K> = Result<(OrdEntryKind<P>, Option<Item<K>>), OrdInsertionError>;

/// What puts an item in by an entry of each form, or lets the entry go if there is none.
pub trait ByEntry<P: PtrCore, K> {
    /// Puts an item in where its key belongs, and answers its index, if there was room.
    fn put(&mut self, item: Item<K>) -> Option<P::Inx>;

    fn enter(&mut self, kind: OrdInsertKind<P, &K>, item: Option<Item<K>>) -> Entered<P, K>;

    fn enter_reallocating(
        &mut self,
        kind: OrdInsertKind<P, &K>,
        item: Option<Item<K>>,
    ) -> Entered<P, K>;

    fn enter_within_capacity(
        &mut self,
        kind: OrdInsertKind<P, &K>,
        item: Option<Item<K>>,
    ) -> Entered<P, K>;
}

impl<P: PtrCore, K: CountingKey, S: OrdSlots<P, Item<K>>> ByEntry<P, K> for Pairs<P, K, S> {
    fn put(&mut self, item: Item<K>) -> Option<P::Inx> {
        match self.arena.insert(item) {
            Ok((p, _)) => Some(p.inx()),
            Err(_) => None,
        }
    }

    fn enter(&mut self, kind: OrdInsertKind<P, &K>, item: Option<Item<K>>) -> Entered<P, K> {
        let entry = self.arena.entry_insert(kind)?;
        let told = entry.ptr();
        match item {
            Some(item) => Ok((told, entry.insert(item))),
            None => Ok((told, None)),
        }
    }

    fn enter_reallocating(
        &mut self,
        kind: OrdInsertKind<P, &K>,
        item: Option<Item<K>>,
    ) -> Entered<P, K> {
        let entry = self.arena.entry_insert_reallocating(kind)?;
        let told = entry.ptr();
        match item {
            Some(item) => Ok((told, entry.insert(item))),
            None => Ok((told, None)),
        }
    }

    fn enter_within_capacity(
        &mut self,
        kind: OrdInsertKind<P, &K>,
        item: Option<Item<K>>,
    ) -> Entered<P, K> {
        let entry = self.arena.entry_insert_within_capacity(kind)?;
        let told = entry.ptr();
        match item {
            Some(item) => Ok((told, entry.insert(item))),
            None => Ok((told, None)),
        }
    }
}

impl<P: PtrCore + Debug, K: CountingKey, S: OrdSlots<P, Item<K>>> PutsByEntry<K>
    for Pairs<P, K, S> {
    fn enters_by(
        &mut self,
        transcript: &mut Transcript,
        call: &Call<'_>,
        limit: Limit,
        zero: K,
    ) -> bool {
        enter(self, transcript, call, limit, zero)
    }
}

impl<P: PtrCore, K: CountingKey, S: OrdSlots<P, Item<K>>> Takes<P, K> for Pairs<P, K, S> {
    fn take(&mut self, name: &str, item: &(K, u64), start: P::Inx, num: u64) -> P::Inx {
        take(self, name, item, start, num)
    }

    fn give_up(&mut self, k: &K) {
        if let Some(p) = self.arena.find_key(k) {
            drop(self.arena.remove(p));
        }
    }
}

fn enter<P: PtrCore + Debug, K: Counting + Debug, A: ByEntry<P, K>>(
    arena: &mut A,
    transcript: &mut Transcript,
    call: &Call<'_>,
    limit: Limit,
    zero: K,
) -> bool {
    let (form, name) = call.verb.split_once(':').unwrap_or(("", ""));
    let k = zero.with(call.first);
    let Some(kind) = kind::<P, K>(name, &k, index(call.third), call.fourth) else {
        return false;
    };
    let item = if call.fifth == 1 {
        None
    } else {
        Some(OrdPair::new(k, call.second))
    };
    let since = Since::now(zero);
    let told = match form {
        "entry_insert" => arena.enter(kind, item),
        "entry_insert_reallocating" => arena.enter_reallocating(kind, item),
        _ => arena.enter_within_capacity(kind, item),
    };
    tell(transcript, call.line, &told, limit, &since);
    true
}

fn take<P: PtrCore, K: Counting, A: ByEntry<P, K>>(
    arena: &mut A,
    name: &str,
    item: &(K, u64),
    start: P::Inx,
    num: u64,
) -> P::Inx {
    let new = OrdPair::new(item.0, item.1);
    match kind::<P, K>(name, &item.0, start, num) {
        Some(kind) => match arena.enter(kind, Some(new)) {
            Ok((told, _)) => told.any().inx(),
            Err(_) => start,
        },
        None => arena.put(new).unwrap_or(start),
    }
}

// The kind of this name, if there is one: by a key, from an index with a number of comparisons, or
// at an index.
fn kind<'k, P: PtrCore, K>(
    name: &str,
    k: &'k K,
    i: P::Inx,
    num: u64,
) -> Option<OrdInsertKind<P, &'k K>> {
    let num = num as usize;
    match name {
        "empty" => Some(InsertKind::Empty),
        "normal" => Some(InsertKind::Normal(k)),
        "nonhereditary" => Some(InsertKind::Nonhereditary(k)),
        "linear" => Some(InsertKind::Linear { p_init: i, num, k }),
        "nonhereditary_linear" => Some(InsertKind::NonhereditaryLinear { p_init: i, num, k }),
        "manual_less" => Some(InsertKind::Manual {
            p_target: i,
            direction: Ordering::Less,
        }),
        "manual_equal" => Some(InsertKind::Manual {
            p_target: i,
            direction: Ordering::Equal,
        }),
        "manual_greater" => Some(InsertKind::Manual {
            p_target: i,
            direction: Ordering::Greater,
        }),
        _ => None,
    }
}
