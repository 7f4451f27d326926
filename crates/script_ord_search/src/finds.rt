//! The six searches and their counted forms, from the root and along the list.
use crate::items::{CountingKey, Item, Pairs};
use script_ord_calls::{Finds, Found};
use std::cell::Cell;
use std::cmp::Ordering;
use triple_arena::PtrCore;
use triple_arena_ord::{OrdSlots, Probes};

impl<P: PtrCore + PartialEq, K: CountingKey, S: OrdSlots<P, Item<K>>> Finds<P, K>
    for Pairs<P, K, S> {
    fn by_key(&self, k: &K) -> Option<P> {
        self.arena.find_key(k)
    }

    fn by_key_counted(&self, k: &K, probes: &mut Probes) -> Option<P> {
        self.arena.find_key_counted(k, probes)
    }

    fn by_similar_key(&self, k: &K) -> Option<(P, Ordering)> {
        self.arena.find_similar_key(k)
    }

    fn by_similar_key_counted(&self, k: &K, probes: &mut Probes) -> Option<(P, Ordering)> {
        self.arena.find_similar_key_counted(k, probes)
    }

    fn along(&self, k: &K, num: u64, start: P) -> Option<P> {
        self.arena.find_key_linear(start, num as usize, k)
    }

    fn along_counted(&self, k: &K, num: u64, start: P, probes: &mut Probes) -> Option<P> {
        self.arena
            .find_key_linear_counted(start, num as usize, k, probes)
    }

    fn similar_along(&self, k: &K, num: u64, start: P) -> Option<(P, Ordering)> {
        self.arena
            .find_similar_key_linear(start.inx(), num as usize, k)
    }

    fn similar_along_counted(
        &self,
        k: &K,
        num: u64,
        start: P,
        probes: &mut Probes,
    ) -> Option<(P, Ordering)> {
        self.arena
            .find_similar_key_linear_counted(start.inx(), num as usize, k, probes)
    }

    fn with(&self, n: u64) -> Found<P> {
        let asked = Cell::new(0u64);
        let found = self.arena.find_with(|_, item| {
            asked.set(asked.get().wrapping_add(1));
            n.cmp(&item.k().n())
        });
        Found::equal(found, asked.get(), asked.get())
    }

    fn with_counted(&self, n: u64) -> Found<P> {
        let asked = Cell::new(0u64);
        let mut probes = Probes::new();
        let found = self.arena.find_with_counted(
            |_, item| {
                asked.set(asked.get().wrapping_add(1));
                n.cmp(&item.k().n())
            },
            &mut probes,
        );
        Found::equal(found, probes.count(), asked.get())
    }

    fn similar_with(&self, n: u64) -> Found<P> {
        let asked = Cell::new(0u64);
        let found = self.arena.find_similar_with(|_, item| {
            asked.set(asked.get().wrapping_add(1));
            n.cmp(&item.k().n())
        });
        Found::similar(found, asked.get(), asked.get())
    }

    fn similar_with_counted(&self, n: u64) -> Found<P> {
        let asked = Cell::new(0u64);
        let mut probes = Probes::new();
        let found = self.arena.find_similar_with_counted(
            |_, item| {
                asked.set(asked.get().wrapping_add(1));
                n.cmp(&item.k().n())
            },
            &mut probes,
        );
        Found::similar(found, probes.count(), asked.get())
    }

    fn similar_by_counted(&self, n: u64) -> Found<P> {
        let mut asked = 0u64;
        let mut probes = Probes::new();
        let found = self.arena.find_similar_by_counted(
            &mut |_p: P, item: &Item<K>| -> Ordering {
                asked = asked.wrapping_add(1);
                n.cmp(&item.k().n())
            },
            &mut probes,
        );
        Found::similar(found, probes.count(), asked)
    }

    fn first_noted(&self, n: u64) -> Found<P> {
        let mut asked = 0u64;
        let mut noted = None;
        let mut probes = Probes::new();
        self.arena.find_similar_by_counted(
            &mut |p: P, item: &Item<K>| -> Ordering {
                asked = asked.wrapping_add(1);
                match item.k().n().cmp(&n) {
                    Ordering::Less => Ordering::Greater,
                    Ordering::Equal => {
                        noted = Some((p, Ordering::Less));
                        Ordering::Less
                    }
                    Ordering::Greater => Ordering::Less,
                }
            },
            &mut probes,
        );
        Found::similar(noted, probes.count(), asked)
    }

    fn last_noted(&self, n: u64) -> Found<P> {
        let mut asked = 0u64;
        let mut noted = None;
        let mut probes = Probes::new();
        self.arena.find_similar_by_counted(
            &mut |p: P, item: &Item<K>| -> Ordering {
                asked = asked.wrapping_add(1);
                if item.k().n() > n {
                    return Ordering::Less;
                }
                noted = Some((p, Ordering::Greater));
                Ordering::Greater
            },
            &mut probes,
        );
        Found::similar(noted, probes.count(), asked)
    }

    fn with_the_pointer(&self, start: P) -> Found<P> {
        let asked = Cell::new(0u64);
        let found = self.arena.find_with(|p, _| {
            asked.set(asked.get().wrapping_add(1));
            if p == start {
                Ordering::Equal
            } else {
                Ordering::Less
            }
        });
        Found::equal(found, asked.get(), asked.get())
    }
}
