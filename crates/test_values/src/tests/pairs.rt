//! Pairs of a key and a value, and kinds of the insertion into an ordered arena, as values.
ghost use Rattle.std.specs.Prelude.{◌≡◌};

use crate::tests::values::{hashed, shows, shows_long};
use std::cmp::Ordering;
use triple_arena::{P0, PtrCore};
use triple_arena_ord::{InsertKind, OrdEntryKind, OrdInsertKind, OrdPair};

#[test]
fn pairs_are_shown_and_written(rt: HostRuntime) {
    let mut pair = OrdPair::new(5u64, "five");
    *pair.v_mut() = "cinq";
    shows(&rt, &pair, "(5, \"cinq\")");
    let (k, v) = pair.k_v_mut();
    assert!(rt; *k == 5);
    *v = "six";
    assert!(rt; pair.k_v() == (&5, &"six"));
    assert!(rt; pair.into_k_v() == (5, "six"));
    shows_long(&rt, &OrdPair::new(1u64, 2u64), "(\n    1,\n    2,\n)");
}

// Pairs compare by the key, and then by the value; equal ones have one hash.
#[test]
fn pairs_compare(rt: HostRuntime) {
    let pair = OrdPair::new(5u64, 7u64);
    assert!(rt; pair == OrdPair::new(5, 7));
    assert!(rt; pair != OrdPair::new(5, 8) && pair != OrdPair::new(6, 7));
    assert!(rt; pair.cmp(&OrdPair::new(5, 8)) == Ordering::Less);
    assert!(rt; pair.cmp(&OrdPair::new(4, 9)) == Ordering::Greater);
    assert!(rt; pair.partial_cmp(&OrdPair::new(5, 7)) == Some(Ordering::Equal));
    assert!(rt; hashed(&pair) == hashed(&OrdPair::new(5u64, 7u64)));
    assert!(rt; hashed(&pair) != hashed(&OrdPair::new(7u64, 5u64)));
}

type Kind = OrdInsertKind<P0, u64>;

#[test]
fn kinds_are_shown_and_compared(rt: HostRuntime) {
    let p_init = P0::invalid().inx();
    let kinds: [Kind; 4] = [
        InsertKind::Empty,
        InsertKind::Normal(5),
        InsertKind::Nonhereditary(5),
        InsertKind::Linear {
            p_init,
            num: 7,
            k: 5,
        },
    ];
    shows(&rt, &kinds[0], "Empty");
    shows(&rt, &kinds[1], "Normal(5)");
    shows(&rt, &kinds[2], "Nonhereditary(5)");
    shows(
        &rt,
        &kinds[3],
        "Linear { p_init: 18446744073709551615, num: 7, k: 5 }",
    );
    let behind: Kind = InsertKind::Manual {
        p_target: p_init,
        direction: Ordering::Greater,
    };
    shows(
        &rt,
        &behind,
        "Manual { p_target: 18446744073709551615, direction: Greater }",
    );
    assert!(rt; kinds[1] == InsertKind::Normal(5) && kinds[1] != InsertKind::Normal(6));
    assert!(rt; kinds[1] != kinds[2] && kinds[0] != behind);
    assert!(rt;
        kinds[3]
            != InsertKind::Linear {
                p_init,
                num: 6,
                k: 5
            }
    );
    let new = OrdEntryKind::New(P0::invalid());
    shows(&rt, &new, "New(P0[ffffffffffffffff](1))");
    shows(
        &rt,
        &OrdEntryKind::Replacing(new.any()),
        "Replacing(P0[ffffffffffffffff](1))",
    );
    assert!(rt; new == OrdEntryKind::New(P0::invalid()));
    assert!(rt; new != OrdEntryKind::Replacing(P0::invalid()));
}
