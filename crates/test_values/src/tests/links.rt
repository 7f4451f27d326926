//! Links of chains and kinds of their insertion, as values.
ghost use Rattle.std.specs.Prelude.{◌≡◌};

use crate::tests::values::{displays, hashed, shows};
use triple_arena::{P0, PtrCore};
use triple_arena_chain::{Link, LinkInsertKind, LinkNoGen};

// A link that has a next one.
#[test]
fn texts_of_links(rt: HostRuntime) {
    let link = Link::<P0, &'static str>::new((None, Some(P0::invalid())), "test");
    displays(&rt, &link, "(-, P0[ffffffffffffffff](1)) test");
    let indexes = link.no_gen();
    displays(&rt, &indexes, "(-, ffffffffffffffff) test");
    shows(
        &rt,
        &indexes,
        "IndexLink { prev: None, next: Some(18446744073709551615), t: \"test\" }",
    );
}

#[test]
fn texts_of_kinds(rt: HostRuntime) {
    shows(&rt, &LinkInsertKind::<P0>::Disconnected, "Disconnected");
    let p = P0::invalid();
    let i = p.inx();
    shows(
        &rt,
        &LinkInsertKind::<P0>::AtInterlinkInx(i, i),
        "AtInterlinkInx(18446744073709551615, 18446744073709551615)",
    );
    shows(
        &rt,
        &LinkInsertKind::NextTo(p),
        "NextTo(P0[ffffffffffffffff](1))",
    );
}

#[test]
fn links_as_values(rt: HostRuntime) {
    let low = LinkNoGen::<P0, u64>::new((None, None), 1);
    let high = LinkNoGen::<P0, u64>::new((None, None), 2);
    let copy = low;
    assert!(rt; low == copy);
    assert!(rt; low < high);
    let link = Link::<P0, u64>::new((None, None), 1);
    assert!(rt; link == link);
    assert!(rt; link < Link::new((None, Some(P0::invalid())), 0));
    assert!(rt; *link.no_gen_ref().t == 1);
    assert!(rt; link.no_gen() == low);
}

// Kinds are equal if their variants and what they name are, and go by the order of their variants
// first.
#[test]
fn kinds_as_values(rt: HostRuntime) {
    let p = P0::invalid();
    let end = LinkInsertKind::ChainEnd(p);
    assert!(rt; LinkInsertKind::<P0>::Disconnected != end);
    assert!(rt; LinkInsertKind::<P0>::Disconnected < end);
    assert!(rt; end == LinkInsertKind::ChainEnd(p));
    assert!(rt; end != LinkInsertKind::ChainStart(p));
    assert!(rt; end < LinkInsertKind::Bridge(p, p));
}

// Equal links and kinds have one hash; those that are told apart here have two.
#[test]
fn hashes(rt: HostRuntime) {
    let p = P0::invalid();
    let link = Link::<P0, u64>::new((None, Some(p)), 1);
    assert!(rt; hashed(&link) == hashed(&Link::<P0, u64>::new((None, Some(p)), 1)));
    assert!(rt; hashed(&link) != hashed(&Link::<P0, u64>::new((Some(p), None), 1)));
    assert!(rt; hashed(&link.no_gen()) == hashed(&link.no_gen()));
    assert!(rt; hashed(&link.no_gen()) != hashed(&LinkNoGen::<P0, u64>::new((None, None), 1)));
    let kind = LinkInsertKind::NextTo(p);
    assert!(rt; hashed(&kind) == hashed(&LinkInsertKind::NextTo(p)));
    assert!(rt; hashed(&kind) != hashed(&LinkInsertKind::PrevTo(p)));
}
