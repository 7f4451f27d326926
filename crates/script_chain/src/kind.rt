//! Where an insertion puts its link, as a line says it.
use test_kit::{Call, index, pointer};
use triple_arena::PtrCore;
use triple_arena_chain::LinkInsertKind;

/// The kind with this name. Its pointers, or their indexes, are in the line's numbers behind the
/// value.
pub fn kind<P: PtrCore>(name: &str, call: &Call<'_>) -> Option<LinkInsertKind<P>> {
    match name {
        "Disconnected" => Some(LinkInsertKind::Disconnected),
        "SingleLinkCyclic" => Some(LinkInsertKind::SingleLinkCyclic),
        "ChainEnd" => Some(LinkInsertKind::ChainEnd(first(call))),
        "ChainStart" => Some(LinkInsertKind::ChainStart(first(call))),
        "NextTo" => Some(LinkInsertKind::NextTo(first(call))),
        "PrevTo" => Some(LinkInsertKind::PrevTo(first(call))),
        "AtInterlink" => Some(LinkInsertKind::AtInterlink(first(call), second(call))),
        "Bridge" => Some(LinkInsertKind::Bridge(first(call), second(call))),
        _ => kind_inx(name, call),
    }
}

// The kinds by indexes.
fn kind_inx<P: PtrCore>(name: &str, call: &Call<'_>) -> Option<LinkInsertKind<P>> {
    let (i, j) = (index(call.second), index(call.third));
    match name {
        "ChainEndInx" => Some(LinkInsertKind::ChainEndInx(i)),
        "ChainStartInx" => Some(LinkInsertKind::ChainStartInx(i)),
        "NextToInx" => Some(LinkInsertKind::NextToInx(i)),
        "PrevToInx" => Some(LinkInsertKind::PrevToInx(i)),
        "AtInterlinkInx" => Some(LinkInsertKind::AtInterlinkInx(i, j)),
        "BridgeInx" => Some(LinkInsertKind::BridgeInx(i, j)),
        _ => None,
    }
}

// The first pointer behind the value.
fn first<P: PtrCore>(call: &Call<'_>) -> P {
    pointer(call.second, call.third)
}

// The second pointer behind the value.
fn second<P: PtrCore>(call: &Call<'_>) -> P {
    pointer(call.fourth, call.fifth)
}
