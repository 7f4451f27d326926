//! A section's calls, at arenas of any kind.
use crate::player::{Partner, Player};
use script_calls::Limiting;
use test_kit::{Call, Transcript};
use triple_arena::ReallocationError;

/// Makes the arenas of a section, and its calls.
pub fn play<
    H: Copy + Drop,
    A: Player<Alloc = H> + Partner<L, V>,
    L: Player<Alloc = H>,
    V: Player<Alloc = H>,
    M: Limiting<A>,
>(
    alloc: H,
    transcript: &mut Transcript,
    header: &Call<'_>,
    calls: &str,
) -> Result<(), ReallocationError> {
    let room = header.first as usize;
    let mut a = A::with_room(alloc, room)?;
    let mut b = A::with_room(alloc, room)?;
    let mut l = L::with_room(alloc, room)?;
    let mut v = V::with_room(alloc, room)?;
    for line in calls.lines() {
        let call = Call::new(line);
        play_line::<H, A, L, V, M>(&mut a, &mut b, &mut l, &mut v, alloc, transcript, &call);
    }
    Ok(())
}

fn play_line<
    H: Copy + Drop,
    A: Player<Alloc = H> + Partner<L, V>,
    L: Player<Alloc = H>,
    V: Player<Alloc = H>,
    M: Limiting<A>,
>(
    a: &mut A,
    b: &mut A,
    l: &mut L,
    v: &mut V,
    alloc: H,
    transcript: &mut Transcript,
    call: &Call<'_>,
) {
    match call.whom {
        "a" => a.call(transcript, call),
        "b" => b.call(transcript, call),
        "l" => l.call(transcript, call),
        "v" => v.call(transcript, call),
        "a|" => M::limit(a, transcript, call),
        "a=b" => a.become_copy(b, alloc, transcript, call),
        "a<b" => a.take_chains(b, transcript, call),
        "a=l" => a.take_links(l, alloc, transcript, call),
        "v=a" => a.copy_values(v, transcript, call),
        _ => transcript.line(call.line),
    }
}
