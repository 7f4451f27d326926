//! A section's calls, at arenas of any kind.
use crate::player::{Partner, Player};
use script_calls::Limiting;
use test_kit::{Call, Transcript};
use triple_arena::ReallocationError;

/// Makes the arenas of a section, and its calls.
pub fn play<
    H: Copy + Drop,
    A: Player<Alloc = H> + Partner<D>,
    D: Player<Alloc = H>,
    L: Limiting<A> + Limiting<D>,
>(
    alloc: H,
    transcript: &mut Transcript,
    header: &Call<'_>,
    calls: &str,
) -> Result<(), ReallocationError> {
    let (mut a, mut b) = make_two::<H, A>(alloc, header)?;
    let (mut d, mut e) = make_two::<H, D>(alloc, header)?;
    for line in calls.lines() {
        play_line::<A, D, L>(&mut a, &mut b, &mut d, &mut e, transcript, &Call::new(line));
    }
    if header.fifth == 1 {
        a.show_clone(alloc, transcript);
        d.show_clone(alloc, transcript);
        b.go_over(transcript);
        e.go_over(transcript);
    }
    Ok(())
}

// Two arenas, of which the other one has the more room that the header says.
fn make_two<H: Copy + Drop, A: Player<Alloc = H>>(
    alloc: H,
    header: &Call<'_>,
) -> Result<(A, A), ReallocationError> {
    let room = header.first as usize;
    let one = A::with_room(alloc, room)?;
    let other = A::with_room(alloc, room.saturating_add(header.fourth as usize))?;
    Ok((one, other))
}

fn play_line<A: Player + Partner<D>, D: Player, L: Limiting<A> + Limiting<D>>(
    a: &mut A,
    b: &mut A,
    d: &mut D,
    e: &mut D,
    transcript: &mut Transcript,
    call: &Call<'_>,
) {
    match call.whom {
        "a" => a.call(transcript, call),
        "b" => b.call(transcript, call),
        "d" => d.call(transcript, call),
        "e" => e.call(transcript, call),
        "a|" => limit::<A, L>(a, transcript, call),
        "d|" => limit::<D, L>(d, transcript, call),
        "a~b" => a.become_clone(b, transcript, call),
        "d~e" => d.become_clone(e, transcript, call),
        _ => a.call_among(b, d, e, transcript, call),
    }
}

fn limit<A, L: Limiting<A>>(arena: &mut A, transcript: &mut Transcript, call: &Call<'_>) {
    L::limit(arena, transcript, call)
}
