//! Copies among arenas: the ordered arenas `a` and `c`, the chain arena `h` and the arena `v` of
//! values. `a<c transfer_canonical G` moves the entries of `c` to `a`, under that generation;
//! `a* compress_with 1` compresses `a` with a reset.
use crate::players::Player;
use test_kit::{Call, Transcript};

/// An ordered arena that takes clones of others of its type, and moves its entries. Each map tells
/// what it gets, and adds 1 to the value.
pub trait Copies<H> {
    /// Becomes a clone of the source, or a new clone, if that is made.
    fn clones(&mut self, source: &Self, alloc: H, transcript: &mut Transcript, call: &Call<'_>);

    /// Takes the entries of the source.
    fn transfers(&mut self, source: &mut Self, transcript: &mut Transcript, call: &Call<'_>);

    /// Moves the entries to the first indexes.
    fn compresses(&mut self, transcript: &mut Transcript, call: &Call<'_>);
}

/// One that gives a clone to an arena of another type. The map tells what it gets, adds 1 to the
/// value, and refuses at the call of the first number.
pub trait Gives<B> {
    fn gives(&self, target: &mut B, transcript: &mut Transcript, call: &Call<'_>);
}

/// An arena that takes a limit.
pub trait Limits {
    /// Sets it to the first number.
    fn limit(&mut self, transcript: &mut Transcript, call: &Call<'_>);
}

/// Makes the calls of a section at four arenas.
pub fn play_copies<H: Copy, C: Player, V: Player, A: Player + Copies<H> + Gives<C> + Gives<V>>(
    a: &mut A,
    c: &mut A,
    h: &mut C,
    v: &mut V,
    alloc: H,
    transcript: &mut Transcript,
    lines: &str,
) {
    for line in lines.lines() {
        let call = Call::new(line);
        match call.whom {
            "h" => h.play(transcript, &call),
            "v" => v.play(transcript, &call),
            "h=a" => a.gives(h, transcript, &call),
            "v=a" => a.gives(v, transcript, &call),
            _ => play_line(a, c, alloc, transcript, &call),
        }
    }
}

/// Makes the calls of a section at `a` and `c`, which take a limit.
pub fn play_limited_copies<H: Copy, A: Player + Copies<H> + Limits>(
    a: &mut A,
    c: &mut A,
    alloc: H,
    transcript: &mut Transcript,
    lines: &str,
) {
    for line in lines.lines() {
        let call = Call::new(line);
        match call.whom {
            "a|" => a.limit(transcript, &call),
            "c|" => c.limit(transcript, &call),
            _ => play_line(a, c, alloc, transcript, &call),
        }
    }
}

fn play_line<H: Copy, A: Player + Copies<H>>(
    a: &mut A,
    c: &mut A,
    alloc: H,
    transcript: &mut Transcript,
    call: &Call<'_>,
) {
    match call.whom {
        "a" => a.play(transcript, call),
        "c" => c.play(transcript, call),
        "c=a" => c.clones(a, alloc, transcript, call),
        "a<c" => a.transfers(c, transcript, call),
        "a*" => a.compresses(transcript, call),
        _ => transcript.line(call.line),
    }
}
