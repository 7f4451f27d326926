//! What the arenas of a script are to its lines.
use test_kit::{Call, Transcript};

/// What makes the calls of the lines that name it.
pub trait Player {
    /// Makes the call that a line names.
    fn play(&mut self, transcript: &mut Transcript, call: &Call<'_>);
}

/// What compares its list with that of another arena.
pub trait Compare<B> {
    /// Makes the comparison that a line names.
    fn compare(&self, other: &B, transcript: &mut Transcript, call: &Call<'_>);
}

/// Makes the calls of a section at two arenas.
pub fn play_beside<A: Player + Compare<B>, B: Player + Compare<A>>(
    a: &mut A,
    b: &mut B,
    transcript: &mut Transcript,
    lines: &str,
) {
    for line in lines.lines() {
        play_line(a, b, transcript, &Call::new(line));
    }
}

fn play_line<A: Player + Compare<B>, B: Player + Compare<A>>(
    a: &mut A,
    b: &mut B,
    transcript: &mut Transcript,
    call: &Call<'_>,
) {
    match call.whom {
        "a" => a.play(transcript, call),
        "b" => b.play(transcript, call),
        "ab" => a.compare(b, transcript, call),
        "ba" => b.compare(a, transcript, call),
        _ => transcript.line(call.line),
    }
}

/// What makes the calls of the lines that name it with keys that count.
pub trait CountingPlayer<K> {
    /// Makes the call that a line names. The key is 0, and counts where the others do.
    fn play_counting(&mut self, transcript: &mut Transcript, call: &Call<'_>, zero: K);
}

/// Makes the calls of a section at one such arena.
pub fn play_counted<K: Copy, A: CountingPlayer<K>>(
    arena: &mut A,
    zero: K,
    transcript: &mut Transcript,
    lines: &str,
) {
    for line in lines.lines() {
        let call = Call::new(line);
        if call.whom == "a" {
            arena.play_counting(transcript, &call, zero);
        } else {
            transcript.line(line);
        }
    }
}
