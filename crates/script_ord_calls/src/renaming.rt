//! The arena `x`, whose values are pointers, and the arena `n` of names for them.
use test_kit::{Call, Transcript};

/// An arena that holds pointers under keys, beside one of names for them.
pub trait Renames<N> {
    /// Puts the pointer of the last two numbers under the key of the first, or removes at an index.
    fn hold(&mut self, transcript: &mut Transcript, call: &Call<'_>);

    /// Names the pointer of the two numbers, or takes a name back.
    fn name(names: &mut N, transcript: &mut Transcript, call: &Call<'_>);

    /// Renames the pointers.
    fn rename(&mut self, names: &N, transcript: &mut Transcript, line: &str);
}

/// Makes the calls of a section at two such arenas.
pub fn play_renaming<N, X: Renames<N>>(
    x: &mut X,
    n: &mut N,
    transcript: &mut Transcript,
    lines: &str,
) {
    for line in lines.lines() {
        let call = Call::new(line);
        match call.whom {
            "x" => x.hold(transcript, &call),
            "n" => X::name(n, transcript, &call),
            "x<n" => x.rename(n, transcript, line),
            _ => transcript.line(line),
        }
    }
}
