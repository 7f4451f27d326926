//! The calls that read a list.
use test_kit::{Call, Transcript};

/// What answers the reads that are the ordered arena's own.
pub trait TellsOfList {
    fn tell_generation(&self, transcript: &mut Transcript, line: &str);

    fn tell_first(&self, transcript: &mut Transcript, line: &str);

    fn tell_last(&self, transcript: &mut Transcript, line: &str);

    fn tell_place(&self, transcript: &mut Transcript, call: &Call<'_>);

    fn tell_lower_bound(&self, transcript: &mut Transcript, call: &Call<'_>);

    fn tell_upper_bound(&self, transcript: &mut Transcript, call: &Call<'_>);

    /// Reads by `arena[p]`, if the pointer is valid.
    fn tell_item(&self, transcript: &mut Transcript, call: &Call<'_>);

    /// The generation, the neighbors and the item at an index.
    fn tell_link(&self, transcript: &mut Transcript, call: &Call<'_>);
}

/// Makes such a call, and says whether there is one of that name.
pub fn reads_list<A: TellsOfList>(arena: &A, transcript: &mut Transcript, call: &Call<'_>) -> bool {
    let line = call.line;
    match call.verb {
        "generation" => arena.tell_generation(transcript, line),
        "first" => arena.tell_first(transcript, line),
        "last" => arena.tell_last(transcript, line),
        "find_key" => arena.tell_place(transcript, call),
        "lower_bound" => arena.tell_lower_bound(transcript, call),
        "upper_bound" => arena.tell_upper_bound(transcript, call),
        "index" => arena.tell_item(transcript, call),
        "get_inx_link_no_gen" => arena.tell_link(transcript, call),
        _ => return false,
    }
    true
}
