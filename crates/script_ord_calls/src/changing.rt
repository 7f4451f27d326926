//! The calls that change the counter or an item.
use test_kit::{Call, Transcript};

/// What makes the changes that are the ordered arena's own.
pub trait Writes {
    fn write_generation(&mut self, transcript: &mut Transcript, call: &Call<'_>);

    fn step_generation(&mut self, transcript: &mut Transcript, line: &str);

    /// Puts the pair of the first two numbers in.
    fn put(&mut self, transcript: &mut Transcript, call: &Call<'_>);

    /// Gets an entry with the key of that pair, or puts the pair in.
    fn get_or_put(&mut self, transcript: &mut Transcript, call: &Call<'_>);

    fn get_or_put_within_capacity(&mut self, transcript: &mut Transcript, call: &Call<'_>);

    /// Writes by `arena[p]`, if the pointer is valid, and says whether it is.
    fn write_item(&mut self, transcript: &mut Transcript, call: &Call<'_>);

    /// Writes the value of a pair alone, and answers the one that it had.
    fn write_value(&mut self, transcript: &mut Transcript, call: &Call<'_>);

    fn pop_first(&mut self, transcript: &mut Transcript, line: &str);

    fn pop_last(&mut self, transcript: &mut Transcript, line: &str);
}

/// Makes such a call, and says whether there is one of that name.
pub fn changes<A: Writes>(arena: &mut A, transcript: &mut Transcript, call: &Call<'_>) -> bool {
    let line = call.line;
    match call.verb {
        "set_generation" => arena.write_generation(transcript, call),
        "inc_generation" => arena.step_generation(transcript, line),
        "insert" => arena.put(transcript, call),
        "get_or_insert" => arena.get_or_put(transcript, call),
        "get_or_insert_within_capacity" => arena.get_or_put_within_capacity(transcript, call),
        "index_set" => arena.write_item(transcript, call),
        "set_value" => arena.write_value(transcript, call),
        "pop_first" => arena.pop_first(transcript, line),
        "pop_last" => arena.pop_last(transcript, line),
        _ => return false,
    }
    true
}
