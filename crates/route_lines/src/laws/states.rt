//! What holds of every state that lines lead to, and of equal states.
ghost use Rattle.std.specs.Prelude.{◌≡◌, ℕ, List, Option, Some};
ghost use Rattle.route_lines.specs.Changes.{changed};
ghost use Rattle.route_lines.specs.Number.{IsNumber};
ghost use Rattle.route_lines.specs.Run.{Carries};
ghost use Rattle.route_lines.specs.Sound.{IsNumbered, IsPossible, IsSound};
ghost use Rattle.route_lines.specs.State.{Rooms, State, empty};
ghost use Rattle.route_lines.specs.Text.{Line, after_lines};
ghost use Rattle.route_lines.specs.declared.change.Change.{Change};
ghost use Rattle.route_lines.specs.declared.counts.Counts.{Counts};

/// Whatever lines are carried out, the tickets were given and no two items have one, the places
/// rise, the words are words, the routes and marks stand in their order, and no more items of a
/// kind live than its room holds.
pub fn states_are_sound()
    ensures { (rooms : Rooms) (last : ℕ) (lines : List Line)
        → IsSound (after_lines (empty rooms last) lines) }
{}

/// Whatever lines are carried out, the last ticket and every key are below 2^64, as the last ticket
/// was at first.
pub fn states_are_numbered()
    ensures { (rooms : Rooms) (last : ℕ) (lines : List Line) → IsNumber last
        → IsNumbered (after_lines (empty rooms last) lines) }
{}

/// What a sound state keeps, it keeps at each change.
pub fn changes_keep_states_sound()
    ensures sound { (s : State) (change : Change) → IsPossible s change → IsSound s
        → IsSound (changed s change) }
    ensures numbered { (s : State) (change : Change) → IsPossible s change → IsNumbered s
        → IsNumbered (changed s change) }
{}

/// Two stores of equal state, whatever they are made of, write equal bytes for equal lines while no
/// read or write fails, and then have equal states again.
pub fn equal_states_answer_equally()
    ensures state { (s t later other : State) (lines : List Line)
        (held written kept copied : Option (List ℕ)) (before after began ended : Counts) → s ≡ t
        → Carries s lines later held written before after
        → Carries t lines other kept copied began ended → later ≡ other }
    ensures bytes { (s t later other : State) (lines : List Line) (held : List ℕ)
        (written copied : Option (List ℕ)) (before after began ended : Counts) → s ≡ t
        → Carries s lines later (Some held) written before after
        → Carries t lines other (Some held) copied began ended → written ≡ copied }
{}
