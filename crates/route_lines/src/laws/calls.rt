//! What holds of every call that may be refused, and of every call that gives a ticket.
ghost use Rattle.std.specs.Prelude.{◌≡◌, ◌+◌, ℕ, List, Ok, Err};
ghost use Rattle.route_lines.specs.Calls.{after_cut, after_extend, after_join, after_mark};
ghost use Rattle.route_lines.specs.Calls.{after_place, after_removed, after_start, after_swap};
ghost use Rattle.route_lines.specs.Calls.{after_word, extended, joined, marked, parted, placed};
ghost use Rattle.route_lines.specs.Calls.{removed, started, swapped, worded};
ghost use Rattle.route_lines.specs.State.{State};
ghost use Rattle.route_lines.specs.declared.refusal.Refusal.{Refusal};

/// A refused call leaves the state as it was, so that it uses no ticket.
pub fn refused_calls_change_nothing()
    ensures place { (s : State) (key : ℕ) (word : List ℕ) (refusal : Refusal)
        → placed s ≡ Err refusal → after_place s key word ≡ s }
    ensures word { (s : State) (t : ℕ) (word : List ℕ) (refusal : Refusal)
        → worded s t ≡ Err refusal → after_word s t word ≡ s }
    ensures start { (s : State) (at : ℕ) (refusal : Refusal) → started s at ≡ Err refusal
        → after_start s at ≡ s }
    ensures extend { (s : State) (t at : ℕ) (refusal : Refusal) → extended s t at ≡ Err refusal
        → after_extend s t at ≡ s }
    ensures join { (s : State) (t u : ℕ) (refusal : Refusal) → joined s t u ≡ Err refusal
        → after_join s t u ≡ s }
    ensures cut { (s : State) (t : ℕ) (refusal : Refusal) → parted s t ≡ Err refusal
        → after_cut s t ≡ s }
    ensures swap { (s : State) (t u : ℕ) (refusal : Refusal) → swapped s t u ≡ Err refusal
        → after_swap s t u ≡ s }
    ensures mark { (s : State) (at t : ℕ) (refusal : Refusal) → marked s at t ≡ Err refusal
        → after_mark s at t ≡ s }
    ensures remove { (s : State) (t : ℕ) (refusal : Refusal) → removed s t ≡ Err refusal
        → after_removed s t ≡ s }
{}

/// A new ticket is the one after the last, and is the last one from then on.
pub fn new_tickets_come_next()
    ensures place { (s : State) (key ticket : ℕ) (word : List ℕ)
        → placed s ≡ Ok ticket
        → (ticket ≡ s.last + 1) × ((after_place s key word).last ≡ ticket) }
    ensures start { (s : State) (at ticket : ℕ) → started s at ≡ Ok ticket
        → (ticket ≡ s.last + 1) × ((after_start s at).last ≡ ticket) }
    ensures extend { (s : State) (t at ticket : ℕ) → extended s t at ≡ Ok ticket
        → (ticket ≡ s.last + 1) × ((after_extend s t at).last ≡ ticket) }
    ensures mark { (s : State) (at t ticket : ℕ) → marked s at t ≡ Ok ticket
        → (ticket ≡ s.last + 1) × ((after_mark s at t).last ≡ ticket) }
{}
