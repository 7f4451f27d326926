//! What holds of a hint at a line that puts a place in, and of a look for a key.
ghost use Rattle.std.specs.Prelude.{◌≡◌, ◌≢◌, ◌≤◌, ℕ, List, Some, None, Ok, Err};
ghost use Rattle.std.specs.List.{AllByRecursion};
ghost use Rattle.route_lines.specs.Calls.{after_place, after_place_near, found, place_holder};
ghost use Rattle.route_lines.specs.Calls.{placed, placed_near};
ghost use Rattle.route_lines.specs.Sound.{IsSound};
ghost use Rattle.route_lines.specs.State.{Place, State};
ghost use Rattle.route_lines.specs.declared.refusal.Refusal.{Refusal};

/// If the hint names a place, `place` with it answers and does what `place` without it does;
/// else it is refused by the hint and changes nothing.
pub fn hints_change_no_reply()
    ensures reply { (s : State) (near : ℕ) (p : Place)
        → place_holder s near ≡ Ok p → placed_near s near ≡ placed s }
    ensures state { (s : State) (key near : ℕ) (word : List ℕ) (p : Place)
        → place_holder s near ≡ Ok p → after_place_near s key word near ≡ after_place s key word }
    ensures refused { (s : State) (near : ℕ) (refusal : Refusal)
        → place_holder s near ≡ Err refusal → placed_near s near ≡ Err refusal }
    ensures unchanged { (s : State) (key near : ℕ) (word : List ℕ) (refusal : Refusal)
        → place_holder s near ≡ Err refusal → after_place_near s key word near ≡ s }
{}

/// What `find` answers is the smallest ticket of the places with the key; it answers `None` if no
/// place has it.
pub fn finds_answer_the_smallest_ticket()
    ensures smallest { (s : State) (key ticket : ℕ) → IsSound s → found s key ≡ Some ticket
        → AllByRecursion (λ p. p.key ≡ key → ticket ≤ p.ticket) s.places }
    ensures none { (s : State) (key : ℕ) → found s key ≡ None
        → AllByRecursion (λ p. p.key ≢ key) s.places }
{}
