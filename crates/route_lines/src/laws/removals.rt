//! What holds of removals.
ghost use Rattle.std.specs.Prelude.{◌≡◌, ◌≢◌, ◌==◌, ◌+◌, ℕ, List, None, Ok, Err, if◌then◌else◌};
ghost use Rattle.std.specs.Prelude.{length};
ghost use Rattle.std.specs.Option.{option_map};
ghost use Rattle.route_lines.specs.Calls.{after_removed, clear_mark, clear_mark_stop, clear_stop};
ghost use Rattle.route_lines.specs.Calls.{removed};
ghost use Rattle.route_lines.specs.Routes.{next_stop, past};
ghost use Rattle.route_lines.specs.Sound.{IsSound};
ghost use Rattle.route_lines.specs.State.{Mark, Place, State, Stop, holder, mark, mark_of, place};
ghost use Rattle.route_lines.specs.State.{place_of, stop, stop_list, stop_of};
ghost use Rattle.route_lines.specs.Text.{Line, after_lines};
ghost use Rattle.route_lines.specs.declared.refusal.Refusal.TheVariants.{Gone};

/// A removed place is gone, and so is each reference to it. All else stays, and which stop follows
/// which.
pub fn removed_places_leave_no_reference()
    ensures places { (s : State) (t x : ℕ) (p : Place) → IsSound s → holder s t ≡ Ok (place p)
        → place_of (after_removed s t).places x ≡ if x == t then None else place_of s.places x }
    ensures stops { (s : State) (t x : ℕ) (p : Place) → IsSound s → holder s t ≡ Ok (place p)
        → stop_of (after_removed s t).routes x ≡ option_map (clear_stop t) (stop_of s.routes x) }
    ensures marks { (s : State) (t x : ℕ) (p : Place) → IsSound s → holder s t ≡ Ok (place p)
        → mark_of (after_removed s t).marks x ≡ option_map (clear_mark t) (mark_of s.marks x) }
    ensures next { (s : State) (t x : ℕ) (p : Place) → IsSound s → holder s t ≡ Ok (place p)
        → next_stop (after_removed s t).routes x ≡ next_stop s.routes x }
    ensures place_count { (s : State) (t : ℕ) (p : Place) → IsSound s → holder s t ≡ Ok (place p)
        → length (after_removed s t).places + 1 ≡ length s.places }
    ensures stop_count { (s : State) (t : ℕ) (p : Place) → IsSound s → holder s t ≡ Ok (place p)
        → length (stop_list (after_removed s t).routes) ≡ length (stop_list s.routes) }
    ensures mark_count { (s : State) (t : ℕ) (p : Place) → IsSound s → holder s t ≡ Ok (place p)
        → length (after_removed s t).marks ≡ length s.marks }
{}

/// A removed stop is gone, and so is each reference to it. The stop before it is followed by the
/// one that followed it, and all else stays.
pub fn removed_stops_join_their_neighbors()
    ensures stops { (s : State) (t x : ℕ) (u : Stop) → IsSound s → holder s t ≡ Ok (stop u)
        → stop_of (after_removed s t).routes x ≡ if x == t then None else stop_of s.routes x }
    ensures next { (s : State) (t x : ℕ) (u : Stop) → IsSound s → holder s t ≡ Ok (stop u) → x ≢ t
        → next_stop (after_removed s t).routes x
        ≡ past t (next_stop s.routes t) (next_stop s.routes x) }
    ensures places { (s : State) (t : ℕ) (u : Stop) → IsSound s → holder s t ≡ Ok (stop u)
        → (after_removed s t).places ≡ s.places }
    ensures marks { (s : State) (t x : ℕ) (u : Stop) → IsSound s → holder s t ≡ Ok (stop u)
        → mark_of (after_removed s t).marks x ≡ option_map (clear_mark_stop t) (mark_of s.marks x) }
    ensures stop_count { (s : State) (t : ℕ) (u : Stop) → IsSound s → holder s t ≡ Ok (stop u)
        → length (stop_list (after_removed s t).routes) + 1 ≡ length (stop_list s.routes) }
    ensures mark_count { (s : State) (t : ℕ) (u : Stop) → IsSound s → holder s t ≡ Ok (stop u)
        → length (after_removed s t).marks ≡ length s.marks }
{}

/// A removed mark is gone, and all else stays.
pub fn removed_marks_leave_all_else()
    ensures marks { (s : State) (t x : ℕ) (m : Mark) → IsSound s → holder s t ≡ Ok (mark m)
        → mark_of (after_removed s t).marks x ≡ if x == t then None else mark_of s.marks x }
    ensures places { (s : State) (t : ℕ) (m : Mark) → IsSound s → holder s t ≡ Ok (mark m)
        → (after_removed s t).places ≡ s.places }
    ensures routes { (s : State) (t : ℕ) (m : Mark) → IsSound s → holder s t ≡ Ok (mark m)
        → (after_removed s t).routes ≡ s.routes }
    ensures mark_count { (s : State) (t : ℕ) (m : Mark) → IsSound s → holder s t ≡ Ok (mark m)
        → length (after_removed s t).marks + 1 ≡ length s.marks }
{}

/// A removal gives no ticket and changes no room, and the removed ticket is gone. A ticket that is
/// gone stays so, whatever lines follow.
pub fn removed_tickets_are_gone()
    ensures last { (s : State) (t : ℕ) → (after_removed s t).last ≡ s.last }
    ensures rooms { (s : State) (t : ℕ) → (after_removed s t).rooms ≡ s.rooms }
    ensures gone { (s : State) (t : ℕ) → IsSound s → removed s t ≡ Ok tt
        → holder (after_removed s t) t ≡ Err Gone }
    ensures for_ever { (s : State) (t : ℕ) (lines : List Line) → IsSound s
        → holder s t ≡ Err Gone → holder (after_lines s lines) t ≡ Err Gone }
{}
