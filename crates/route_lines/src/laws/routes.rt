//! What holds of joins, cuts and swaps of routes.
ghost use Rattle.std.specs.Prelude.{◌≡◌, ◌≢◌, ◌↔◌, ◌+◌, ◌∷◌, ◌++◌, ℕ, List, Some, None, IfSome, Ok};
ghost use Rattle.std.specs.Prelude.{false, length, reverse};
ghost use Rattle.std.specs.List.{AllByRecursion};
ghost use Rattle.route_lines.specs.Calls.{after_cut, after_extend, after_join, after_start};
ghost use Rattle.route_lines.specs.Calls.{after_swap, extended, joined, parted, started, swapped};
ghost use Rattle.route_lines.specs.Cuts.{first_item};
ghost use Rattle.route_lines.specs.Leads.{Leads, closes_at, AreOnRoutes, IsOpenList, IsRound};
ghost use Rattle.route_lines.specs.Routes.{next_stop, previous_stop, walk_from};
ghost use Rattle.route_lines.specs.Sound.{IsSound};
ghost use Rattle.route_lines.specs.State.{State, Stop, stop_list, stop_of};

/// A stop follows another exactly if that one is its previous one.
pub fn stops_follow_their_previous_ones()
    ensures { (s : State) (t u : ℕ) → IsSound s
        → (next_stop s.routes t ≡ Some u) ↔ (previous_stop s.routes u ≡ Some t) }
{}

/// A `join` that answers `ok`, then a `cut` of its first stop, leaves the state as it was.
pub fn cuts_undo_joins()
    ensures { (s : State) (t u : ℕ) → IsSound s → joined s t u ≡ Ok tt
        → after_cut (after_join s t u) t ≡ s }
{}

/// A `swap` that answers `ok`, and the same once more, leave the state as it was.
pub fn swaps_undo_swaps()
    ensures { (s : State) (t u : ℕ) → IsSound s → swapped s t u ≡ Ok tt
        → after_swap (after_swap s t u) t u ≡ s }
{}

/// After a `join` that answers `ok` the second stop follows the first, and every other stop is
/// followed as before.
pub fn joins_lead_on()
    ensures next { (s : State) (t u : ℕ) → IsSound s → joined s t u ≡ Ok tt
        → next_stop (after_join s t u).routes t ≡ Some u }
    ensures others { (s : State) (t u v : ℕ) → IsSound s → joined s t u ≡ Ok tt → v ≢ t
        → next_stop (after_join s t u).routes v ≡ next_stop s.routes v }
{}

/// After a `cut` that answers `ok` no stop follows this one, and every other stop is followed as
/// before.
pub fn cuts_part_one_stop()
    ensures next { (s : State) (t : ℕ) → IsSound s → parted s t ≡ Ok tt
        → next_stop (after_cut s t).routes t ≡ None }
    ensures others { (s : State) (t v : ℕ) → IsSound s → parted s t ≡ Ok tt → v ≢ t
        → next_stop (after_cut s t).routes v ≡ next_stop s.routes v }
{}

/// A `swap` that answers `ok` exchanges the stops that follow the two, and every other stop is
/// followed as before.
pub fn swaps_exchange_next_stops()
    ensures first { (s : State) (t u : ℕ) → IsSound s → swapped s t u ≡ Ok tt
        → next_stop (after_swap s t u).routes t ≡ next_stop s.routes u }
    ensures second { (s : State) (t u : ℕ) → IsSound s → swapped s t u ≡ Ok tt
        → next_stop (after_swap s t u).routes u ≡ next_stop s.routes t }
    ensures others { (s : State) (t u v : ℕ) → IsSound s → swapped s t u ≡ Ok tt → v ≢ t → v ≢ u
        → next_stop (after_swap s t u).routes v ≡ next_stop s.routes v }
{}

/// After a `start` that answers a ticket no stop follows the new one, and every other stop is
/// followed as before.
pub fn starts_lead_nowhere()
    ensures next { (s : State) (at n : ℕ) → IsSound s → started s at ≡ Ok n
        → next_stop (after_start s at).routes n ≡ None }
    ensures others { (s : State) (at n v : ℕ) → IsSound s → started s at ≡ Ok n → v ≢ n
        → next_stop (after_start s at).routes v ≡ next_stop s.routes v }
{}

/// After an `extend` that answers a ticket the new stop follows the first and is followed as that
/// was, and every other stop is followed as before.
pub fn extensions_lead_through()
    ensures next { (s : State) (t at n : ℕ) → IsSound s → extended s t at ≡ Ok n
        → next_stop (after_extend s t at).routes t ≡ Some n }
    ensures new { (s : State) (t at n : ℕ) → IsSound s → extended s t at ≡ Ok n
        → next_stop (after_extend s t at).routes n ≡ next_stop s.routes t }
    ensures others { (s : State) (t at n v : ℕ) → IsSound s → extended s t at ≡ Ok n → v ≢ t → v ≢ n
        → next_stop (after_extend s t at).routes v ≡ next_stop s.routes v }
{}

/// A join, a cut and a swap leave the stop of each ticket, and the number of stops, as they were.
pub fn stops_stay_as_routes_change()
    ensures joined { (s : State) (t u k : ℕ) → IsSound s
        → stop_of (after_join s t u).routes k ≡ stop_of s.routes k }
    ensures parted { (s : State) (t k : ℕ) → IsSound s
        → stop_of (after_cut s t).routes k ≡ stop_of s.routes k }
    ensures swapped { (s : State) (t u k : ℕ) → IsSound s
        → stop_of (after_swap s t u).routes k ≡ stop_of s.routes k }
    ensures joined_count { (s : State) (t u : ℕ) → IsSound s
        → length (stop_list (after_join s t u).routes) ≡ length (stop_list s.routes) }
    ensures parted_count { (s : State) (t : ℕ) → IsSound s
        → length (stop_list (after_cut s t).routes) ≡ length (stop_list s.routes) }
    ensures swapped_count { (s : State) (t u : ℕ) → IsSound s
        → length (stop_list (after_swap s t u).routes) ≡ length (stop_list s.routes) }
{}

/// After an `extend` that answers a ticket the new stop stands under it, each other stop under its
/// own, and there is one stop more.
pub fn extensions_add_one_stop()
    ensures new { (s : State) (t at n : ℕ) → IsSound s → extended s t at ≡ Ok n
        → stop_of (after_extend s t at).routes n ≡ Some (record { ticket = n; place = Some at }) }
    ensures others { (s : State) (t at n k : ℕ) → IsSound s → extended s t at ≡ Ok n → k ≢ n
        → stop_of (after_extend s t at).routes k ≡ stop_of s.routes k }
    ensures count { (s : State) (t at n : ℕ) → IsSound s → extended s t at ≡ Ok n
        → length (stop_list (after_extend s t at).routes) ≡ length (stop_list s.routes) + 1 }
{}

/// Along each route every stop is followed by the one behind it, the last stop of a ring by its
/// first one, and the last stop of another route by none. No stop comes before the first one of a
/// route that is no ring, and each stop stands under its ticket.
pub fn routes_lead_along()
    ensures next { (s : State) → IsSound s
        → AllByRecursion (λ r. Leads (next_stop s.routes) (closes_at r) r.stops) s.routes }
    ensures first { (s : State) → IsSound s → AllByRecursion (λ r. r.is_ring ≡ false
        → IfSome (first_item r.stops) (λ t. previous_stop s.routes t.ticket ≡ None)) s.routes }
    ensures stops { (s : State) → IsSound s → AreOnRoutes s.routes (stop_list s.routes) }
{}

/// A list of stops that follow one another, before which none comes and behind which none does, is
/// walked from one of them to its end, and then backwards from the stop before it.
pub fn lists_are_walked_both_ways()
    ensures { (s : State) (front behind : List Stop) (t : Stop) → IsSound s
        → IsOpenList s.routes (front ++ t ∷ behind)
        → walk_from t.ticket s.routes ≡ (t ∷ behind) ++ reverse front }
{}

/// Stops that follow one another from one of them round to it again are walked once round.
pub fn rings_are_walked_once()
    ensures { (s : State) (t : Stop) (behind : List Stop) → IsSound s
        → IsRound s.routes t behind → walk_from t.ticket s.routes ≡ t ∷ behind }
{}
