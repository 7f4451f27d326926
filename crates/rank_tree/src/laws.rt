//! What follows from the rules of ranks, and what the bound on comparisons is.
ghost use Rattle.std.specs.Prelude.{◌≡◌, ◌+◌, ◌*◌, ◌^◌, ◌<◌, ◌≤◌, ℕ, List, Option};
ghost use Rattle.rank_tree.specs.Comparisons.{most_comparisons};
ghost use Rattle.rank_tree.specs.Halving.{IsHalvingOf};
ghost use Rattle.rank_tree.specs.Store.{Store};
ghost use Rattle.rank_tree.specs.Tree.{Tree, IsRanked, height, rank_of, size};
ghost use Rattle.rank_tree.specs.Shape.{RepresentsTree};

/// No path in a tree that keeps the rules has more nodes than the rank r of its root. A tree of n
/// nodes, if n is not 0, has `2^(r+1) <= (n+1)^2`.
pub fn paths_are_short()
    ensures high { (t : Tree) → IsRanked t → height t ≤ rank_of t }
    ensures low { (t : Tree) → IsRanked t → 0 < size t
        → 2 ^ (rank_of t + 1) ≤ (size t + 1) * (size t + 1) }
{}

/// The bound on a search's comparisons among n entries is the greatest c with `2^(c+1) <= (n+1)^2`,
/// and 0 among none.
pub fn the_bound_is_the_greatest()
    ensures bound { (n : ℕ) → 0 < n → 2 ^ (most_comparisons n + 1) ≤ (n + 1) * (n + 1) }
    ensures greatest { (n c : ℕ) → 2 ^ (c + 1) ≤ (n + 1) * (n + 1) → c ≤ most_comparisons n }
    ensures none { most_comparisons 0 ≡ 0 }
{}

/// The nodes determine the tree that hangs from a root.
pub fn nodes_determine_the_tree()
    ensures { (nodes : Store) (root : Option ℕ) (t u : Tree) → RepresentsTree nodes root t
        → RepresentsTree nodes root u → t ≡ u }
{}

/// The halving tree of a list keeps the rules, and a list has no more than one.
pub fn halving_trees_keep_the_rules()
    ensures ranked { (w : List ℕ) (t : Tree) → IsHalvingOf w t → IsRanked t }
    ensures one { (w : List ℕ) (t u : Tree) → IsHalvingOf w t → IsHalvingOf w u → t ≡ u }
{}
