//! What holds of the looks that sweeps make.
ghost use Rattle.route_lines.specs.Sweeps.{AreFew};

/// From counters that are both 2, k packs and R removals of places and stops make at most the looks
/// of k + R / (G - 2) sweeps. G is the greatest generation, and the quotient is rounded down.
pub fn sweeps()
    ensures { AreFew }
{}
