ghost use Rattle.trees.specs.Canonical.{SharesAreCanonicalTrees};

/// States that tree shares are the canonical trees of height at most 6, and join, halve and print as those do.
pub fn are_canonical_trees()
    ensures { SharesAreCanonicalTrees }
{}
