// What holds of accesses and links, each as the contract of a function that does nothing.
ghost use Rattle.dependences.specs.Laws.{ClashesLandTogether, NoneLandTogether, LinksSpan, LinksCover};

/// Accesses that clash are those of two operations that write one place, not as one wired family, and land in one cycle.
pub fn clashes_land_together()
    ensures { ClashesLandTogether }
{}

/// Where no accesses clash, there are no two such operations.
pub fn none_land_together()
    ensures { NoneLandTogether }
{}

/// Links lead from each operation along chains to just those that it comes before.
pub fn links_span()
    ensures { LinksSpan }
{}

/// The delays of links cover those of all pairs, under every generation.
pub fn links_cover()
    ensures { LinksCover }
{}
