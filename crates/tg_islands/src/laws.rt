//! Laws: what lists of rules can lead to.
ghost use Rattle.tg_islands.specs.Sharing.{SharedExactly, NothingElse, FewRules, StaysWellFormed, TogetherAsAlone, FloodHasIsland, HelpersSuffice};

/// A right can be shared exactly where some vertex of the island holds it.
pub fn shared_exactly()
    ensures { SharedExactly }
{}

/// No list of rules gives a vertex a right over an opening vertex that its island did not hold.
pub fn nothing_else()
    ensures { NothingElse }
{}

/// Four rules for each link are enough.
pub fn few_rules()
    ensures { FewRules }
{}

/// Rules keep a graph's triples between its vertices, and its names as they should be.
pub fn stays_well()
    ensures { StaysWellFormed }
{}

/// The rights of a set can be shared by one list of rules where each can be by its own.
pub fn together()
    ensures { TogetherAsAlone }
{}

/// A flood that follows each link meets the whole island.
pub fn flood_has_island()
    ensures { FloodHasIsland }
{}

/// Where the first helpers' names are all in use, the graph has as many vertices.
pub fn helpers_suffice()
    ensures { HelpersSuffice }
{}
