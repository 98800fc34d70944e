//! What lists of rules can lead to where only some of the vertices act, as laws.
ghost use Rattle.tg_walks.specs.Laws.{MoreAct, AllAct, NothingElseBy, AloneTakes, SharedByExactly, FewRulesBy, TogetherAsAloneBy, FloodHasWalks, LedFromBehind, FewerDoNot, AskedSuffice, MoreVerticesAct, LeastWalkAsksFewest};
ghost use Rattle.tg_walks.specs.Spans.{SpansAndBridges};

/// Where more vertices act, no less can be shared.
pub fn more_act()
    ensures { MoreAct }
{}

/// Where all act, what can be shared is what can be shared at all.
pub fn all_act()
    ensures { AllAct }
{}

/// No list of rules of those that act gives a vertex a right over an opening vertex that it does not hold along
/// walks.
pub fn nothing_else_by()
    ensures { NothingElseBy }
{}

/// A right can be shared by those that act exactly where it is held along walks.
pub fn shared_by_exactly()
    ensures { SharedByExactly }
{}

/// Where a right is held along walks, at most four rules for each vertex give it, and none of them is carried out by
/// a vertex that was created.
pub fn few_rules_by()
    ensures { FewRulesBy }
{}

/// The rights of a set can be shared by one list of rules exactly where each is held along walks.
pub fn together_by()
    ensures { TogetherAsAloneBy }
{}

/// Where x alone acts, it comes to what it holds and to what it finds along takes.
pub fn alone_takes()
    ensures { AloneTakes }
{}

/// What is held along walks is held at once, or over an initial span, bridges and takes.
pub fn spans_and_bridges()
    ensures { SpansAndBridges }
{}

/// A set of stands that has the starts of x, and that no step leaves, has all that walks of x lead to.
pub fn flood_has_walks()
    ensures { FloodHasWalks }
{}

/// Walks from behind a holder tell whose walks lead ahead of it.
pub fn led_from_behind()
    ensures { LedFromBehind }
{}

/// Where helpers of some names are enough, some holder's level is at most their number.
pub fn fewer_do_not()
    ensures { FewerDoNot }
{}

/// Those that a walk asks are enough for what it leads to.
pub fn asked_suffice()
    ensures { AskedSuffice }
{}

/// What is held along walks is held along them where more vertices of the graph act.
pub fn more_vertices_act()
    ensures { MoreVerticesAct }
{}

/// Those whom a least walk asks are the fewest helpers.
pub fn least_walk_asks_fewest()
    ensures { LeastWalkAsksFewest }
{}
