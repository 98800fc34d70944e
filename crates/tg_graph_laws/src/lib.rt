//! Laws of the definitions that contracts of graphs, rules and drafts cite. Each is the contract of a
//! function that does nothing: a proof that calls it may use the law.
#![tactic(auto)]

ghost use Rattle.tg_graph.specs.Drafts.{FittingIsByNames, ApartFit, ApartCommute};
ghost use Rattle.tg_graph_laws.specs.Laws.{SameRefusal, SameAfter, RowsOfGraph, SameRows, AcceptedLead, AcceptedAreNamed, AcceptedRun, LeastRefusal, AcceptedWhereNone, NeverFull};

pub use tg_names::laws::{names_are_exact, names_are_ordered_by_bytes, rights_words_are_exact};

/// Graphs with the same vertices and triples refuse the same rules, and are the same after a rule.
pub fn same_graphs_are_treated_alike()
    ensures refusal { SameRefusal }
    ensures after { SameAfter }
{}

/// The row of a vertex has exactly the edges that the triples give, in name order.
pub fn rows_are_of_the_graph()
    ensures { RowsOfGraph }
{}

/// Graphs with the same vertices and triples have the same rows.
pub fn same_graphs_have_the_same_rows()
    ensures { SameRows }
{}

/// Rules that are each accepted in turn are carried out whole by `Graph::run`, unless memory is
/// refused.
pub fn accepted_rules_are_run()
    ensures lead { AcceptedLead }
    ensures named { AcceptedAreNamed }
    ensures run { AcceptedRun }
{}

/// A rule is refused for the first reason that applies, in the order of `Refusal`, and accepted
/// where none does.
///
/// That the graph is full is never its answer.
pub fn the_least_refusal_is_given()
    ensures refused { LeastRefusal }
    ensures accepted { AcceptedWhereNone }
    ensures full { NeverFull }
{}

/// A draft fits a graph exactly where no created name is a vertex there, and each source and each
/// target of its rows is a vertex there or created.
pub fn drafts_fit_by_names()
    ensures { FittingIsByNames }
{}

/// Of drafts over one graph that have no row in common each fits what the other makes of the graph,
/// and what both make of it is the same whichever is laid first.
pub fn drafts_apart_commute()
    ensures fit { ApartFit }
    ensures same { ApartCommute }
{}
