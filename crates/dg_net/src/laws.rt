//! The laws of lists of events. Each function does nothing: its clause is the law, proved of the
//! definitions.

ghost use Rattle.dg_net.specs.NetLaws.{ChangesAreExact, ChangesKeepGraphs};

/// Events that changes of a graph come to, one after another, are exact where they stand.
pub fn law_changes_of_a_graph_are_exact()
    ensures { ChangesAreExact }
{}

/// Events that changes of a graph come to, one after another, lead to a graph.
pub fn law_changes_of_a_graph_lead_to_a_graph()
    ensures { ChangesKeepGraphs }
{}
