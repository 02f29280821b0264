//! The laws by which a catalogue gives the graph and the points of its history, and those of the nodes and the plans of
//! the graph; functions that do nothing.
ghost use Rattle.dg_planner.specs.HistoryLaws.{GraphOfHistory, PointsOfHistory};
ghost use Rattle.dg_planner.specs.IndexNodes.{NodesAreListed};
ghost use Rattle.dg_planner.specs.PlanLaws.{NodesAreDistinct, NodesAreReached, PlansAreCertificates};

/// A catalogue that holds the records of a history gives the graph of the history, with its edges and
/// its nodes, whatever the bases. Does nothing.
pub fn law_graph_of_history()
    ensures { GraphOfHistory }
{}

/// The lists of a catalogue that holds the records of a history rise, and the node that it gives for an
/// instant is the instant's point. Does nothing.
pub fn law_points_of_history()
    ensures { PointsOfHistory }
{}

/// The graph of an index has each leaf and each interior node that exists. Does nothing.
pub fn law_nodes_are_listed()
    ensures { NodesAreListed }
{}

/// The nodes of the graph of an index are listed once each. Does nothing.
pub fn law_nodes_are_distinct()
    ensures { NodesAreDistinct }
{}

/// Each node of the graph of an index is reached from the root. Does nothing.
pub fn law_nodes_are_reached()
    ensures { NodesAreReached }
{}

/// The plan of a node of the graph of an index is certified by the potentials of the nodes. Does nothing.
pub fn law_plans_are_certificates()
    ensures { PlansAreCertificates }
{}
