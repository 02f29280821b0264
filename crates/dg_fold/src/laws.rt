//! The laws of path independence. Each function does nothing.

ghost use Rattle.dg_fold.specs.Ends.{TreesReach};
ghost use Rattle.dg_fold.specs.RecordFits.{RecordsFit};
ghost use Rattle.dg_fold.specs.HistoryPaths.{HistoryPathsLead};
ghost use Rattle.dg_fold.specs.HistoryTrees.{HistoryTreesReach, KeptPartsAreTheRecords, LegalIsIndexed};
ghost use Rattle.dg_fold.specs.Parts.{PartsAreRead};
ghost use Rattle.dg_fold.specs.PathIndependence.{EdgesAreSound, InstantsAreReached, InstantsPart, RecordsLead, StepsAreWalks, WalksLead};
ghost use Rattle.dg_fold.specs.PointSplits.{PointsSplit};
ghost use Rattle.dg_fold.specs.Steps.{PlansLead, PlansReach};
ghost use Rattle.dg_fold.specs.Trees.{TreesLead};

/// Exact deltas and slices of a history lead on and back.
pub fn law_records_lead()
    ensures { RecordsLead }
{}

/// Each edge of the graph of an index leads from the set of its tail to the set of its head.
pub fn law_edges_are_sound()
    ensures { EdgesAreSound }
{}

/// A walk of sound edges leads to the set where it ends, as shown in the columns that are asked for.
pub fn law_walks_lead()
    ensures { WalksLead }
{}

/// And on to an instant among the events that follow.
pub fn law_instants_are_reached()
    ensures { InstantsAreReached }
{}

/// An instant parts the events of a history.
pub fn law_instants_part()
    ensures { InstantsPart }
{}

/// Steps by the numbers of edges are a walk of these edges.
pub fn law_steps_are_walks()
    ensures { StepsAreWalks }
{}

/// The columns of a part say what the record says, in the columns that are asked for.
pub fn law_parts_are_read()
    ensures { PartsAreRead }
{}

/// Path independence: whatever the walk, what its parts compose to leads to the set where it ends.
pub fn law_plans_lead()
    ensures { PlansLead }
{}

/// And on to an instant among the events that follow.
pub fn law_plans_reach()
    ensures { PlansReach }
{}

/// Each record of an index can be spelled.
pub fn law_records_fit()
    ensures { RecordsFit }
{}

/// Along a tree's path to a node, what the parts compose to leads to the set of the node.
pub fn law_trees_lead()
    ensures { TreesLead }
{}

/// And on to an instant among the node's own events.
pub fn law_trees_reach()
    ensures { TreesReach }
{}

/// Path independence over the index of a history: whatever the walk, and with the columns of its records as
/// parts, the composition leads to the set of the node where the walk ends.
pub fn law_history_paths_lead()
    ensures { HistoryPathsLead }
{}

/// At its point an instant splits the events of a history.
pub fn law_points_split()
    ensures { PointsSplit }
{}

/// Each legal history can be indexed: its events are changes and can be spelled, and their times do not fall.
pub fn law_legal_histories_are_indexed()
    ensures { LegalIsIndexed }
{}

/// Path independence over the index of a history, along the paths of a tree: with the columns of its records as
/// parts nothing is damaged, and the path to the point of an instant leads to the graph as of the instant.
pub fn law_history_trees_reach()
    ensures { HistoryTreesReach }
{}

/// The parts of an image of a history hold the columns of the history's records.
pub fn law_columns_of_an_image()
    ensures { KeptPartsAreTheRecords }
{}
