//! The laws of turns. Each function does nothing: its clause is the law, proved of the definitions.
ghost use Rattle.dg_aux.specs.TurnLaws.{BatchesKeepValues, ColumnsHaveTurns, FoundNodesAreThere, TurnsAddAsEvents, TurnsStandForEvents};

/// The turns of a list of events say at each instant which nodes have a value in the replay up to it.
pub fn law_turns_stand_for_events()
    ensures { TurnsStandForEvents }
{}

/// As many turns of a list of events bring a value as events of it add one.
pub fn law_turns_add_as_their_events()
    ensures { TurnsAddAsEvents }
{}

/// Rising ids of all nodes that have a value in a graph are the nodes with it, one after another.
pub fn law_found_nodes_are_there()
    ensures { FoundNodesAreThere }
{}

/// Turns that say what those of some events say, go on saying so with the turns of a batch behind them.
pub fn law_batches_keep_values()
    ensures { BatchesKeepValues }
{}

/// The events of the column of node attributes have all the turns of a list.
pub fn law_columns_have_turns()
    ensures { ColumnsHaveTurns }
{}
