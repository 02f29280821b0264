//! Reading the records of a walk through the index of a history, and composing them: along a plan, or, along a tree,
//! into deltas that are each written once for all targets behind it. docs/MODEL.md has the definitions.
#![tactic(auto)]

mod column;
mod composing;
mod ends;
mod fault;
mod fetch;
mod folding;
mod gate;
mod halves;
mod laws;
mod net;
mod part;
mod plan;
mod record;
mod tree;
mod tree_step;
mod writing;

pub use column::{events_of, is_sound_part, part_delta_as};
pub use composing::{compose_for, composed, is_for};
pub use dg_delta::Delta;
pub use fault::FoldFault;
pub use fetch::fetch_walk;
pub use folding::fold_walk;
pub use gate::{Gate, Open};
pub use laws::{
    law_columns_of_an_image, law_edges_are_sound, law_history_paths_lead, law_history_trees_reach,
    law_instants_are_reached, law_instants_part, law_legal_histories_are_indexed,
    law_parts_are_read, law_plans_lead, law_plans_reach, law_points_split, law_records_fit,
    law_records_lead, law_steps_are_walks, law_trees_lead, law_trees_reach, law_walks_lead,
};
pub use part::{Bytes, Part};
pub use plan::compose_plan;
pub use tree::{Branch, edges_of};
pub use writing::{Writing, all_go_back, is_same_node, write_tree};
