//! The planners that a session keeps between commands: the graph of the index with its least costs, which are the
//! longest part of a plan over an index of many leaves.

ghost use Rattle.std.specs.Prelude.{◌≡◌, ◌≢◌, true, false, [], IfNone, IfSome, OnErr, OnOk, Some};
ghost use Rattle.std.specs.List.{Contains};
ghost use Rattle.dg_ask.specs.HeldIndex.{HasNodes};
ghost use Rattle.dg_ask.specs.KeptPlanner.{IsKeptFor, IsKeptIn, KeepsColumns};
ghost use Rattle.dg_fold.specs.Parts.{graph_columns};
ghost use Rattle.dg_planner.specs.Whole.{PlannerGraph};

use crate::plans::planner_of;
use dg_file::Index;
use dg_graph::Columns;
use dg_handles::Handles;
use dg_planner::Planner;
use std::alloc::{AllocError, Global};
use std::marker::Model;

// Of the columns those that a plan reads: the messages are left out.
fn graph_columns(cols: Columns) -> Columns
    ensures { result ≡ graph_columns cols }
{
    Columns {
        transient: false,
        ..cols
    }
}

// Whether the two are the same columns.
fn are_same(left: Columns, right: Columns) -> bool
    ensures same { result ≡ true → left ≡ right }
    ensures other { result ≡ false → left ≢ right }
{
    left == right
}

/// A planner, and the columns whose bytes it weighs.
#[derive(Drop)]
struct ColumnsPlanner {
    cols: Columns,
    planner: Planner,
}

impl Model for ColumnsPlanner {
    ghost use Rattle.dg_graph.specs.declared.element.Columns.{Columns};
    ghost use Rattle.dg_planner.specs.Whole.{PlannerGraph};

    ghost Value = { Columns × PlannerGraph };

    ghost view = { λ k. (k.cols, k.planner) };
}

/// A planner for each set of columns that was asked for, while neither the index nor a handle that holds a node has
/// changed. No plan reads messages: the planner of columns is that of these without messages.
#[derive(Drop)]
pub struct KeptPlanner {
    // One for each set of columns without messages, of which there are four, so they are searched in a row.
    kept: Vec<ColumnsPlanner>,
}

impl Model for KeptPlanner {
    ghost use Rattle.std.specs.Prelude.{List};
    ghost use Rattle.dg_graph.specs.declared.element.Columns.{Columns};
    ghost use Rattle.dg_planner.specs.Whole.{PlannerGraph};

    ghost Value = { List (Columns × PlannerGraph) };

    ghost view = { λ k. k.kept.items };
}

impl KeptPlanner {
    /// Nothing is kept. Takes no memory.
    pub fn new(alloc: Global) -> KeptPlanner
        ensures { result ≡ [] }
    {
        KeptPlanner {
            kept: Vec::new(alloc),
        }
    }

    /// Forgets what is kept; of its memory the empty row alone stays.
    pub fn forget(&mut self)
        ensures { self.new ≡ [] }
    {
        self.kept.clear();
    }

    /// Keeps the planner over the index in these columns, with the handles that can serve: the one that is kept, or a
    /// new one, beside those in other columns. An `Err` says that memory ran out; those that were kept still are.
    pub fn keep(
        &mut self,
        alloc: Global,
        index: &Index,
        handles: &Handles,
        cols: Columns,
    ) -> Result<(), AllocError>
        requires nodes { HasNodes (Some index.now.opening) handles.now.table }
        requires kept { IsKeptFor (Some index.now.opening) handles.now.table self.old }
        ensures kept { IsKeptFor (Some index.now.opening) handles.now.table self.new }
        ensures columns { OnOk result (KeepsColumns cols self.new) }
        ensures err { OnErr result (self.new ≡ self.old) }
    {
        let cols = graph_columns(cols);
        if self.find(cols).is_some() {
            return Ok(());
        }
        let planner = planner_of(alloc, index, handles, cols)?;
        self.kept.push(ColumnsPlanner { cols, planner })?;
        Ok(())
    }

    // The planner that is kept with exactly these columns.
    fn find(&self, cols: Columns) -> Option<&Planner>
        ensures some { IfSome result (λ planner. Contains self.now (cols, planner.now)) }
        ensures none { IfNone result ((g : PlannerGraph) → Contains self.now (cols, g) → ⊥) }
    {
        for kept in &self.kept {
            if are_same(kept.cols, cols) {
                return Some(&kept.planner);
            }
        }
        None
    }

    /// The planner in these columns, which is kept.
    pub fn planner(&self, cols: Columns) -> &Planner
        requires columns { KeepsColumns cols self.now }
        ensures planner { IsKeptIn cols self.now result.now }
    {
        match self.find(graph_columns(cols)) {
            Some(planner) => planner,
            None => unreachable!(),
        }
    }
}
