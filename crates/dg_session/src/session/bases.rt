//! Sets of nodes that handles hold.

ghost use Rattle.std.specs.Prelude.{◌≡◌, IfSome, IsErrOf, [], Ok, Option, None, Some, IfOk, length};
ghost use Rattle.dg_disk.specs.Calls.{Fails, ReadsDisk};
ghost use Rattle.dg_machine.specs.Answer.{headed};
ghost use Rattle.dg_machine.specs.MachineState.{MachineState};
ghost use Rattle.dg_retrieval.specs.NamesThere.{NamesAreThere};
ghost use Rattle.dg_session.specs.Calls.{ReadsFile};
ghost use Rattle.dg_session.specs.Damage.{MeetsOver, Tells, node_readings};
ghost use Rattle.dg_session.specs.Reads.{HoldsNodeFor};
ghost use Rattle.dg_session.specs.Session.{ComesTo, HoldsImage, StandsFor, node_needs, refused_by};
ghost use Rattle.dg_batch.specs.declared.stop.Stop.TheVariants as stop;

use super::Session;
use crate::needs::Needs;
use crate::retrieval::node_lead;
use dg_batch::{Halt, Stop};
use dg_disk::Disk;
use dg_graph::Columns;
use dg_history::NodeId;
use dg_machine::{Command, Head, Refusal, Reply, Shown, Stands};
use dg_records::RecordFault;
use dg_retrieval::NodeLead;
use std::thread::Threads;

impl Session {
    // What leads to the set of a node in these columns, by the records alone.
    pub(super) fn lead_to_node<R: Threads + Sync, D: Disk>(
        &mut self,
        rt: &R,
        node: NodeId,
        cols: Columns,
        disk: &mut D,
    ) -> Result<NodeLead, RecordFault>
        requires free { refused_by self.old.parts 0 (node_needs node) ≡ None }
        requires image { HoldsImage self.old.parts (D.image disk.old) }

        // what is led to, of which the second holds over an image that stands for a state
        ensures named { IfOk result (λ r. NamesAreThere (length self.old.parts.names) r.delta.plus) }
        ensures over { IfSome (D.image disk.old) (λ image. (m : MachineState) → StandsFor self.old.parts image m
            → HoldsNodeFor m node cols (D.taken disk.old) (D.taken disk.new) result) }

        // why nothing is
        ensures cause { IsErrOf result RecordFault.Disk → Fails D.Disk disk.old disk.new }
        ensures damage { Tells (MeetsOver (node_readings node cols) self.old.parts (D.image disk.old)) result }

        // what it leaves
        ensures same { self.new ≡ self.old }
        ensures disk { ReadsDisk D.Disk disk.old disk.new }
    {
        let Some(index) = &mut self.held.live.history.index else {
            unreachable!()
        };
        node_lead(
            rt,
            self.alloc,
            index,
            disk,
            self.held.live.history.names.len(),
            node,
            cols,
        )
    }

    // A new handle that holds the set of a leaf or an interior node in these columns.
    pub(super) fn materialise<R: Threads + Sync, D: Disk>(
        &mut self,
        rt: &R,
        node: NodeId,
        cols: Columns,
        disk: &mut D,
    ) -> Result<Reply, Halt>
        requires image { HoldsImage self.old.parts (D.image disk.old) }

        // what it comes to
        ensures comes { ComesTo (Command.Materialise node cols) [] self.old.parts (D.image disk.old) self.new.parts (D.image disk.new) result }
        ensures no_stop { (stop : Stop) → result ≡ Err (Halt.Stop stop) → ⊥ }

        // why it is refused for a read
        ensures store_read { IsErrOf result (Halt.Refusal Refusal.StoreRead) → Fails D.Disk disk.old disk.new }

        // what it reads and leaves
        ensures file { ReadsFile D.Disk (Command.Materialise node cols) self.old.parts disk.old disk.new result }
        ensures disk { ReadsDisk D.Disk disk.old disk.new }
    {
        let needs = Needs {
            index: true,
            node: Some(node),
            handles: 1,
            ..Needs::NOTHING
        };
        if let Some(refusal) = self.refused(&needs, 0) {
            return Err(Halt::Refusal(refusal));
        }
        let NodeLead { delta, weight } = self.lead_to_node(rt, node, cols, disk)?;
        let handle = self.held.handles.next() as u32;
        let stands = Stands {
            what: Shown::Base(node),
            cols,
        };
        self.add_set(stands, &delta)?;
        Ok(Reply::headed(self.alloc, Head::Materialised { handle, weight }))
    }
}
