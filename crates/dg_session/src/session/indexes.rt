//! Indexes of values: how one is made, what is found in one, and how all of them follow a batch.

ghost use Rattle.std.specs.Prelude.{◌≡◌, ◌==◌, ℕ, ◌≤◌, true, is_some, IfErr, IfOk, IfSome, IsErrOf, List, OnErr, OnOk, [], ◌∷◌, Ok, Err, Option, None, Some, length, map};
ghost use Rattle.std.specs.List.{All, Contains, list_any};
ghost use Rattle.dg_aux.specs.Turns.{AuxState, HasRoomFor, said_by};
ghost use Rattle.dg_batch.specs.declared.stop.Stop.TheVariants as stop;
ghost use Rattle.dg_disk.specs.Calls.{Fails, ReadsDisk};
ghost use Rattle.dg_graph.specs.declared.element.Element.TheVariants as element;
ghost use Rattle.dg_machine.specs.Answer.{headed};
ghost use Rattle.dg_machine.specs.MachineState.{MachineState, history_in};
ghost use Rattle.dg_machine.specs.ValueIndex.{key_text, node_attrs_length, value_text};
ghost use Rattle.dg_session.specs.BatchCommand.{Bars};
ghost use Rattle.dg_session.specs.Calls.{ReadsFile};
ghost use Rattle.dg_session.specs.Damage.{MeetsOver, Tells, value_readings};
ghost use Rattle.dg_session.specs.Reads.{IndexesFor, with_new_index};
ghost use Rattle.dg_session.specs.Session.{ComesTo, HoldsImage, StandsFor, index_needs, is_indexed_by, refused_by};
ghost use Rattle.dg_session.specs.ValuesSaid.{AreFound, IndexKept, all_said_with, kept_of};
ghost use Rattle.dg_text.specs.declared.limits.TheConstants.{KEY_BYTES_MAX, NAME_BYTES_MAX};
ghost use Rattle.dg_text.specs.Names.{number_of};

use super::Session;
use crate::needs::Needs;
use dg_aux::{
    Aux, law_found_nodes_are_there, law_turns_add_as_their_events, law_turns_stand_for_events,
};
use dg_batch::{Halt, Stop};
use dg_disk::Disk;
use dg_graph::Event;
use dg_machine::{BodyLines, Command, Head, KeyText, Refusal, Reply, ValueText};
use dg_range::{law_images_have_values, read_values, values_bytes};
use dg_records::RecordFault;
use dg_set::Element;
use std::alloc::{AllocError, Global};

impl Session {
    // An index from the values of the key to the nodes that have them. Of each list the column of node attributes is read,
    // once; the recent events are in memory.
    pub(super) fn index_values<D: Disk>(
        &mut self,
        key: KeyText,
        disk: &mut D,
    ) -> Result<Reply, Halt>
        requires short { key.count ≤ KEY_BYTES_MAX }
        requires image { HoldsImage self.old.parts (D.image disk.old) }

        // what it comes to
        ensures comes { ComesTo (Command.Index key) [] self.old.parts (D.image disk.old) self.new.parts (D.image disk.new) result }
        ensures no_stop { (stop : Stop) → result ≡ Err (Halt.Stop stop) → ⊥ }

        // why it is refused for a read
        ensures store_read { IsErrOf result (Halt.Refusal Refusal.StoreRead) → Fails D.Disk disk.old disk.new }

        // what it reads and leaves
        ensures file { ReadsFile D.Disk (Command.Index key) self.old.parts disk.old disk.new result }
        ensures disk { ReadsDisk D.Disk disk.old disk.new }
    {
        law_turns_add_as_their_events();
        let number = self.unindexed(key_text(&key))?;
        self.make_room()?;
        let weight = self.values_bytes();
        let values = self.read_values(number, disk)?;
        let spans = values.spans();
        self.keep(values)?;
        Ok(Reply::headed(self.alloc, Head::Indexed { spans, weight }))
    }

    // The number of the key of this text, or why no index of it is made.
    fn unindexed(&self, text: &[u8]) -> Result<u32, Refusal>
        ensures key { IfOk result (λ key. number_of self.now.parts.names text.now ≡ Some key) }
        ensures free { OnOk result (refused_by self.now.parts 0 (index_needs text.now) ≡ None) }
        ensures refused { IfErr result (λ refusal. refused_by self.now.parts 0 (index_needs text.now) ≡ Some refusal) }
    {
        let needs = Needs {
            index: true,
            unindexed: Some(text),
            ..Needs::NOTHING
        };
        if let Some(refusal) = self.refused(&needs, 0) {
            return Err(refusal);
        }
        match self.held.live.history.names.number(text) {
            Some(key) => Ok(key),
            None => unreachable!(),
        }
    }

    // The bytes of the columns of node attributes of all lists.
    fn values_bytes(&self) -> u64
        requires { is_some self.now.parts.index ≡ true }
        ensures { (image : List ℕ) (m : MachineState) → StandsFor self.now.parts image m → result ≡ node_attrs_length (history_in m.index) }
    {
        law_images_have_values();
        let Some(index) = &self.held.live.history.index else {
            unreachable!()
        };
        values_bytes(index)
    }

    // An index of the values of the key over the events of the history.
    fn read_values<D: Disk>(&self, key: u32, disk: &mut D) -> Result<Aux, RecordFault>
        requires there { is_some self.now.parts.index ≡ true }
        requires image { HoldsImage self.now.parts (D.image disk.old) }

        // what it says, of which the second holds over an image that stands for a state
        ensures key { IfOk result (λ aux. aux.key ≡ key) }
        ensures over { IfSome (D.image disk.old) (λ image. (m : MachineState) → StandsFor self.now.parts image m
            → IndexesFor m key (D.taken disk.old) (D.taken disk.new) result) }

        // why there is none
        ensures cause { IsErrOf result RecordFault.Disk → Fails D.Disk disk.old disk.new }
        ensures damage { Tells (MeetsOver value_readings self.now.parts (D.image disk.old)) result }

        // what it leaves
        ensures disk { ReadsDisk D.Disk disk.old disk.new }
    {
        law_images_have_values();
        let Some(index) = &self.held.live.history.index else {
            unreachable!()
        };
        read_values(
            self.alloc,
            index,
            disk,
            self.held.live.history.names.len(),
            &self.held.live.history.recent,
            key,
        )
    }

    // Makes room for one index more. An `Err` says that memory ran out.
    fn make_room(&mut self) -> Result<(), AllocError>
        ensures { self.new ≡ self.old }
    {
        self.indexes.reserve(1)
    }

    // Keeps one index more. An `Err` says that memory ran out.
    fn keep(&mut self, values: Aux) -> Result<(), AllocError>
        ensures kept { OnOk result (self.new.parts ≡ with_new_index self.old.parts (kept_of values)) }
        ensures err { OnErr result (self.new ≡ self.old) }
    {
        self.indexes.push(values)?;
        Ok(())
    }

    // The nodes that have the value of the key as of the instant `t`. A value that is no name has none.
    pub(super) fn find(&self, t: u64, key: KeyText, value: ValueText) -> Result<Reply, Halt>
        requires key { key.count ≤ KEY_BYTES_MAX }
        requires value { value.count ≤ NAME_BYTES_MAX }
        ensures comes { (image : Option (List ℕ)) → ComesTo (Command.Find t key value) [] self.now.parts image self.now.parts image result }
        ensures no_stop { (stop : Stop) → result ≡ Err (Halt.Stop stop) → ⊥ }
    {
        law_turns_stand_for_events();
        law_found_nodes_are_there();
        let text = key_text(&key);
        let times = [t];
        let needs = Needs {
            index: true,
            instants: &times,
            indexed: Some(text),
            ..Needs::NOTHING
        };
        if let Some(refusal) = self.refused(&needs, 0) {
            return Err(Halt::Refusal(refusal));
        }
        let Some(values) = self.index_of(text) else {
            unreachable!()
        };
        let value = self.held.live.history.names.number(value_text(&value));
        let ids = found(self.alloc, values, t, value)?;
        let nodes = nodes_of(self.alloc, &ids)?;
        Ok(Reply::Answered {
            head: Head::Found {
                lines: nodes.len() as u64,
            },
            body: BodyLines::from_elements(nodes),
        })
    }

    // The index of the key of this text, where it is indexed.
    pub(super) fn index_of(&self, text: &[u8]) -> Option<&Aux>
        ensures key { IfSome result (λ aux. number_of self.now.parts.names text.now ≡ Some aux.now.key) }
        ensures kept { IfSome result (λ aux. Contains self.now.parts.indexes (kept_of aux.now)) }
        ensures there { is_some result ≡ is_indexed_by self.now.parts text.now }
    {
        let key = self.held.live.history.names.number(text)?;
        of_key(&self.indexes, key)
    }
}

// The text of a key.
fn key_text(key: &KeyText) -> &[u8]
    requires { key.now.count ≤ KEY_BYTES_MAX }
    ensures { result.now ≡ key_text key.now }
{
    &key.bytes[..usize::from(key.count)]
}

// The text of a value.
fn value_text(value: &ValueText) -> &[u8]
    requires { value.now.count ≤ NAME_BYTES_MAX }
    ensures { result.now ≡ value_text value.now }
{
    &value.bytes[..usize::from(value.count)]
}

// The first index of this key.
fn of_key(indexes: &[Aux], key: u32) -> Option<&Aux>
    ensures found { IfSome result (λ aux. (aux.now.key ≡ key) × Contains (map kept_of indexes.now) (kept_of aux.now)) }
    ensures there { is_some result ≡ list_any (λ (k : ℕ). k == key) (map (λ (kept : IndexKept). kept.key) (map kept_of indexes.now)) }
{
    for aux in indexes {
        if aux.key() == key {
            return Some(aux);
        }
    }
    None
}

// The nodes that have the value of this number as of the instant `t`; none, where there is no such value.
fn found(alloc: Global, values: &Aux, t: u64, value: Option<u32>) -> Result<Vec<u64>, AllocError>
    ensures { IfOk result (λ ids. AreFound values.now.turns t value ids.items) }
{
    match value {
        Some(value) => values.find(alloc, value, t),
        None => Ok(Vec::new(alloc)),
    }
}

// These nodes, as elements.
fn nodes_of(alloc: Global, ids: &[u64]) -> Result<Vec<Element>, AllocError>
    ensures { IfOk result (λ nodes. nodes.items ≡ map (λ (id : ℕ). element.Node id) ids.now) }
{
    let mut nodes = Vec::with_capacity(alloc, ids.len())?;
    for id in ids {
        nodes.push(Element::Node { id: *id })?;
    }
    Ok(nodes)
}

// ---- a batch

// What bars a batch of so many changes: this, or that memory lacks for the values that it may bring.
pub(super) fn barred_with(
    barred: Option<Refusal>,
    indexes: &mut [Aux],
    count: u32,
) -> Option<Refusal>
    ensures bars { Bars barred result }
    ensures room { result ≡ None → All (λ (aux : AuxState). HasRoomFor aux count) indexes.new }
    ensures kept { map kept_of indexes.new ≡ map kept_of indexes.old }
{
    if barred.is_some() {
        return barred;
    }
    match reserve(indexes, count) {
        Ok(()) => None,
        Err(_) => Some(Refusal::OutOfMemory),
    }
}

// Makes room in each index for the values of so many events.
pub(super) fn reserve(indexes: &mut [Aux], count: u32) -> Result<(), AllocError>
    ensures room { OnOk result (All (λ (aux : AuxState). HasRoomFor aux count) indexes.new) }
    ensures kept { map kept_of indexes.new ≡ map kept_of indexes.old }
{
    for aux in indexes.iter_mut() {
        aux.reserve(count as usize)?;
    }
    Ok(())
}

// Takes the indexes past the events of a batch. Takes no memory.
pub(super) fn pass(indexes: &mut [Aux], events: &[Event])
    requires { All (λ (aux : AuxState). HasRoomFor aux (length events.now)) indexes.old }
    ensures { map said_by indexes.new ≡ all_said_with events.now (map said_by indexes.old) }
{
    for aux in indexes.iter_mut() {
        aux.apply(events);
        aux.tidy();
    }
}
