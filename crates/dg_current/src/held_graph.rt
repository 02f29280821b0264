//! A graph that changes: the one at the start, which stays, under a map of the ids that changed since.
ghost use Rattle.std.specs.Prelude.{◌≡◌, ◌≤◌, ◌<◌, true, false, [], length, None, Some, IfOk, IsErrOf, OnOk};
ghost use Rattle.std.specs.List.{list_any, IsDistinct};
ghost use Rattle.dg_graph.specs.Elements.{has, put, take_out};
ghost use Rattle.dg_graph.specs.Graph.{IsGraph, has_needs};
ghost use Rattle.dg_graph.specs.Sets.{unioned, without_all};
ghost use Rattle.dg_set.specs.Apart.{AreApart};
ghost use Rattle.dg_current.specs.ElementIds.{element_id_of, at, needs_id, same_id};
ghost use Rattle.dg_current.specs.HeldGraph.{knows, HasRoom, IsKnown, KeepsIds, KnowsNeeds};

use crate::element_entry::{ElementEntry, count_in, count_out, set_held, touch_needs};
use crate::element_id::ElementId;
use crate::fault::FromFault;
use crate::held::Held;
use crate::held_set::changes;
use crate::since_start::SinceStart;
use crate::sorted_graph::SortedGraph;
use dg_graph::Element;
use dg_seed::Seed;
use dg_set::Set;
use indexmap::IndexMap;
use std::alloc::{AllocError, Global};
use std::marker::Model;

/// A graph that changes: the graph at the start, and before it a map of what changed. An id that was
/// touched once keeps its entry.
#[derive(Drop)]
pub(crate) struct HeldGraph {
    base: SortedGraph,
    elements: IndexMap<ElementId, ElementEntry, Seed>,
    // How many elements the graph has now.
    len: usize,
}

impl Model for HeldGraph {
    ghost use Rattle.std.specs.Prelude.{◌≡◌, length};
    ghost use Rattle.std.specs.Map.{keys_of};
    ghost use Rattle.indexmap.specs.IndexMap.{spare};
    ghost use Rattle.dg_current.specs.HeldGraph.{HeldGraphState, elements_of, HeldGraphIsSound};

    ghost Value = { HeldGraphState };

    ghost view = { λ held. record { base = held.base; set = elements_of held.base held.elements.entries; ids = keys_of held.elements.entries; spare = spare held.elements } };

    ghost invariant = { λ held. HeldGraphIsSound held.base held.elements.entries × (held.len ≡ length (elements_of held.base held.elements.entries)) };
}

impl HeldGraph {
    /// The empty graph. Takes no memory yet.
    pub(crate) fn new(alloc: Global, seed: Seed) -> HeldGraph
        ensures set { result.set ≡ [] }
        ensures ids { result.ids ≡ [] }
    {
        HeldGraph {
            base: SortedGraph::new(alloc),
            elements: IndexMap::with_hasher(alloc, seed),
            len: 0,
        }
    }

    /// The graph of these elements; an `Err` where they are no graph, or for want of memory.
    pub(crate) fn from_set(alloc: Global, seed: Seed, set: Set) -> Result<HeldGraph, FromFault>
        ensures ok { IfOk result (λ held. held.set ≡ set) }
        ensures not_graph { IsErrOf result FromFault.NotGraph → IsGraph set → ⊥ }
    {
        let base = SortedGraph::from_set(alloc, set)?;
        // It is a graph.
        base.facts();
        let len = base.len();
        Ok(HeldGraph {
            base,
            elements: IndexMap::with_hasher(alloc, seed),
            len,
        })
    }

    /// Makes room for so many further ids. An `Err` says that memory ran out.
    pub(crate) fn reserve(&mut self, ids: usize) -> Result<(), AllocError>
        ensures set { self.new.set ≡ self.old.set }
        ensures ids { self.new.ids ≡ self.old.ids }
        ensures room { OnOk result (ids ≤ self.new.spare) }
    {
        self.elements.reserve(ids)
    }

    /// Makes ready for the removal of nodes, once: see `is_needed`. An `Err` says that memory ran out.
    pub(crate) fn sort_ends(&mut self, alloc: Global) -> Result<(), AllocError>
        ensures { self.new ≡ self.old }
    {
        self.base.sort_ends(alloc)
    }

    /// What holds of each graph that is kept. Does nothing.
    pub(crate) fn facts(&self)
        ensures graph { IsGraph self.now.set }
        ensures base { IsGraph self.now.base }
        ensures unknown { (p : ElementId) → knows self.now p ≡ false → at self.now.set p ≡ at self.now.base p }
        ensures distinct { IsDistinct same_id self.now.ids }
    {
        self.base.facts();
        // Its clauses tell that the ids are distinct.
        self.elements.len();
    }

    /// The element with the id, if there is one.
    pub(crate) fn element_at(&self, id: ElementId) -> Option<Element>
        ensures { result ≡ at self.now.set id }
    {
        match self.elements.get(&id) {
            Some(entry) => entry.held.element(id),
            None => self.base.element_at(id),
        }
    }

    /// Whether some element needs the one with the id. Of a node this passes over all elements of the
    /// start, unless `sort_ends` was called.
    pub(crate) fn is_needed(&self, id: ElementId) -> bool
        ensures { result ≡ list_any (needs_id id) self.now.set }
    {
        match self.elements.get(&id) {
            Some(entry) => {
                entry.more > entry.fewer || self.base.uses(id) > entry.fewer - entry.more
            }
            None => self.base.uses(id) > 0,
        }
    }

    /// How many elements the graph has.
    pub(crate) fn len(&self) -> u64
        ensures { result ≡ length self.now.set }
    {
        self.len as u64
    }

    /// The start, and what the entries changed of it. An `Err` says that memory ran out.
    pub(crate) fn since_start(&self, alloc: Global) -> Result<SinceStart<'_>, AllocError>
        ensures leads { IfOk result (λ since. unioned (without_all since.start.now since.lost) since.gained ≡ self.now.set) }
        ensures apart { IfOk result (λ since. AreApart since.lost since.gained) }
    {
        // The start is a graph.
        self.base.facts();
        let (lost, gained) = changes(alloc, &self.base, &self.elements)?;
        Ok(SinceStart {
            start: self.base.elements(),
            lost: Set::from_unsorted(lost),
            gained: Set::from_unsorted(gained),
        })
    }

    /// The graph as a set of its own: a copy of the start in one walk, in which what the entries changed is
    /// replaced. An `Err` says that memory ran out.
    pub(crate) fn set(&self, alloc: Global) -> Result<Set, AllocError>
        ensures { IfOk result (λ set. set ≡ self.now.set) }
    {
        let SinceStart {
            start,
            lost,
            gained,
        } = self.since_start(alloc)?;
        start.replaced(&lost, &gained)
    }

    // Makes entries for the ids that the element needs. Where the start is empty, each id with an
    // element has its entry.
    fn touch_needs(&mut self, element: &Element) -> Result<(), AllocError>
        requires fed { has_needs self.old.set element.now ≡ true }
        ensures set { self.new.set ≡ self.old.set }
        ensures keeps { KeepsIds self.old self.new }
        ensures known { OnOk result (KnowsNeeds self.new element.now) }
    {
        if self.base.len() == 0 {
            return Ok(());
        }
        touch_needs(&mut self.elements, &self.base, element)
    }

    /// Makes room for the element, which can then be put in or taken out without memory: what it needs
    /// has entries then, and there is room for its own. An `Err` says that memory ran out.
    pub(crate) fn make_room(&mut self, element: &Element) -> Result<(), AllocError>
        requires fed { has_needs self.old.set element.now ≡ true }
        ensures set { self.new.set ≡ self.old.set }
        ensures keeps { KeepsIds self.old self.new }
        ensures room { OnOk result (HasRoom self.new element.now) }
    {
        self.touch_needs(element)?;
        self.reserve(1)
    }

    /// Puts an element in whose id no other has, and where there is what it needs and room for it. Takes
    /// no memory.
    pub(crate) fn put(&mut self, element: Element)
        requires free { at self.old.set (element_id_of element) ≡ None }
        requires fed { has_needs self.old.set element ≡ true }
        requires room { HasRoom self.old element }
        ensures set { self.new.set ≡ put element self.old.set }
        ensures keeps { KeepsIds self.old self.new }
        ensures known { IsKnown self.new element }
    {
        let id = ElementId::of(&element);
        let held = Held::of(&element);
        // Their clauses tell that no count is too large.
        self.base.len();
        self.elements.len();
        self.len += 1;
        set_held(&mut self.elements, id, held);
        count_in(&mut self.elements, &element);
    }

    /// Takes an element out that is there, that no other needs and for which there is room. Takes no
    /// memory.
    pub(crate) fn take_out(&mut self, element: &Element)
        requires there { has self.old.set element.now ≡ true }
        requires free { list_any (needs_id (element_id_of element.now)) self.old.set ≡ false }
        requires room { HasRoom self.old element.now }
        ensures set { self.new.set ≡ take_out element.now self.old.set }
        ensures keeps { KeepsIds self.old self.new }
        ensures known { IsKnown self.new element.now }
    {
        let id = ElementId::of(element);
        // Its clauses tell that no count is too large.
        self.base.len();
        self.len -= 1;
        set_held(&mut self.elements, id, Held::Nothing);
        count_out(&mut self.elements, element);
    }

    /// Puts an element in the place of the one that is there under its id and needs the same. Takes no
    /// memory.
    pub(crate) fn replace(&mut self, old: &Element, new: Element)
        requires there { has self.old.set old.now ≡ true }
        requires loose { list_any (needs_id (element_id_of old.now)) self.old.set ≡ false }
        requires alike { element_id_of new ≡ element_id_of old.now }
        requires needs { (p : ElementId) → needs_id p new ≡ needs_id p old.now }
        requires free { at (take_out old.now self.old.set) (element_id_of new) ≡ None }
        requires fed { has_needs (take_out old.now self.old.set) new ≡ true }
        requires room { HasRoom self.old old.now }
        ensures set { self.new.set ≡ put new (take_out old.now self.old.set) }
        ensures keeps { KeepsIds self.old self.new }
        ensures known { IsKnown self.new new }
    {
        let id = ElementId::of(old);
        set_held(&mut self.elements, id, Held::of(&new));
    }
}
