//! What names an element, so that a graph has one at the most; what an event finds before it and leaves.
ghost use Rattle.std.specs.Prelude.{◌≡◌, ◌++◌};
ghost use Rattle.std.specs.Cmp.Rules.{hashing};
ghost use Rattle.std.specs.Hash as fed;
ghost use Rattle.std.proofs.Common.{rules};
ghost use Rattle.dg_current.specs.ElementIds.{element_id_of, kind_and_key, number_of};
ghost use Rattle.dg_current.specs.EventEffect.{changed_id, element_before};

use dg_graph::{Body, Element};
use std::hash::{Hash, Hasher};

/// What names an element of a graph: one at the most has an id. The key stands first, beside the kind:
/// so an id takes 16 bytes, and not 24.
#[derive(Clone, Copy, PartialEq, Eq)]
pub(crate) enum ElementId {
    /// The node of this id.
    Node(u64),
    /// The edge of this id.
    Edge(u64),
    /// The value that the node of this id has of a key.
    NodeValue { key: u32, id: u64 },
    /// The value that the edge of this id has of a key.
    EdgeValue { key: u32, id: u64 },
    /// Any message: no graph has one.
    Message,
}

impl ElementId {
    /// The id of the element.
    pub(crate) fn of(element: &Element) -> ElementId
        ensures { result ≡ element_id_of element.now }
    {
        match *element {
            Element::Node { id } => ElementId::Node(id),
            Element::Edge { id, .. } => ElementId::Edge(id),
            Element::NodeAttr { id, key, .. } => ElementId::NodeValue { key, id },
            Element::EdgeAttr { id, key, .. } => ElementId::EdgeValue { key, id },
            Element::Message { .. } => ElementId::Message,
        }
    }

    // The number of the node or the edge.
    fn number(&self) -> u64
        ensures { result ≡ number_of self.now }
    {
        match *self {
            ElementId::Node(id) | ElementId::Edge(id) => id,
            ElementId::NodeValue { id, .. } | ElementId::EdgeValue { id, .. } => id,
            ElementId::Message => 0,
        }
    }

    // The kind and the key as one number.
    fn kind_and_key(&self) -> u64
        ensures { result ≡ kind_and_key self.now }
    {
        match *self {
            ElementId::Node(_) => 0,
            ElementId::Edge(_) => 1,
            ElementId::NodeValue { key, .. } => 2 * key as u64 + 2,
            ElementId::EdgeValue { key, .. } => 2 * key as u64 + 3,
            ElementId::Message => 0,
        }
    }

    /// The id of the element that an event with this body changes.
    pub(crate) fn changed_by(body: &Body) -> ElementId
        ensures { result ≡ changed_id body.now }
    {
        match *body {
            Body::NodeAdded { id } | Body::NodeRemoved { id } => ElementId::Node(id),
            Body::EdgeAdded { id, .. } | Body::EdgeRemoved { id, .. } => ElementId::Edge(id),
            Body::NodeAttr { id, key, .. } => ElementId::NodeValue { key, id },
            Body::EdgeAttr { id, key, .. } => ElementId::EdgeValue { key, id },
            Body::Message { .. } => ElementId::Message,
        }
    }
}

// The number is hashed first, and then the kind with the key: a sum of both would be the same for many ids, and behind
// the kind and the key the number could be chosen so that it takes back what they bring.
impl Hash for ElementId {
    ghost hash_input = { λ p. fed.u64 (number_of p) ++ fed.u64 (kind_and_key p) };

    ghost respects_eq = { Prim.search (hashing, rules) };

    fn hash<H: Hasher>(&self, state: &mut H) {
        state.write_u64(self.number());
        state.write_u64(self.kind_and_key());
    }
}

/// The element that the event changes, as it is before it.
pub(crate) fn element_before(body: &Body) -> Option<Element>
    ensures { result ≡ element_before body.now }
{
    match *body {
        Body::NodeAdded { .. } | Body::EdgeAdded { .. } | Body::Message { .. } => None,
        Body::NodeRemoved { id } => Some(Element::Node { id }),
        Body::EdgeRemoved {
            id,
            src,
            dst,
            directed,
        } => Some(Element::Edge {
            id,
            src,
            dst,
            directed,
        }),
        Body::NodeAttr { id, key, old, .. } => old.map(|value| Element::NodeAttr {
            id,
            key,
            value,
        }),
        Body::EdgeAttr { id, key, old, .. } => old.map(|value| Element::EdgeAttr {
            id,
            key,
            value,
        }),
    }
}
