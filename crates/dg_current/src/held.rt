//! What a graph holds under an element id, as far as the id does not say it.
ghost use Rattle.std.specs.Prelude.{◌≡◌};
ghost use Rattle.dg_current.specs.HeldElements.{held_of, element_in};

use crate::element_id::ElementId;
use dg_graph::Element;

/// What is held under an element id: with the id it makes the element.
#[derive(Clone, Copy)]
pub(crate) enum Held {
    /// No element.
    Nothing,
    /// The node of the id.
    Node,
    /// The edge of the id. The flag stands first, beside the kind: so this takes 24 bytes, and not 32.
    Edge { directed: bool, src: u64, dst: u64 },
    /// The value of the id's key.
    Value(u32),
}

impl Held {
    /// What is held under the element's id where the element is there: nothing of a message, which no graph has.
    pub(crate) fn of(element: &Element) -> Held
        ensures { result ≡ held_of element.now }
    {
        match *element {
            Element::Node { .. } => Held::Node,
            Element::Edge {
                src,
                dst,
                directed,
                ..
            } => Held::Edge { directed, src, dst },
            Element::NodeAttr { value, .. } | Element::EdgeAttr { value, .. } => Held::Value(value),
            Element::Message { .. } => Held::Nothing,
        }
    }

    /// The element that is held under the id.
    pub(crate) fn element(&self, id: ElementId) -> Option<Element>
        ensures { result ≡ element_in id self.now }
    {
        match (id, *self) {
            (ElementId::Node(id), Held::Node) => Some(Element::Node { id }),
            (ElementId::Edge(id), Held::Edge { directed, src, dst }) => Some(Element::Edge {
                id,
                src,
                dst,
                directed,
            }),
            (ElementId::NodeValue { key, id }, Held::Value(value)) => Some(Element::NodeAttr {
                id,
                key,
                value,
            }),
            (ElementId::EdgeValue { key, id }, Held::Value(value)) => Some(Element::EdgeAttr {
                id,
                key,
                value,
            }),
            _ => None,
        }
    }
}
