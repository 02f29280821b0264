//! What one element tells of a node.
ghost use Rattle.std.specs.Prelude.{◌≡◌};
ghost use Rattle.dg_query.specs.Queries.{side_as, edge_at, value_at};
ghost use Rattle.dg_view.specs.Walk.{value_of_key};

use dg_graph::Element;
use dg_query::{KeyValue, Neighbour, Side};

// The side on which an edge lies, by the side where it is directed.
fn side(directed: bool, side: Side) -> Side
    ensures { result ≡ side_as directed side }
{
    if directed { side } else { Side::Both }
}

/// The edge at the node, if the element is one.
pub(crate) fn edge_at(node: u64, element: &Element) -> Option<Neighbour>
    ensures { result ≡ edge_at node element.now }
{
    match *element {
        Element::Edge {
            id,
            src,
            dst,
            directed,
        } => {
            if src == node {
                Some(Neighbour {
                    edge: id,
                    node: dst,
                    side: side(directed, Side::Out),
                })
            } else if dst == node {
                Some(Neighbour {
                    edge: id,
                    node: src,
                    side: side(directed, Side::Inward),
                })
            } else {
                None
            }
        }
        _ => None,
    }
}

/// The key and the value, if the element is an attribute of the node.
pub(crate) fn value_at(node: u64, element: &Element) -> Option<KeyValue>
    ensures { result ≡ value_at node element.now }
{
    match *element {
        Element::NodeAttr { id, key, value } => {
            if id == node {
                Some(KeyValue { key, value })
            } else {
                None
            }
        }
        _ => None,
    }
}

/// The value, if the element is a value of the key at the node.
pub(crate) fn value_of_key(node: u64, wanted: u32, element: &Element) -> Option<u32>
    ensures { result ≡ value_of_key node wanted element.now }
{
    match *element {
        Element::NodeAttr { id, key, value } => {
            if id == node && key == wanted {
                Some(value)
            } else {
                None
            }
        }
        _ => None,
    }
}
