//! Whether the key of a value may be one.

ghost use Rattle.std.specs.Prelude.{◌≡◌};
ghost use Rattle.dg_graph.specs.Completion.{has_key};
ghost use Rattle.dg_text.specs.Names.{is_key, name_text};

use dg_graph::Body;
use dg_names::{Names, is_key};

/// Whether the key of a value has a text that may be a key. A change of nodes and edges has no key, and no message has
/// one.
pub fn has_key(names: &Names, body: &Body) -> bool
    ensures { result ≡ has_key names.now body.now }
{
    match *body {
        Body::NodeAttr { key, .. } => is_key_number(names, key),
        Body::EdgeAttr { key, .. } => is_key_number(names, key),
        Body::NodeAdded { .. }
        | Body::NodeRemoved { .. }
        | Body::EdgeAdded { .. }
        | Body::EdgeRemoved { .. }
        | Body::Message { .. } => true,
    }
}

// Whether the name of this number may be a key.
fn is_key_number(names: &Names, number: u32) -> bool
    ensures { result ≡ is_key (name_text names.now number) }
{
    match names.text(number) {
        Some(text) => is_key(text),
        None => false,
    }
}
