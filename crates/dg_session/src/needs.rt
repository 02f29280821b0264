//! What a command needs of a session.

use dg_history::NodeId;
use std::marker::Model;

/// What a command needs of a session before it is begun. Each command writes what it needs more than nothing:
/// `Needs { index: true, ..Needs::NOTHING }`.
#[derive(Drop)]
pub struct Needs<'t, 'k> {
    /// So many lines that follow it, where any may.
    pub lines: Option<u32>,
    /// An index.
    pub index: bool,
    /// No index yet, and a leaf list size, an arity and a share in their ranges.
    pub parameters: Option<(u32, u32, u32)>,
    /// The file in its first form.
    pub first_form: bool,
    /// No event yet.
    pub unloaded: bool,
    /// Room for so many changes.
    pub changes: u32,
    /// That these instants are in the history.
    pub instants: &'t [u64],
    /// And this one, or that it is the one behind the last.
    pub until: Option<u64>,
    /// That this handle is live.
    pub handle: Option<u32>,
    /// And stands for a graph as of an instant.
    pub overlay: bool,
    /// That no live handle rests on this one.
    pub unused: Option<u32>,
    /// That the index, which is needed too, has this leaf or interior node.
    pub node: Option<NodeId>,
    /// That the key of this text is not indexed, and room for one more that is.
    pub unindexed: Option<&'k [u8]>,
    /// That the key of this text is indexed.
    pub indexed: Option<&'k [u8]>,
    /// So many new handles.
    pub handles: u8,
}

impl<'t, 'k> Model for Needs<'t, 'k> {
    ghost use Rattle.std.specs.Prelude.{false, true, option_copied};
    ghost use Rattle.dg_machine.specs.Needs.{Needs};

    ghost Value = { Needs };

    ghost view = { λ n. record {
      lines = n.lines;
      index = n.index;
      parameters = n.parameters;
      first_form = n.first_form;
      unloaded = n.unloaded;
      changes = n.changes;
      instants = n.instants.now;
      until = n.until;
      handle = n.handle;
      overlay = n.overlay;
      unused = n.unused;
      node = n.node;
      unindexed = option_copied n.unindexed;
      indexed = option_copied n.indexed;
      handles = n.handles;
      memory = true;
      reads = false;
      writes = false;
    } };
}

impl Needs<'static, 'static> {
    /// Nothing.
    pub const NOTHING: Needs<'static, 'static> = Needs {
        lines: None,
        index: false,
        parameters: None,
        first_form: false,
        unloaded: false,
        changes: 0,
        instants: &[],
        until: None,
        handle: None,
        overlay: false,
        unused: None,
        node: None,
        unindexed: None,
        indexed: None,
        handles: 0,
    };
}
