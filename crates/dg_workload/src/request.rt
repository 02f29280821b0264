//! What the changes ask for, with the texts of keys and values.

ghost use Rattle.std.specs.Prelude.{◌≡◌, ◌+◌, ◌*◌, ◌%◌, ◌^◌, ◌<◌, codes};
ghost use Rattle.dg_changes.specs.ChangeGrammar.{Sets_node};
ghost use Rattle.dg_changes.specs.GeneratedChanges.{generated_what, lettered};
ghost use Rattle.dg_workload.specs.Request.{request_by_text};

use dg_graph::What;

/// How many values the key `kind` takes.
const KINDS: u64 = 5;

/// The numbers that are values of the key `w` are below this.
const WEIGHTS: u64 = 100;

/// What a generated change asks for, by the texts of its key and its value.
#[derive(Clone, Copy)]
pub enum Request {
    /// A change that has no texts.
    Plain(What),
    /// A value of a key at a node.
    SetNode { id: u64, key: Key, number: u64 },
    /// No value of a key at a node.
    UnsetNode { id: u64, key: Key },
    /// A value of a key at an edge.
    SetEdge { id: u64, key: Key, number: u64 },
    /// No value of a key at an edge.
    UnsetEdge { id: u64, key: Key },
}

/// A key of generated changes. Its values are a letter and a number, or a number alone.
#[derive(Clone, Copy)]
pub enum Key {
    /// `kind`, with the values `v0` to `v4`.
    Kind,
    /// `w`, with the values `0` to `99`.
    Weight,
    /// `name`, with the number of a group behind the letter `n`.
    Name,
}

/// What the change of this kind, from 0 to 7, asks for in a group of eight changes, by the part of
/// its number that it goes by.
pub fn requested(kind: u32, group: u32, part: u64) -> Request
    requires { kind < 8 }
    ensures { request_by_text result ≡ generated_what kind group part }
{
    let group = u64::from(group);
    let edge = group + 1;
    let first = 2 * group + 1;
    let second = 2 * group + 2;
    match kind {
        0 => Request::Plain(What::AddNode { id: first }),
        1 => Request::Plain(What::AddNode { id: second }),
        2 => Request::Plain(What::AddEdge {
            id: edge,
            src: first,
            dst: node_up_to(second, part),
            directed: part % 2 == 0,
        }),
        3 => kind_of_node(first, part),
        4 => kind_of_node(node_up_to(second, part), part),
        5 => Request::SetEdge {
            id: edge,
            key: Key::Weight,
            number: part % WEIGHTS,
        },
        6 => value_taken_away(group),
        _ => end_of_group(group),
    }
}

// A node from 1 to `last`.
fn node_up_to(last: u64, part: u64) -> u64
    requires { 0 < last }
    ensures { result ≡ part % last + 1 }
{
    part % last + 1
}

// A value of the key `kind` at a node.
fn kind_of_node(id: u64, part: u64) -> Request
    ensures { request_by_text result ≡ Sets_node id (codes "kind") (lettered (codes "v") (part % 5)) }
{
    Request::SetNode {
        id,
        key: Key::Kind,
        number: part % KINDS,
    }
}

// The change before the last of a group takes the value away that the group gave its first node, or in
// an odd group its edge.
fn value_taken_away(group: u64) -> Request
    requires { group < 2 ^ 32 }
    ensures { request_by_text result ≡ generated_what 6 group 0 }
{
    if group % 2 == 0 {
        Request::UnsetNode {
            id: 2 * group + 1,
            key: Key::Kind,
        }
    } else {
        Request::UnsetEdge {
            id: group + 1,
            key: Key::Weight,
        }
    }
}

// The last change of a group gives its second node a name, or in an odd group takes its edge away.
fn end_of_group(group: u64) -> Request
    requires { group < 2 ^ 32 }
    ensures { request_by_text result ≡ generated_what 7 group 0 }
{
    if group % 2 == 0 {
        Request::SetNode {
            id: 2 * group + 2,
            key: Key::Name,
            number: group,
        }
    } else {
        Request::Plain(What::RemoveEdge { id: group + 1 })
    }
}
