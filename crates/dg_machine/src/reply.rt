//! Replies: their head lines, their body lines, and the refusals.
ghost use Rattle.std.specs.Prelude.{◌≡◌, ◌<◌, List, [], ◌∷◌, ◌++◌, Some, length, map, slice_get, OnOk, OnErr};
ghost use Rattle.dg_machine.specs.Answer.{headed};
ghost use Rattle.dg_machine.specs.declared.reply.BodyLine.TheVariants as line;

use crate::query::QueryHead;
use dg_graph::{Column, Element, Function};
use dg_history::{Key, NodeId};
use dg_index::PerColumn;
use dg_plan::Verdict;
use dg_query::{KeyValue, Neighbour};
use dg_sound::Soundness;
use std::alloc::{AllocError, Global};
use std::marker::Model;

/// The reply to one command. The line `end` follows its lines.
#[derive(Drop)]
pub enum Reply {
    /// The command was refused, and nothing has changed. The reply is one line.
    Refused(Refusal),
    /// The command was answered: a first line, and the lines of the body.
    Answered { head: Head, body: BodyLines },
}

impl Reply {
    /// An answer of a first line alone. It takes no memory.
    pub fn headed(alloc: Global, head: Head) -> Reply
        ensures { result ≡ headed head }
    {
        Reply::Answered {
            head,
            body: BodyLines::new(alloc),
        }
    }
}

// A new first line also needs: the command that it answers, in `Answer`; its words in `ReplyText` and dg_reply; the command that
// it fits, in dg_session's `IsHeadOf`.
/// The first line of the answer to a command.
#[derive(Clone, Copy)]
pub enum Head {
    /// An index was made.
    Created,
    /// The file goes on in its second form.
    Upgraded,
    /// A batch was loaded: its events, the events of the history, and the last instant.
    Loaded {
        events: u64,
        total: u64,
        last: u64,
    },
    /// A batch was appended: its events, the events of the history, and the last instant.
    Appended {
        events: u64,
        total: u64,
        last: u64,
    },
    /// A graph was retrieved as this handle: the weight of its plan, with that of the messages that were asked for.
    At {
        handle: u32,
        weight: u64,
    },
    /// Graphs were retrieved: the weight of their tree, and the sum of the weights of their single plans, each with that of
    /// the messages that were asked for. A line for each handle follows.
    Several {
        weight: u64,
        sum: u64,
    },
    /// The set of a node of the index is held as this handle, by a plan of this weight.
    Materialised {
        handle: u32,
        weight: u64,
    },
    /// The answer to what was asked of this handle.
    Asked {
        handle: u32,
        told: QueryHead,
    },
    /// A handle was given up.
    Released {
        handle: u32,
    },
    /// Cells of the pool were swept.
    Cleaned,
    /// All cells of the pool were swept, and so many are left.
    CleanedAll {
        cells: u64,
    },
    /// So many handles live, and their graphs and the current one have so many elements together.
    Pool {
        live: u32,
        size: u64,
    },
    /// A plan of this weight: its steps, and behind them the potentials below the weight.
    Plan {
        weight: u64,
        steps: u64,
    },
    /// What is said of a certificate.
    Certified(Verdict),
    /// The parameters of the index, its events, leaves and records: as many lines follow.
    Tree {
        l: u32,
        k: u32,
        function: Function,
        events: u64,
        leaves: u32,
        records: u64,
    },
    /// Whether the file is what its own events determine.
    Verified(Soundness),
    /// A generated batch was loaded: its events, the last instant, and the nodes and edges of the graph behind it.
    Generated {
        events: u64,
        last: u64,
        nodes: u64,
        edges: u64,
    },
    /// The elements of which an expression holds are held as this handle: the weight of the tree of its instants.
    Chosen {
        handle: u32,
        weight: u64,
    },
    /// The elements that were added between two instants are held as this handle: the weight of the lists in between.
    Added {
        handle: u32,
        weight: u64,
    },
    /// A node attribute is indexed: the events that set a value of it, and the weight of the columns that were read.
    Indexed {
        spans: u64,
        weight: u64,
    },
    /// The nodes that have a value of an indexed attribute: as many lines follow.
    Found {
        lines: u64,
    },
}

// A new refusal also needs: its place and its premise in `refusals_seen` (`Needs`); its words in `ReplyText` and dg_reply; and
// where it comes of a change, of the file or of memory, its line in `is_late`.
/// Why a command was refused. docs/SCRIPT.md has the order in which these are tested.
#[derive(Clone, Copy)]
pub enum Refusal {
    /// 1: the line is no command; the column at which it leaves the grammar, from 1.
    Syntax(u32),
    /// 2: there is no index.
    NoIndex,
    /// 3: there is an index.
    IndexExists,
    /// 4: the leaf list size or the arity is outside its range.
    Parameters,
    /// 5: the input ended within the batch; the lines read and the lines asked for.
    ShortBatch(u32, u32),
    /// 6: a line of the batch is refused; the line, from 1, and the reason.
    BadChange(u32, u8),
    /// 7: the instant is not in the history; its first and last time, or none.
    OutOfRange(Option<(u64, u64)>),
    /// 8: the handle is not live.
    UnknownHandle(u32),
    /// 9: too many handles; those that live and those asked for.
    PoolFull(u32, u32),
    /// 10: a live handle rests on this one; the least that does.
    InUse(u32),
    /// 11: the index has no such leaf or interior node.
    UnknownNode,
    /// 12: the history has no room for the batch; the events held, and the events of the batch.
    HistoryFull(u64, u64),
    /// 13: the file has no room for the batch; the bytes that it would take, and the limit.
    FileFull(u64, u64),
    /// 14: a read of the index file failed.
    StoreRead,
    /// 15: this column of this record of the index is in no spelling.
    Damaged(Key, Column),
    /// 16: want of memory.
    OutOfMemory,
    /// 17: the handle stands for a set, of a node of the index or selected, and not for a graph as of an instant.
    NotAnOverlay(u32),
    /// 18: the line has more than `LINE_BYTES_MAX` bytes.
    LineLong,
    /// 19: the last handle to be given would have a greater number than a handle may have.
    HandlesSpent,
    /// 20: the history has an event already.
    AlreadyLoaded,
    /// 21: the file has its second form already.
    NewFormat,
    /// 22: a line of the batch is a message, and the file has its first form.
    OldFormat,
    /// 23: no name has the text of the key that is to be indexed.
    UnknownKey,
    /// 24: the key is not indexed.
    NotIndexed,
    /// 25: the key is indexed already.
    AlreadyIndexed,
    /// 26: as many keys are indexed as may be.
    IndexesFull,
}

/// A line of a reply's body.
#[derive(Clone, Copy)]
pub enum BodyLine {
    /// An element of a listing.
    Element(Element),
    /// An attribute of a node.
    Attribute(KeyValue),
    /// An edge at a node.
    Neighbour(Neighbour),
    /// A new handle with its instant, and the weight of the instant's single plan with that of the messages asked for.
    Handle {
        handle: u32,
        t: u64,
        single: u64,
    },
    /// A step of a plan: the number of its edge, the node that it enters, and its weight.
    Step {
        edge: u32,
        head: NodeId,
        weight: u64,
    },
    /// The potential of a node.
    Potential {
        node: NodeId,
        value: u64,
    },
    /// A record, and the bytes of each column.
    Sizes {
        key: Key,
        lengths: PerColumn<u64>,
    },
}

// The lines of a body as they are held: a listing by its elements alone, which are smaller than lines.
#[derive(Drop)]
enum HeldLines {
    Elements(Vec<Element>),
    Lines(Vec<BodyLine>),
}

/// The lines of a body, seen as their list.
#[derive(Drop)]
pub struct BodyLines {
    held: HeldLines,
}

impl Model for BodyLines {
    ghost use Rattle.std.specs.Prelude.{List};
    ghost use Rattle.dg_machine.specs.declared.reply.BodyLine.{BodyLine};
    ghost use Rattle.dg_machine.specs.HeldLines.{lines_in};

    ghost Value = { List BodyLine };

    ghost view = { λ b. lines_in b.held };
}

impl BodyLines {
    /// No line. It takes no memory.
    pub fn new(alloc: Global) -> BodyLines
        ensures { result ≡ [] }
    {
        BodyLines::from_vec(Vec::new(alloc))
    }

    /// These lines. It takes no memory.
    pub fn from_vec(lines: Vec<BodyLine>) -> BodyLines
        ensures { result ≡ lines.items }
    {
        BodyLines {
            held: HeldLines::Lines(lines),
        }
    }

    /// A line for each of these elements. It takes no memory.
    pub fn from_elements(elements: Vec<Element>) -> BodyLines
        ensures { result ≡ map (λ x. line.Element x) elements.items }
    {
        BodyLines {
            held: HeldLines::Elements(elements),
        }
    }

    /// How many lines there are.
    pub fn len(&self) -> usize
        ensures { result ≡ length self.now }
    {
        match &self.held {
            HeldLines::Elements(elements) => elements.len(),
            HeldLines::Lines(lines) => lines.len(),
        }
    }

    /// The line of this number, from 0 on.
    pub fn line(&self, number: usize) -> BodyLine
        requires { number < length self.now }
        ensures { slice_get self.now number ≡ Some result }
    {
        match &self.held {
            HeldLines::Elements(elements) => BodyLine::Element(elements[number]),
            HeldLines::Lines(lines) => lines[number],
        }
    }
}
