//! The grammar of commands: the rows of one table, of symbols and of what makes a command of them.
ghost use Rattle.std.specs.Prelude.{◌≡◌, ◌≤◌};
ghost use Rattle.dg_machine.specs.CommandGrammar.{CountIsInRange};
ghost use Rattle.dg_line.specs.Table.{columns_at, function_at, heard_columns_at, made_of, within};

use crate::tails::Tail;
use dg_grammar::Symbol;
use dg_graph::{Columns, Function, TIME_MAX};
use dg_history::{BATCH_LINES_MAX, NodeId};
use dg_machine::{Command, FIRST_HANDLE, Query, Selection};

/// The most words of a row, its verb among them.
pub(crate) const WORDS_MAX: usize = 5;

/// The verb of a line, the symbols of the words behind it, and what comes behind these.
#[derive(Clone, Copy)]
pub(crate) struct Row(pub &'static [u8], pub &'static [Symbol], pub End);

/// What ends a line behind the words of a row.
#[derive(Clone, Copy)]
pub(crate) enum End {
    /// Nothing: the words are the line, and this makes the command of their values.
    Made(Make),
    /// A text that no row of symbols stands for.
    Then(Tail),
}

const N32: Symbol = Symbol::Number {
    least: 0,
    greatest: u32::MAX as u64,
};

const COUNT: Symbol = Symbol::Number {
    least: 1,
    greatest: BATCH_LINES_MAX as u64,
};

const COUNT_FROM_0: Symbol = Symbol::Number {
    least: 0,
    greatest: BATCH_LINES_MAX as u64,
};

pub(crate) const TIME: Symbol = Symbol::Number {
    least: 0,
    greatest: TIME_MAX,
};

const HANDLE: Symbol = Symbol::Number {
    least: FIRST_HANDLE as u64,
    greatest: u32::MAX as u64,
};

const ID: Symbol = Symbol::Number {
    least: 0,
    greatest: u64::MAX,
};

const CELLS: Symbol = Symbol::Number {
    least: 1,
    greatest: u32::MAX as u64,
};

const FUNCTION: Symbol = Symbol::OneOf(&[b"intersection", b"union", b"balanced"]);

const COLUMNS: Symbol = Symbol::OneOf(&[b"s", b"sn", b"se", b"sne"]);

const HEARD_COLUMNS: Symbol = Symbol::OneOf(&[
    b"st", b"snt", b"set", b"snet", b"s", b"sn", b"se", b"sne",
]);

// A new command also needs: a variant of `Make` and its arm in `made`, below; an arm of `made_of` in specs/Table.antt; and its
// line in `each_command` of proofs/CommandRows.antt, which says that the row and the arm are the reader of its verb in
// dg_machine's `command_verbs`.
/// The rows of commands, in the order of that table. One space parts two words.
pub(crate) const COMMANDS: &[Row] = &[
    Row(b"create", &[N32, N32, FUNCTION], End::Made(Make::Create)),
    Row(
        b"create",
        &[N32, N32, Symbol::OneOf(&[b"skewed"]), N32],
        End::Made(Make::CreateSkewed),
    ),
    Row(b"load", &[COUNT], End::Made(Make::Load)),
    Row(b"append", &[COUNT], End::Made(Make::Append)),
    Row(b"at", &[TIME, HEARD_COLUMNS], End::Made(Make::At)),
    Row(b"several", &[HEARD_COLUMNS], End::Then(Tail::Instants)),
    Row(
        b"materialise",
        &[Symbol::OneOf(&[b"leaf"]), N32, COLUMNS],
        End::Made(Make::Leaf),
    ),
    Row(
        b"materialise",
        &[Symbol::OneOf(&[b"inner"]), N32, N32, COLUMNS],
        End::Made(Make::Inner),
    ),
    Row(b"list", &[HANDLE], End::Made(Make::List)),
    Row(b"counts", &[HANDLE], End::Made(Make::Counts)),
    Row(b"node", &[HANDLE, ID], End::Made(Make::Node)),
    Row(b"neighbours", &[HANDLE, ID], End::Made(Make::Neighbours)),
    Row(b"release", &[HANDLE], End::Made(Make::Release)),
    Row(
        b"clean",
        &[Symbol::OneOf(&[b"all"])],
        End::Made(Make::CleanAll),
    ),
    Row(b"clean", &[CELLS], End::Made(Make::Clean)),
    Row(b"pool", &[], End::Made(Make::Pool)),
    Row(b"plan", &[TIME, COLUMNS], End::Made(Make::Plan)),
    Row(
        b"certify",
        &[TIME, COLUMNS, COUNT_FROM_0],
        End::Made(Make::Certify),
    ),
    Row(b"verify", &[], End::Made(Make::Verify)),
    Row(b"upgrade", &[], End::Made(Make::Upgrade)),
    Row(b"tree", &[], End::Made(Make::Tree)),
    Row(b"workload", &[ID, COUNT], End::Made(Make::Workload)),
    Row(
        b"interval",
        &[TIME, TIME, HEARD_COLUMNS],
        End::Made(Make::Interval),
    ),
    Row(b"index", &[], End::Then(Tail::Key)),
    Row(b"expression", &[COLUMNS], End::Then(Tail::Expression)),
    Row(b"find", &[TIME], End::Then(Tail::Search)),
];

/// The rows of the commands that several parts of an index answer together.
pub(crate) const PART_COMMANDS: &[Row] = &[
    Row(b"at", &[TIME, COLUMNS], End::Made(Make::PlainAt)),
    Row(b"list", &[HANDLE], End::Made(Make::List)),
    Row(b"release", &[HANDLE], End::Made(Make::Release)),
];

/// Which command is made of the values of the words.
#[derive(Clone, Copy)]
pub(crate) enum Make {
    Create,
    CreateSkewed,
    Load,
    Append,
    At,
    PlainAt,
    Leaf,
    Inner,
    List,
    Counts,
    Node,
    Neighbours,
    Release,
    CleanAll,
    Clean,
    Pool,
    Plan,
    Certify,
    Verify,
    Upgrade,
    Tree,
    Workload,
    Interval,
}

/// The command of these values: a number, or which of the texts of its symbol a word is. That of the verb is the first.
pub(crate) fn made(make: Make, values: &[u64; WORDS_MAX]) -> Command
    ensures command { result ≡ made_of make values.now }
    ensures range { CountIsInRange result }
{
    match make {
        Make::Create => Command::Create {
            l: n32(values[1]),
            k: n32(values[2]),
            function: function(values[3]),
        },
        Make::CreateSkewed => Command::CreateSkewed {
            l: n32(values[1]),
            k: n32(values[2]),
            r: n32(values[4]),
        },
        Make::Load => Command::Load {
            count: count(values[1]),
        },
        Make::Append => Command::Append {
            count: count(values[1]),
        },
        Make::At => Command::At {
            t: values[1],
            cols: heard_columns(values[2]),
        },
        Make::PlainAt => Command::At {
            t: values[1],
            cols: columns(values[2]),
        },
        Make::Leaf => Command::Materialise {
            node: NodeId::Leaf(n32(values[2])),
            cols: columns(values[3]),
        },
        Make::Inner => Command::Materialise {
            node: NodeId::Inner(n32(values[2]), n32(values[3])),
            cols: columns(values[4]),
        },
        Make::List => Command::Ask {
            handle: handle(values[1]),
            query: Query::List,
        },
        Make::Counts => Command::Ask {
            handle: handle(values[1]),
            query: Query::Counts,
        },
        Make::Node => Command::Ask {
            handle: handle(values[1]),
            query: Query::Node(values[2]),
        },
        Make::Neighbours => Command::Ask {
            handle: handle(values[1]),
            query: Query::Neighbours(values[2]),
        },
        Make::Release => Command::Release {
            handle: handle(values[1]),
        },
        Make::CleanAll => Command::CleanAll,
        Make::Clean => Command::Clean {
            cells: bounded(values[1], 1, u32::MAX),
        },
        Make::Pool => Command::Pool,
        Make::Plan => Command::Plan {
            t: values[1],
            cols: columns(values[2]),
        },
        Make::Certify => Command::Certify {
            t: values[1],
            cols: columns(values[2]),
            count: bounded(values[3], 0, BATCH_LINES_MAX),
        },
        Make::Verify => Command::Verify,
        Make::Upgrade => Command::Upgrade,
        Make::Tree => Command::Tree,
        Make::Workload => Command::Workload {
            seed: values[1],
            count: count(values[2]),
        },
        Make::Interval => Command::Select {
            what: Selection::Added {
                from: values[1],
                until: values[2],
            },
            cols: heard_columns(values[3]),
        },
    }
}

fn n32(value: u64) -> u32
    ensures { result ≡ within 0 4294967295 value }
{
    bounded(value, 0, u32::MAX)
}

fn handle(value: u64) -> u32
    ensures { result ≡ within 1 4294967295 value }
{
    bounded(value, FIRST_HANDLE, u32::MAX)
}

fn count(value: u64) -> u32
    ensures count { result ≡ within 1 BATCH_LINES_MAX value }
    ensures range { (1 ≤ result) × (result ≤ BATCH_LINES_MAX) }
{
    bounded(value, 1, BATCH_LINES_MAX)
}

// The value, which a symbol of this range keeps as it is.
fn bounded(value: u64, least: u32, greatest: u32) -> u32
    requires { least ≤ greatest }
    ensures number { result ≡ within least greatest value }
    ensures range { (least ≤ result) × (result ≤ greatest) }
{
    value.min(u64::from(greatest)).max(u64::from(least)) as u32
}

// The function of this index in `FUNCTION`.
fn function(index: u64) -> Function
    ensures { result ≡ function_at index }
{
    if index == 0 {
        Function::Intersection
    } else if index == 1 {
        Function::Union
    } else {
        Function::Balanced
    }
}

/// The columns of this index in `HEARD_COLUMNS`: the first four have messages.
pub(crate) fn heard_columns(index: u64) -> Columns
    ensures { result ≡ heard_columns_at index }
{
    Columns {
        transient: index < 4,
        ..columns(index)
    }
}

/// The columns of this index in `COLUMNS`.
pub(crate) fn columns(index: u64) -> Columns
    ensures { result ≡ columns_at index }
{
    Columns {
        nodes_attr: index % 2 == 1,
        edges_attr: index / 2 % 2 == 1,
        transient: false,
    }
}
