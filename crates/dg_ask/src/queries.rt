//! The answer to what is asked of a handle's graph.

ghost use Rattle.std.specs.Prelude.{◌≡◌, true, IfOk, OnErr, map};
ghost use Rattle.dg_machine.specs.declared.query.Query.TheVariants as query;
ghost use Rattle.dg_machine.specs.declared.reply.BodyLine.TheVariants as line;
ghost use Rattle.dg_machine.specs.declared.reply.Head.TheVariants as head;
ghost use Rattle.dg_machine.specs.declared.reply.Reply.TheVariants as replied;
ghost use Rattle.dg_machine.specs.Answer.{query_reply};
ghost use Rattle.dg_machine.specs.QueryTable.{is_of_nodes, takes_memory};
ghost use Rattle.dg_ask.specs.KeptAdjacency.{BothServe, MayTurnTo, TurnsTo};
ghost use Rattle.dg_view.specs.NodeAnswer.{IsNodeOf};

use crate::kept_adjacency::KeptAdjacency;
use dg_graph::Columns;
use dg_machine::{BodyLine, BodyLines, Head, Query, QueryHead, Reply};
use dg_query::{KeyValue, Neighbour};
use dg_view::{NodeView, View};
use std::alloc::{AllocError, Global};

/// What is asked: a handle, its graph, and the columns that the graph has.
#[derive(Drop)]
pub struct AskedGraph<'a> {
    /// The number of the handle.
    pub handle: u32,
    /// The graph of the handle.
    pub graph: View<'a>,
    /// The columns of what the handle stands for.
    pub cols: Columns,
}

/// Whether the query is of the nodes of a graph as of an instant: it is refused of a handle that stands for a set.
pub fn is_of_nodes(query: Query) -> bool
    ensures { result ≡ is_of_nodes query }
{
    matches!(query, Query::Node(_) | Query::Neighbours(_))
}

// A new query also needs an arm here, and a function for it.
/// The answer to a query of the handle, by the adjacencies that are kept. An `Err` says that memory ran out, which
/// comes only to a query whose answer takes memory.
pub fn answer(
    alloc: Global,
    kept: &mut KeptAdjacency,
    asked: &AskedGraph<'_>,
    query: Query,
) -> Result<Reply, AllocError>
    requires kept { BothServe asked.now.handle asked.now.graph kept.old }
    ensures reply { IfOk result (λ reply. reply ≡ query_reply query asked.now.handle asked.now.cols asked.now.graph) }
    ensures kept { MayTurnTo asked.now.handle asked.now.graph kept.old kept.new }
    ensures memory { OnErr result (takes_memory query ≡ true) }
{
    match query {
        Query::List => list(alloc, asked),
        Query::Counts => Ok(counts(alloc, asked)),
        Query::Node(id) => node(alloc, kept, asked, id),
        Query::Neighbours(id) => neighbours(alloc, kept, asked, id),
    }
}

// The answer about the handle: what its first line tells, and the lines behind it.
fn reply_about(handle: u32, told: QueryHead, body: BodyLines) -> Reply
    ensures { result ≡ replied.Answered (head.Asked handle told) body }
{
    Reply::Answered {
        head: Head::Asked { handle, told },
        body,
    }
}

// The elements of the graph.
fn list(alloc: Global, asked: &AskedGraph<'_>) -> Result<Reply, AllocError>
    ensures { IfOk result (λ reply. reply ≡ query_reply query.List asked.now.handle asked.now.cols asked.now.graph) }
{
    let elements = asked.graph.list(alloc)?;
    let told = QueryHead::List {
        lines: elements.len() as u64,
    };
    Ok(reply_about(asked.handle, told, BodyLines::from_elements(elements)))
}

// How many elements of each kind the graph has. Takes no memory.
fn counts(alloc: Global, asked: &AskedGraph<'_>) -> Reply
    ensures { result ≡ query_reply query.Counts asked.now.handle asked.now.cols asked.now.graph }
{
    let told = QueryHead::Counts {
        counts: asked.graph.counts(),
        with_messages: asked.cols.transient,
    };
    reply_about(asked.handle, told, BodyLines::new(alloc))
}

// A node of the graph, with its degree and its attributes.
fn node(
    alloc: Global,
    kept: &mut KeptAdjacency,
    asked: &AskedGraph<'_>,
    id: u64,
) -> Result<Reply, AllocError>
    requires kept { BothServe asked.now.handle asked.now.graph kept.old }
    ensures reply { IfOk result (λ reply. reply ≡ query_reply (query.Node id) asked.now.handle asked.now.cols asked.now.graph) }
    ensures kept { TurnsTo asked.now.handle asked.now.graph kept.old kept.new }
{
    let node = kept.node(alloc, asked.handle, &asked.graph, id)?;
    node_reply(alloc, asked, id, node)
}

// The answer about this node of the graph, or that the graph has none of this id.
fn node_reply(
    alloc: Global,
    asked: &AskedGraph<'_>,
    id: u64,
    node: Option<NodeView>,
) -> Result<Reply, AllocError>
    requires node { IsNodeOf asked.now.graph id node }
    ensures { IfOk result (λ reply. reply ≡ query_reply (query.Node id) asked.now.handle asked.now.cols asked.now.graph) }
{
    match node {
        Some(NodeView { degree, attributes }) => {
            let lines = attribute_lines(alloc, &attributes)?;
            let told = QueryHead::NodeThere { id, degree };
            Ok(reply_about(asked.handle, told, BodyLines::from_vec(lines)))
        }
        None => {
            let told = QueryHead::NodeAbsent { id };
            Ok(reply_about(asked.handle, told, BodyLines::new(alloc)))
        }
    }
}

// A line for each attribute.
fn attribute_lines(alloc: Global, attributes: &[KeyValue]) -> Result<Vec<BodyLine>, AllocError>
    ensures { IfOk result (λ lines. lines.items ≡ map (λ v. line.Attribute v) attributes.now) }
{
    attributes
        .iter()
        .map(|attribute| BodyLine::Attribute(*attribute))
        .collect(alloc)
}

// The edges at a node of the graph, each with its other end.
fn neighbours(
    alloc: Global,
    kept: &mut KeptAdjacency,
    asked: &AskedGraph<'_>,
    id: u64,
) -> Result<Reply, AllocError>
    requires kept { BothServe asked.now.handle asked.now.graph kept.old }
    ensures reply { IfOk result (λ reply. reply ≡ query_reply (query.Neighbours id) asked.now.handle asked.now.cols asked.now.graph) }
    ensures kept { TurnsTo asked.now.handle asked.now.graph kept.old kept.new }
{
    let neighbours = kept.neighbours(alloc, asked.handle, &asked.graph, id)?;
    let lines = neighbour_lines(alloc, &neighbours)?;
    let told = QueryHead::Neighbours {
        id,
        lines: lines.len() as u64,
    };
    Ok(reply_about(asked.handle, told, BodyLines::from_vec(lines)))
}

// A line for each edge at a node.
fn neighbour_lines(alloc: Global, neighbours: &[Neighbour]) -> Result<Vec<BodyLine>, AllocError>
    ensures { IfOk result (λ lines. lines.items ≡ map (λ n. line.Neighbour n) neighbours.now) }
{
    neighbours
        .iter()
        .map(|neighbour| BodyLine::Neighbour(*neighbour))
        .collect(alloc)
}
