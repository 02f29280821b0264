//! The step or the potential that a line of a certificate is.
ghost use Rattle.std.specs.Option.{option_map};
ghost use Rattle.std.specs.Prelude.{drop, ◌≡◌, MatchOption, None, ℕ};
ghost use Rattle.dg_text.specs.Verbs.{look_up, one, read_by};
ghost use Rattle.dg_changes.specs.ChangeGrammar.{time_of};
ghost use Rattle.dg_history.specs.declared.node.NodeId.{NodeId};
ghost use Rattle.dg_plan.specs.declared.certificate.PlanLine.{PlanLine};
ghost use Rattle.dg_machine.specs.CommandGrammar.{node_verbs, plan_line_of, step_of};

use crate::words::{Words, found, is, n32, only_number};
use dg_graph::TIME_MAX;
use dg_history::NodeId;
use dg_plan::PlanLine;

/// The plan line that the line is: `step N32 NODE TIME`, the number of an edge, the node that it
/// enters and its weight, or `potential NODE TIME`. None where it is in neither form. It takes no
/// memory.
pub fn read_plan_line(line: &[u8]) -> Option<PlanLine>
    ensures { result ≡ plan_line_of line.now }
{
    let mut words = Words::of(line);
    let verb = found!(words.next());
    if is(verb, b"step") {
        step(words)
    } else if is(verb, b"potential") {
        potential(words)
    } else {
        None
    }
}

// `N32 NODE TIME`, from the words after `step`.
fn step(mut words: Words) -> Option<PlanLine>
    ensures { result ≡ step_of words.entry }
{
    let edge = found!(n32(found!(words.next())));
    let (head, weight) = found!(node_and_number(words));
    Some(PlanLine::Step { edge, head, weight })
}

// `NODE TIME`, from the words after `potential`.
fn potential(words: Words) -> Option<PlanLine>
    ensures { result ≡ read_by (node_verbs (λ node value. PlanLine.Potential node value)) words.entry }
{
    let (node, value) = found!(node_and_number(words));
    Some(PlanLine::Potential { node, value })
}

// `NODE TIME`.
fn node_and_number(mut words: Words) -> Option<(NodeId, u64)>
    ensures { (make : NodeId → ℕ → PlanLine) → option_map (λ both. make both.0 both.1) result ≡ read_by (node_verbs make) words.entry }
{
    let node = found!(node(&mut words));
    let number = found!(only_time(words));
    Some((node, number))
}

// The number that is the only word.
fn only_time(words: Words) -> Option<u64>
    ensures { (make : ℕ → PlanLine) → option_map make result ≡ one time_of make words.entry }
{
    only_number(words, 0, TIME_MAX)
}

// The node of the first words: its kind and its numbers. What is left is to be a number.
fn node(words: &mut Words) -> Option<NodeId>
    ensures { MatchOption result
        ((make : NodeId → ℕ → PlanLine) → read_by (node_verbs make) words.old ≡ None)
        (λ node. (make : NodeId → ℕ → PlanLine) → read_by (node_verbs make) words.old ≡ one time_of (make node) words.new) }
{
    let kind = found!(words.next());
    if is(kind, b"root") {
        Some(NodeId::Root)
    } else if is(kind, b"now") {
        Some(NodeId::Now)
    } else if is(kind, b"recent") {
        Some(NodeId::Recent)
    } else {
        numbered_node(kind, words)
    }
}

// The node of this kind and of the first words, where its kind has numbers.
fn numbered_node(kind: &[u8], words: &mut Words) -> Option<NodeId>
    ensures { MatchOption result
        ((make : NodeId → ℕ → PlanLine) → look_up kind.now (drop 3 (node_verbs make)) words.old ≡ None)
        (λ node. (make : NodeId → ℕ → PlanLine) → look_up kind.now (drop 3 (node_verbs make)) words.old ≡ one time_of (make node) words.new) }
{
    if is(kind, b"leaf") {
        Some(NodeId::Leaf(found!(n32(found!(words.next())))))
    } else if is(kind, b"list") {
        Some(NodeId::List(found!(n32(found!(words.next())))))
    } else if is(kind, b"inner") {
        let height = found!(n32(found!(words.next())));
        Some(NodeId::Inner(height, found!(n32(found!(words.next())))))
    } else {
        None
    }
}
