//! The first lines of answers, by what a command came to.
ghost use Rattle.std.specs.Prelude.{◌≡◌, ◌≤◌, ◌++◌, [], ◌∷◌, map, take, codes, decimal};
ghost use Rattle.dg_machine.specs.ReplyText.{head_words, function_words, soundness_words, verdict_words};
ghost use Rattle.dg_reply.specs.Buffered.{word_bytes};

use crate::query::query_line;
use crate::reply_buffer::Word::{Number, Text};
use crate::reply_line::{OK, ReplyLine, WORDS_MAX, column_letter};
use dg_graph::Function;
use dg_machine::Head;
use dg_plan::Verdict;
use dg_sound::Soundness;

/// The first line of an answer.
pub(crate) fn head_line(head: &Head) -> ReplyLine<'static>
    ensures words { map word_bytes (take result.len result.words) ≡ head_words head.now }
    ensures len { result.len ≤ WORDS_MAX }
{
    match *head {
        Head::Created => ReplyLine::of(&[OK, Text(b"create")]),
        Head::Upgraded => ReplyLine::of(&[OK, Text(b"upgrade")]),
        Head::Loaded {
            events,
            total,
            last,
        } => batch_line(b"load", events, total, last),
        Head::Appended {
            events,
            total,
            last,
        } => batch_line(b"append", events, total, last),
        Head::At { handle, weight } => numbers_line(b"at", u64::from(handle), weight),
        Head::Several { weight, sum } => numbers_line(b"several", weight, sum),
        Head::Materialised { handle, weight } => {
            numbers_line(b"materialise", u64::from(handle), weight)
        }
        Head::Asked { handle, told } => query_line(handle, told),
        Head::Released { handle } => {
            ReplyLine::of(&[OK, Text(b"release"), Number(u64::from(handle))])
        }
        Head::Cleaned => ReplyLine::of(&[OK, Text(b"clean")]),
        Head::CleanedAll { cells } => ReplyLine::of(&[
            OK,
            Text(b"clean"),
            Text(b"all"),
            Number(cells),
        ]),
        Head::Pool { live, size } => numbers_line(b"pool", u64::from(live), size),
        Head::Plan { weight, steps } => numbers_line(b"plan", weight, steps),
        Head::Certified(verdict) => verdict_line(verdict),
        Head::Tree {
            l,
            k,
            function,
            events,
            leaves,
            records,
        } => tree_line(l, k, function, events, leaves, records),
        Head::Verified(soundness) => soundness_line(soundness),
        Head::Generated {
            events,
            last,
            nodes,
            edges,
        } => ReplyLine::of(&[
            OK,
            Text(b"workload"),
            Number(events),
            Number(last),
            Number(nodes),
            Number(edges),
        ]),
        Head::Chosen { handle, weight } => {
            numbers_line(b"expression", u64::from(handle), weight)
        }
        Head::Added { handle, weight } => numbers_line(b"interval", u64::from(handle), weight),
        Head::Indexed { spans, weight } => numbers_line(b"index", spans, weight),
        Head::Found { lines } => ReplyLine::of(&[OK, Text(b"find"), Number(lines)]),
    }
}

// The first line of a batch: its events, those of the history, and the last instant.
fn batch_line(verb: &'static [u8], events: u64, total: u64, last: u64) -> ReplyLine<'static>
    ensures words { map word_bytes (take result.len result.words) ≡ codes "ok" ∷ verb.now ∷ decimal events ∷ decimal total ∷ decimal last ∷ [] }
    ensures len { result.len ≤ WORDS_MAX }
{
    ReplyLine::of(&[OK, Text(verb), Number(events), Number(total), Number(last)])
}

// The first line of a command with two numbers: a handle, a weight or how many handles live, and another.
fn numbers_line(verb: &'static [u8], first: u64, second: u64) -> ReplyLine<'static>
    ensures words { map word_bytes (take result.len result.words) ≡ codes "ok" ∷ verb.now ∷ decimal first ∷ decimal second ∷ [] }
    ensures len { result.len ≤ WORDS_MAX }
{
    ReplyLine::of(&[OK, Text(verb), Number(first), Number(second)])
}

// The first line of what is said of a certificate.
fn verdict_line(verdict: Verdict) -> ReplyLine<'static>
    ensures words { map word_bytes (take result.len result.words) ≡ codes "ok" ∷ codes "certify" ∷ verdict_words verdict }
    ensures len { result.len ≤ WORDS_MAX }
{
    let mut line = ReplyLine::of(&[OK, Text(b"certify")]);
    match verdict {
        Verdict::Valid => line.put(Text(b"valid")),
        Verdict::Line(number) => line.put_numbered(b"line", number),
        Verdict::Step(number) => line.put_numbered(b"step", number),
        Verdict::Potential(node) => {
            line.put(Text(b"potential"));
            line.put_node(node);
        }
        Verdict::NotTight => line.put(Text(b"not-tight")),
    }
    line
}

// The first line of what is said of the file.
fn soundness_line(soundness: Soundness) -> ReplyLine<'static>
    ensures words { map word_bytes (take result.len result.words) ≡ codes "ok" ∷ codes "verify" ∷ soundness_words soundness }
    ensures len { result.len ≤ WORDS_MAX }
{
    let mut line = ReplyLine::of(&[OK, Text(b"verify")]);
    match soundness {
        Soundness::Sound(records) => {
            line.put(Text(b"sound"));
            line.put(Number(records));
        }
        Soundness::Unsound(key, column) => {
            line.put(Text(b"unsound"));
            line.put_key(key);
            line.put(Text(column_letter(column)));
        }
    }
    line
}

// The first line of the parameters of the index, its events, leaves and records.
fn tree_line(
    l: u32,
    k: u32,
    function: Function,
    events: u64,
    leaves: u32,
    records: u64,
) -> ReplyLine<'static>
    ensures words { map word_bytes (take result.len result.words) ≡ codes "ok" ∷ codes "tree" ∷ decimal l ∷ decimal k ∷ (function_words function ++ decimal events ∷ decimal leaves ∷ decimal records ∷ []) }
    ensures len { result.len ≤ WORDS_MAX }
{
    match function {
        Function::Intersection => plain_tree_line(l, k, b"intersection", events, leaves, records),
        Function::Union => plain_tree_line(l, k, b"union", events, leaves, records),
        Function::Balanced => plain_tree_line(l, k, b"balanced", events, leaves, records),
        Function::Skewed(share) => ReplyLine::of(&[
            OK,
            Text(b"tree"),
            Number(u64::from(l)),
            Number(u64::from(k)),
            Text(b"skewed"),
            Number(u64::from(share)),
            Number(events),
            Number(u64::from(leaves)),
            Number(records),
        ]),
    }
}

// The first line of the parameters of an index whose differential function has one word.
fn plain_tree_line(
    l: u32,
    k: u32,
    function: &'static [u8],
    events: u64,
    leaves: u32,
    records: u64,
) -> ReplyLine<'static>
    ensures words { map word_bytes (take result.len result.words) ≡ codes "ok" ∷ codes "tree" ∷ decimal l ∷ decimal k ∷ function.now ∷ decimal events ∷ decimal leaves ∷ decimal records ∷ [] }
    ensures len { result.len ≤ WORDS_MAX }
{
    ReplyLine::of(&[
        OK,
        Text(b"tree"),
        Number(u64::from(l)),
        Number(u64::from(k)),
        Text(function),
        Number(events),
        Number(u64::from(leaves)),
        Number(records),
    ])
}
