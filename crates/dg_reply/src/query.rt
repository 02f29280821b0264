//! The first lines of the answers to queries, one for each.
ghost use Rattle.std.specs.Prelude.{◌≡◌, ◌≤◌, [], ◌∷◌, map, take, codes, decimal, if◌then◌else◌};
ghost use Rattle.dg_machine.specs.QueryTable.{query_words};
ghost use Rattle.dg_reply.specs.Buffered.{word_bytes};

use crate::reply_buffer::Word::{self, Number, Text};
use crate::reply_line::{OK, ReplyLine, WORDS_MAX};
use dg_machine::QueryHead;
use dg_query::Counts;

/// The first line of the answer to a query of this handle.
pub(crate) fn query_line(handle: u32, told: QueryHead) -> ReplyLine<'static>
    ensures words { map word_bytes (take result.len result.words) ≡ codes "ok" ∷ query_words handle told }
    ensures len { result.len ≤ WORDS_MAX }
{
    let of = Number(u64::from(handle));
    match told {
        QueryHead::List { lines } => ReplyLine::of(&[OK, Text(b"list"), of, Number(lines)]),
        QueryHead::Counts {
            counts,
            with_messages,
        } => counts_line(of, counts, with_messages),
        QueryHead::NodeThere { id, degree } => {
            ReplyLine::of(&[
                OK,
                Text(b"node"),
                of,
                Number(id),
                Text(b"yes"),
                Number(degree),
            ])
        }
        QueryHead::NodeAbsent { id } => {
            ReplyLine::of(&[OK, Text(b"node"), of, Number(id), Text(b"no")])
        }
        QueryHead::Neighbours { id, lines } => {
            ReplyLine::of(&[OK, Text(b"neighbours"), of, Number(id), Number(lines)])
        }
    }
}

// How many elements of each kind the handle has, and how many messages where its columns have these.
fn counts_line(handle: Word<'static>, counts: Counts, with_messages: bool) -> ReplyLine<'static>
    ensures words { map word_bytes (take result.len result.words) ≡ codes "ok" ∷ codes "counts" ∷ word_bytes handle.entry ∷ decimal counts.nodes ∷ decimal counts.edges ∷ decimal counts.node_attrs ∷ decimal counts.edge_attrs ∷ (if with_messages then decimal counts.messages ∷ [] else []) }
    ensures len { result.len ≤ WORDS_MAX }
{
    let mut line = ReplyLine::of(&[
        OK,
        Text(b"counts"),
        handle,
        Number(counts.nodes),
        Number(counts.edges),
        Number(counts.node_attrs),
        Number(counts.edge_attrs),
    ]);
    if with_messages {
        line.put(Number(counts.messages));
    }
    line
}
