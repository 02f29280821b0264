//! Both halves of a plan are at work at once.

use dg_fold::{Bytes, Gate, Open, Part, compose_plan};
use dg_graph::Element;
use dg_history::Key;
use dg_plan::Way;
use std::alloc::{AllocError, Global};
use std::process::Abort;
use std::sync::atomic::{AtomicBool, Ordering};
use std::test::Fail;
use std::thread::Threads;

// Two nodes are added in the first list; an edge between them and an attribute of the first node in the
// second.
const NODES_ADDED: [u8; 42] = [
    0, 0, 0, 2, //
    0, 0, 0, 0, 0, 0, 0, 0, 0, 10, 1, 0, 0, 0, 0, 0, 0, 0, 1, //
    0, 1, 0, 0, 0, 0, 0, 0, 0, 20, 1, 0, 0, 0, 0, 0, 0, 0, 2,
];

const EDGE_ADDED: [u8; 40] = [
    0, 0, 0, 1, 0, 0, 0, 0, 0, 0, 0, 0, 0, 30, 3, 0, 0, 0, 0, 0, 0, 0, 5, 0, 0, 0, 0, 0, 0, 0, 1,
    0, 0, 0, 0, 0, 0, 0, 2, 1,
];

const ATTRIBUTE_SET: [u8; 34] = [
    0, 0, 0, 1, 0, 1, 0, 0, 0, 0, 0, 0, 0, 40, 0, 0, 0, 0, 0, 0, 0, 1, 0, 0, 0, 0, 0, 0, 0, 0, 0,
    0, 0, 2,
];

const NODE_1: Element = Element::Node { id: 1 };

const NODE_2: Element = Element::Node { id: 2 };

const EDGE: Element = Element::Edge {
    id: 5,
    src: 1,
    dst: 2,
    directed: true,
};

const ATTRIBUTE: Element = Element::NodeAttr {
    id: 1,
    key: 0,
    value: 1,
};

// More looks than the other half needs to begin.
const LOOKS_MAX: u32 = 1 << 30;

// The gate of a test: each half raises a flag of its own, and then looks for the other's.
#[derive(Drop)]
struct Meeting {
    left: AtomicBool,
    right: AtomicBool,
    left_met: AtomicBool,
    right_met: AtomicBool,
}

impl Gate for Meeting {
    fn enter(&self, right: bool) {
        let (own, other, met) = if right {
            (&self.right, &self.left, &self.right_met)
        } else {
            (&self.left, &self.right, &self.left_met)
        };
        own.store(true, Ordering::SeqCst);
        for _ in 0..LOOKS_MAX {
            if other.load(Ordering::SeqCst) {
                met.store(true, Ordering::SeqCst);
                return;
            }
        }
    }
}

fn part(alloc: Global, key: Key, structure: &[u8], node_attr: &[u8]) -> Result<Part, AllocError> {
    Ok(Part {
        key,
        way: Way::Forward,
        until: None,
        bytes: Bytes {
            structure: Vec::from_slice(alloc, structure)?,
            node_attr: Vec::from_slice(alloc, node_attr)?,
            edge_attr: Vec::new(alloc),
        },
    })
}

// The parts of the two lists.
fn two_lists(alloc: Global) -> Result<Vec<Part>, AllocError> {
    let mut parts = Vec::new(alloc);
    parts.push(part(alloc, Key::List(0), &NODES_ADDED, &[])?)?;
    parts.push(part(alloc, Key::List(1), &EDGE_ADDED, &ATTRIBUTE_SET)?)?;
    Ok(parts)
}

// The parts are composed to a delta that names these elements.
fn composes<R: Threads + Sync, G: Gate>(
    rt: &R,
    abort: &impl Abort,
    alloc: Global,
    gate: &G,
    parts: &[Part],
    plus: &[Element],
) {
    match compose_plan(rt, alloc, gate, 2, parts) {
        Ok(delta) => {
            assert!(abort; delta.minus().items().is_empty());
            assert_eq!(abort; delta.plus().items(), plus);
        }
        Err(fault) => assert_eq!(abort; Some(fault), None),
    }
}

#[test]
fn both_halves_are_at_work_at_once(rt: HostRuntime) -> Result<(), Fail> {
    let parts = two_lists(rt.alloc())?;
    let gate = Meeting {
        left: AtomicBool::new(false),
        right: AtomicBool::new(false),
        left_met: AtomicBool::new(false),
        right_met: AtomicBool::new(false),
    };
    let plus = [NODE_1, NODE_2, EDGE, ATTRIBUTE];
    composes(&rt, &rt, rt.alloc(), &gate, &parts, &plus);
    assert!(rt; gate.left_met.load(Ordering::SeqCst));
    assert!(rt; gate.right_met.load(Ordering::SeqCst));
    composes(&rt, &rt, rt.alloc(), &Open, &parts, &plus);
    composes(&rt, &rt, rt.alloc(), &Open, &[], &[]);
    Ok(())
}
