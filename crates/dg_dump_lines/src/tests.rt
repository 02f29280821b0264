//! What no clause says: that with ample memory each call puts its line. The script is that of docs/FORMATS.md.
use crate::{BatchVerb, put_batch_command, put_creation, put_event, put_events};
use dg_graph::{Body, Event, Function};
use dg_history::Params;
use dg_names::{NAME_BYTES_MAX, NAMES_MAX, Names};
use dg_seed::Seed;
use std::alloc::AllocError;
use std::process::Abort;

const SCRIPT: &[u8] =
    b"create 2 2 intersection\nload 5\n10 +node 1\n20 +node 2\n30 +edge 5 1 2 dir\n40 nset 1 name A\n50 -edge 5\n";

// The number of the text, which the names get.
fn number(names: &mut Names, text: &[u8]) -> Result<u32, AllocError> {
    if text.len() > NAME_BYTES_MAX || names.len() >= NAMES_MAX {
        return Err(AllocError);
    }
    names.add(text)
}

#[test]
fn a_script_is_put_line_by_line(rt: HostRuntime) -> Result<(), AllocError> {
    let mut names = Names::new(rt.alloc(), Seed::new(1));
    let key = number(&mut names, b"name")?;
    let value = number(&mut names, b"A")?;
    let edge = Body::EdgeAdded {
        directed: true,
        id: 5,
        src: 1,
        dst: 2,
    };
    let set = Body::NodeAttr {
        key,
        id: 1,
        old: None,
        new: Some(value),
    };
    let gone = Body::EdgeRemoved {
        directed: true,
        id: 5,
        src: 1,
        dst: 2,
    };
    let events = [
        Event {
            time: 10,
            body: Body::NodeAdded { id: 1 },
        },
        Event {
            time: 20,
            body: Body::NodeAdded { id: 2 },
        },
        Event {
            time: 30,
            body: edge,
        },
        Event {
            time: 40,
            body: set,
        },
    ];
    let last = Event {
        time: 50,
        body: gone,
    };
    let params = Params {
        l: 2,
        k: 2,
        function: Function::Intersection,
    };
    let mut text = Vec::new(rt.alloc());
    put_creation(&mut text, params)?;
    put_batch_command(&mut text, BatchVerb::Load, 5)?;
    put_events(&mut text, &names, &events)?;
    put_event(&mut text, &names, &last)?;
    assert!(rt; text.as_slice() == SCRIPT);
    Ok(())
}
