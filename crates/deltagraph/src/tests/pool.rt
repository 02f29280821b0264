//! Slots of a pool: what a graph on the current one keeps, a full pool, and a slot on which another rests.

ghost use Rattle.std.specs.Prelude.{IfOk};
ghost use Rattle.dg_pool.specs.Slots.{IsLive};

use dg_delta::{Delta, Set};
use dg_event::{Body, Columns, Element, Event};
use dg_pool::{AttachFault, Base, InUse, Pool, Slot};
use std::alloc::{AllocError, Global};
use std::test::Fail;

const CURRENT: Element = Element::Node { id: 1 };

const ADDED: Element = Element::Node { id: 2 };

const EVENTS: [Event; 2] = [
    Event {
        time: 20,
        body: Body::NodeRemoved { id: 1 },
    },
    Event {
        time: 30,
        body: Body::NodeAdded { id: 2 },
    },
];

const ALL_COLUMNS: Columns = Columns {
    nodes_attr: true,
    edges_attr: true,
    transient: true,
};

// The most slots that are live at once.
const LIVE_MAX: u8 = 127;

// A pool whose current graph has the one element.
fn pool_of_one(alloc: Global) -> Result<Pool, AllocError> {
    let mut set = Set::new(alloc);
    set.insert(CURRENT)?;
    Pool::from_set(alloc, &set)
}

// A slot for the current graph as it is.
fn attach_now(pool: &mut Pool, alloc: Global) -> Result<Slot, AttachFault>
    ensures live { IfOk result (IsLive pool.new) }
{
    pool.attach(Base::Now, &Delta::new(alloc), ALL_COLUMNS)
}

#[test]
fn a_graph_on_the_current_one_stays_while_that_changes(rt: HostRuntime) -> Result<(), Fail> {
    let mut pool = pool_of_one(rt.alloc())?;
    let slot = attach_now(&mut pool, rt.alloc())?;
    assert_eq!(rt; slot, Slot(1));
    pool.make_room(&EVENTS)?;
    pool.apply_now(&EVENTS);
    assert!(rt; !pool.member_now(&CURRENT));
    assert!(rt; pool.member_now(&ADDED));
    assert!(rt; pool.member(slot, &CURRENT));
    assert!(rt; !pool.member(slot, &ADDED));
    Ok(())
}

#[test]
fn a_pool_is_full_with_127_live_slots(rt: HostRuntime) -> Result<(), Fail> {
    let mut pool = pool_of_one(rt.alloc())?;
    for number in 1..LIVE_MAX {
        assert_eq!(rt; attach_now(&mut pool, rt.alloc()), Ok(Slot(number)));
    }
    let last = attach_now(&mut pool, rt.alloc())?;
    assert_eq!(rt; last, Slot(LIVE_MAX));
    let more = pool.attach(Base::Now, &Delta::new(rt.alloc()), ALL_COLUMNS);
    assert_eq!(rt; more, Err(AttachFault::PoolFull));
    assert_eq!(rt; pool.release(last), Ok(()));
    assert_eq!(rt; attach_now(&mut pool, rt.alloc()), Ok(last));
    Ok(())
}

#[test]
fn a_slot_on_which_another_rests_is_in_use(rt: HostRuntime) -> Result<(), Fail> {
    let mut pool = pool_of_one(rt.alloc())?;
    let nothing = Delta::new(rt.alloc());
    let base = pool.attach(Base::Nothing, &nothing, ALL_COLUMNS)?;
    let over = pool.attach(Base::Slot(base), &nothing, ALL_COLUMNS)?;
    assert_eq!(rt; base, Slot(1));
    assert_eq!(rt; over, Slot(2));
    assert_eq!(rt; pool.release(base), Err(InUse(Slot(2))));
    Ok(())
}
