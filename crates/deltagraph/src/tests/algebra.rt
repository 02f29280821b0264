//! Small cases of deltas, sets and interior nodes, against values from elsewhere.

use dg_delta::{Delta, Set};
use dg_diff::{combine, part};
use dg_event::effect;
use dg_graph::{Body, Element, Event, Function};
use std::alloc::{AllocError, Global};
use std::process::Abort;
use std::test::Fail;

const A: Element = Element::Node { id: 1 };

const B: Element = Element::Node { id: 2 };

const C: Element = Element::Node { id: 3 };

// Nodes whose hashes have the top bytes 0x97 and 0xa0. Those of the nodes above have 0x52.
const IN_FIRST_HALF: Element = Element::Node { id: 1 << 19 };

const ALSO_IN_FIRST_HALF: Element = Element::Node { id: 9 << 16 };

// Below this top byte a hash is in the last half.
const HALF: u16 = 128;

fn set_of(alloc: Global, elements: &[Element]) -> Result<Set, AllocError> {
    let mut set = Set::new(alloc);
    for element in elements {
        set.insert(*element)?;
    }
    Ok(set)
}

// The delta of the two sets, which share no element.
fn delta_of(
    abort: &impl Abort,
    alloc: Global,
    minus: &[Element],
    plus: &[Element],
) -> Result<Delta, AllocError> {
    let delta = Delta::from_sets(set_of(alloc, minus)?, set_of(alloc, plus)?);
    Ok(delta.expect(abort, "sets that share no element"))
}

fn has_elements(abort: &impl Abort, set: &Set, wanted: &[Element]) {
    assert_eq!(abort; set.items(), wanted);
}

fn has_sets(abort: &impl Abort, delta: &Delta, minus: &[Element], plus: &[Element]) {
    has_elements(abort, delta.minus(), minus);
    has_elements(abort, delta.plus(), plus);
}

#[test]
fn in_a_composition_the_later_delta_decides(rt: HostRuntime) -> Result<(), Fail> {
    let adds = delta_of(&rt, rt.alloc(), &[], &[A])?;
    let removes = delta_of(&rt, rt.alloc(), &[A], &[])?;
    has_sets(&rt, &adds.compose(&removes)?, &[A], &[]);
    has_sets(&rt, &removes.compose(&adds)?, &[], &[A]);
    Ok(())
}

#[test]
fn the_delta_between_two_sets_leads_from_one_to_the_other(rt: HostRuntime) -> Result<(), Fail> {
    let from = set_of(rt.alloc(), &[A, B])?;
    let to = set_of(rt.alloc(), &[B, C])?;
    let between = Delta::between(&from, &to)?;
    has_sets(&rt, &between, &[A], &[C]);
    has_elements(&rt, &between.apply(&from)?, &[B, C]);
    Ok(())
}

#[test]
fn sets_are_united_met_and_lessened(rt: HostRuntime) -> Result<(), Fail> {
    let left = set_of(rt.alloc(), &[A, B])?;
    let right = set_of(rt.alloc(), &[B, C])?;
    has_elements(&rt, &left.union(&right)?, &[A, B, C]);
    has_elements(&rt, &left.meet(&right)?, &[B]);
    has_elements(&rt, &left.minus(&right)?, &[A]);
    has_elements(&rt, &left.copy()?, &[A, B]);
    Ok(())
}

#[test]
fn an_insertion_says_whether_the_element_is_new(rt: HostRuntime) -> Result<(), Fail> {
    let mut set = set_of(rt.alloc(), &[A, B])?;
    assert_eq!(rt; set.insert(A), Ok(false));
    has_elements(&rt, &set, &[A, B]);
    assert_eq!(rt; set.insert(C), Ok(true));
    has_elements(&rt, &set, &[A, B, C]);
    Ok(())
}

#[test]
fn a_list_that_does_not_rise_is_no_set(rt: HostRuntime) -> Result<(), Fail> {
    let items = Vec::from_slice(rt.alloc(), &[A, A])?;
    assert_eq!(rt; Set::from_sorted(items).err(), Some(1));
    Ok(())
}

// The balanced node over {a, b} and {a, c} has these elements.
fn balances(
    abort: &impl Abort,
    alloc: Global,
    b: Element,
    c: Element,
    wanted: &[Element],
) -> Result<(), AllocError> {
    let sets = [set_of(alloc, &[A, b])?, set_of(alloc, &[A, c])?];
    let balanced = combine(Function::Balanced, &sets)?;
    has_elements(abort, &balanced, wanted);
    assert_eq!(abort; balanced.has(&b), !part(&b, HALF));
    assert_eq!(abort; balanced.has(&c), part(&c, HALF));
    Ok(())
}

#[test]
fn a_balanced_node_has_the_last_half_of_the_last_child(rt: HostRuntime) -> Result<(), Fail> {
    let cases: [(Element, Element, &[Element]); 4] = [
        (B, C, &[A, C]),
        (B, IN_FIRST_HALF, &[A]),
        (IN_FIRST_HALF, B, &[A, B, IN_FIRST_HALF]),
        (IN_FIRST_HALF, ALSO_IN_FIRST_HALF, &[A, IN_FIRST_HALF]),
    ];
    for (b, c, wanted) in cases {
        balances(&rt, rt.alloc(), b, c, wanted)?;
    }
    Ok(())
}

#[test]
fn a_value_that_goes_to_itself_has_no_effect(rt: HostRuntime) {
    let value = Some(7);
    for body in [
        Body::NodeAttr {
            id: 1,
            key: 0,
            old: value,
            new: value,
        },
        Body::EdgeAttr {
            id: 1,
            key: 0,
            old: value,
            new: value,
        },
    ] {
        assert_eq!(rt; effect(&Event { time: 10, body }), (None, None));
    }
}
