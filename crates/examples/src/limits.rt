//! Limits, and which refusal comes first where two rules are broken.
use delay::Picoseconds;
use lengths::check::{Fault, check as check_wiring};
use lengths::table::{FillError, Lengths};
use std::alloc::{AllocError, Global};
use std::test::Fail;
use wiring::refusals::Refusal;
use wiring::{Lead, Table};

pub(crate) type Place = Option<Lead<Picoseconds>>;

pub(crate) fn lead(tail: usize, head: usize, picoseconds: u32) -> Place {
    Some(Lead {
        tail,
        head,
        delay: Picoseconds(picoseconds),
    })
}

fn fault(nodes: usize, leads: &[Place]) -> Result<(), Fault> {
    check_wiring(&Table { nodes, leads })
}

#[test]
fn nodes_up_to_4096(rt: HostRuntime) {
    assert_eq!(rt; fault(4096, &[]), Ok(()));
    assert_eq!(rt; fault(4097, &[]), Err(Fault::Size));
}

#[test]
fn places_up_to_4096(rt: HostRuntime) -> Result<(), Fail> {
    let mut places: Vec<Place> = vec![in rt.alloc(); None; 4096]?;
    assert_eq!(rt; fault(1, places.as_slice()), Ok(()));
    places.push(None)?;
    assert_eq!(rt; fault(1, places.as_slice()), Err(Fault::Size));
    Ok(())
}

#[test]
fn leads_up_to_a_million_picoseconds(rt: HostRuntime) {
    assert_eq!(rt; fault(2, &[lead(0, 1, 1_000_000)]), Ok(()));
    assert_eq!(rt; fault(2, &[lead(0, 1, 1_000_001)]), Err(Fault::Delay(0)));
}

#[test]
fn ends_in_order(rt: HostRuntime) {
    assert_eq!(rt; fault(3, &[lead(1, 2, 1)]), Ok(()));
    assert_eq!(rt; fault(3, &[lead(2, 2, 1)]), Err(Fault::Ends(0)));
    assert_eq!(rt; fault(3, &[lead(2, 1, 1)]), Err(Fault::Ends(0)));
    assert_eq!(rt; fault(3, &[lead(2, 3, 1)]), Err(Fault::Ends(0)));
}

#[test]
fn the_first_bad_lead_decides(rt: HostRuntime) {
    let late = lead(0, 1, 1_000_001);
    let crossed = lead(1, 0, 1);
    assert_eq!(rt;
        fault(4097, &[crossed]),
        Err(Fault::Size),
        "size before leads"
    );
    assert_eq!(rt; fault(2, &[late, crossed]), Err(Fault::Delay(0)));
    assert_eq!(rt; fault(2, &[None, crossed, late]), Err(Fault::Ends(1)));
    assert_eq!(rt;
        fault(2, &[lead(1, 0, 1_000_001)]),
        Err(Fault::Ends(0)),
        "ends before delay"
    );
}

#[test]
fn a_fault_comes_before_a_short_table(rt: HostRuntime) {
    let mut row = [Picoseconds(9); 1];
    let mut table = Lengths::new(&mut row);
    let crossed = Table {
        nodes: 2,
        leads: &[lead(1, 0, 1)],
    };
    let fine = Table {
        nodes: 2,
        leads: &[lead(0, 1, 1)],
    };
    assert_eq!(rt;
        table.fill_to(&crossed),
        Err(FillError::Unsound(Fault::Ends(0)))
    );
    assert_eq!(rt; table.fill_to(&fine), Err(FillError::Short));
    assert_eq!(rt; table.fill_from(&fine), Err(FillError::Short));
    assert_eq!(rt; table.at(0).0, 9, "the table stays");
}

#[test]
fn refusals_have_their_numbers(rt: HostRuntime) {
    assert_eq!(rt; Refusal::FileLength.number(), 1);
    assert_eq!(rt; Refusal::from(Fault::Size).number(), 3);
    assert_eq!(rt; Refusal::from(Fault::Ends(0)).number(), 5);
    assert_eq!(rt; Refusal::from(Fault::Delay(0)).number(), 6);
    assert_eq!(rt; Refusal::from(FillError::Short).number(), 10);
}

// A chain of leads of a million picoseconds each.
pub(crate) fn chain(heap: Global, leads: usize) -> Result<Vec<Place>, AllocError> {
    let mut places = Vec::new(heap);
    for node in 0..leads {
        places.push(lead(node, node.saturating_add(1), 1_000_000))?;
    }
    Ok(places)
}

#[test]
fn the_longest_chain_sums_exactly(rt: HostRuntime) -> Result<(), Fail> {
    let places = chain(rt.alloc(), 4095)?;
    let table = Table {
        nodes: 4096,
        leads: places.as_slice(),
    };
    let mut to_row = [Picoseconds(0); 4096];
    let mut from_row = [Picoseconds(0); 4096];
    let mut to = Lengths::new(&mut to_row);
    let mut from = Lengths::new(&mut from_row);
    assert!(rt; to.fill_to(&table).is_ok());
    assert!(rt; from.fill_from(&table).is_ok());
    assert_eq!(rt; to.at(4095).0, 4_095_000_000);
    assert_eq!(rt; from.at(0).0, 4_095_000_000);
    assert_eq!(rt; to.at(1).0, 1_000_000);
    Ok(())
}
