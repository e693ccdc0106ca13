//! Lengths and best loads by one call, and what it refuses.
ghost use Rattle.std.specs.Prelude.{◌≤◌};

use crate::limits::{Place, chain, lead};
use chooser::tables::Tables;
use delay::{Early, Picoseconds};
use lengths::check::Fault;
use lengths::pair::LengthPair;
use lengths::table::{FillError, Lengths};
use marks::mark::Mark;
use std::process::Abort;
use std::test::Fail;
use wiring::{Lead, Table};

// How many entries the four tables have.
#[derive(Clone, Copy)]
struct Room {
    to: usize,
    from: usize,
    loads: usize,
    marks: usize,
}

// Fills tables that hold nines from a wiring of two nodes and one place, and tells why not; a table
// that a refusal touched is an error.
fn refused(rt: &impl Abort, leads: &[Place], room: Room) -> Result<Option<FillError>, Fail>
    requires to { room.to ≤ 2 }
    requires from { room.from ≤ 2 }
    requires loads { room.loads ≤ 1 }
    requires marks { room.marks ≤ 3 }
{
    let mut to_row = [Picoseconds(9); 2];
    let mut from_row = [Picoseconds(9); 2];
    let mut loads = [9; 1];
    let mut marks = [Mark::VACANT; 3];
    let mut tables = Tables {
        lengths: LengthPair {
            to: Lengths::new(&mut to_row[..room.to]),
            from: Lengths::new(&mut from_row[..room.from]),
        },
        loads: &mut loads[..room.loads],
        marks: &mut marks[..room.marks],
    };
    let answer = tables.best_loads(&Table { nodes: 2, leads });
    let Err(why) = answer else {
        return Ok(None);
    };
    assert!(rt; to_row[0].0 == 9 && to_row[1].0 == 9);
    assert!(rt; from_row[0].0 == 9 && from_row[1].0 == 9);
    assert!(rt;
        loads[0] == 9 && marks[0].arc.is_none() && marks[1].arc.is_none() && marks[2].arc.is_none()
    );
    Ok(Some(why))
}

#[test]
fn a_fault_comes_before_any_short_table(rt: HostRuntime) -> Result<(), Fail> {
    let enough = Room {
        to: 2,
        from: 2,
        loads: 1,
        marks: 3,
    };
    let crossed = [lead(1, 0, 1)];
    let fine = [lead(0, 1, 1)];
    let to = Room { to: 1, ..enough };
    let from = Room { from: 1, ..enough };
    let loads = Room { loads: 0, ..enough };
    let marks = Room { marks: 2, ..enough };
    assert_eq!(rt;
        refused(&rt, &crossed, to)?,
        Some(FillError::Unsound(Fault::Ends(0)))
    );
    assert_eq!(rt; refused(&rt, &fine, to)?, Some(FillError::Short));
    assert_eq!(rt; refused(&rt, &fine, from)?, Some(FillError::Short));
    assert_eq!(rt; refused(&rt, &fine, loads)?, Some(FillError::Short));
    assert_eq!(rt; refused(&rt, &fine, marks)?, Some(FillError::Short));
    assert_eq!(rt; refused(&rt, &fine, enough)?, None);
    Ok(())
}

#[test]
fn the_longest_chain_has_one_load(rt: HostRuntime) -> Result<(), Fail> {
    let places = chain(rt.alloc(), 4095)?;
    let table = Table {
        nodes: 4096,
        leads: places.as_slice(),
    };
    let mut to_row = [Picoseconds(0); 4096];
    let mut from_row = [Picoseconds(0); 4096];
    let mut loads = [0; 4095];
    let mut marks = vec![in rt.alloc(); Mark::VACANT; 8191]?;
    let mut tables = Tables {
        lengths: LengthPair {
            to: Lengths::new(&mut to_row),
            from: Lengths::new(&mut from_row),
        },
        loads: &mut loads,
        marks: marks.as_mut_slice(),
    };
    let total = tables.best_loads(&table);
    assert_eq!(rt; total, Ok(1));
    assert_eq!(rt; tables.lengths.to.at(4095).0, 4_095_000_000);
    assert_eq!(rt; tables.lengths.from.at(0).0, 4_095_000_000);
    let longest = tables.lengths.longest_path(&table);
    assert_eq!(rt; longest, Some(Picoseconds(4_095_000_000)));
    Ok(())
}

#[test]
fn the_loads_of_a_detour(rt: HostRuntime) {
    let leads = [lead(0, 1, 1), lead(1, 2, 1), lead(0, 2, 3)];
    let table = Table {
        nodes: 3,
        leads: &leads,
    };
    let mut to_row = [Picoseconds(9); 4];
    let mut from_row = [Picoseconds(9); 3];
    let mut loads = [9; 4];
    let mut marks = [Mark::VACANT; 6];
    let mut tables = Tables {
        lengths: LengthPair {
            to: Lengths::new(&mut to_row),
            from: Lengths::new(&mut from_row),
        },
        loads: &mut loads,
        marks: &mut marks,
    };
    let total = tables.best_loads(&table);
    assert_eq!(rt; total, Ok(2));
    assert_eq!(rt; tables.lengths.to.at(3).0, 9, "entries past the nodes stay");
    assert!(rt; loads == [1, 1, 1, 9], "entries past the places stay");
}

#[test]
fn the_loads_of_the_early_kind(rt: HostRuntime) {
    let leads = [5, 3].map(|picoseconds| {
        Some(Lead {
            tail: 0,
            head: 1,
            delay: Early(Picoseconds(picoseconds)),
        })
    });
    let table = Table {
        nodes: 2,
        leads: &leads,
    };
    let mut to_row = [Early(Picoseconds(0)); 2];
    let mut from_row = [Early(Picoseconds(0)); 2];
    let mut loads = [0; 2];
    let mut marks = [Mark::VACANT; 4];
    let mut tables = Tables {
        lengths: LengthPair {
            to: Lengths::new(&mut to_row),
            from: Lengths::new(&mut from_row),
        },
        loads: &mut loads,
        marks: &mut marks,
    };
    let total = tables.best_loads(&table);
    assert_eq!(rt; total, Ok(2));
    let longest = tables.lengths.longest_path(&table);
    assert_eq!(rt; longest, Some(Early(Picoseconds(3))));
}
