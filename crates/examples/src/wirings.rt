//! Small wirings: the turned view, and questions once the lengths are there.
use crate::limits::lead;
use delay::{Early, Picoseconds};
use lengths::pair::LengthPair;
use lengths::table::Lengths;
use wiring::{Lead, Table, Turned, Wiring, turn_round};

// Tail and head of what a wiring shows at a place.
fn ends<W: Wiring<Picoseconds>>(w: &W, place: usize) -> Option<(usize, usize)> {
    let l = w.lead(place)?;
    Some((l.tail, l.head))
}

#[test]
fn turned_round(rt: HostRuntime) {
    let leads = [lead(0, 2, 3), None, lead(2, 2, 1), lead(1, 4, 1)];
    let table = Table {
        nodes: 4,
        leads: &leads,
    };
    let view = turn_round::<Picoseconds, Table<Picoseconds>>(&table);
    assert_eq!(rt; ends(&view, 0), Some((1, 3)), "node v becomes 3 - v");
    assert_eq!(rt; ends(&view, 1), None);
    assert_eq!(rt; ends(&view, 2), Some((0, 0)), "tail not below head");
    assert_eq!(rt; ends(&view, 3), Some((0, 0)), "head past the last node");
    assert_eq!(rt; ends(&view, 4), None, "past the last place");
    let back = turn_round::<Picoseconds, Turned<Table<Picoseconds>>>(&view);
    assert_eq!(rt; ends(&back, 0), Some((0, 2)));
}

#[test]
fn a_detour_is_not_fed(rt: HostRuntime) {
    let leads = [lead(0, 1, 1), lead(1, 2, 1), lead(0, 2, 3)];
    let table = Table {
        nodes: 3,
        leads: &leads,
    };
    let mut to_row = [Picoseconds(9); 4];
    let mut from_row = [Picoseconds(9); 3];
    let mut lengths = LengthPair {
        to: Lengths::new(&mut to_row),
        from: Lengths::new(&mut from_row),
    };
    let longest = lengths.work_out(&table);
    assert_eq!(rt; longest, Ok(Some(Picoseconds(3))));
    assert_eq!(rt; lengths.classify(&table, 0), Some((false, true)));
    assert_eq!(rt; lengths.classify(&table, 1), Some((true, false)));
    assert_eq!(rt; lengths.classify(&table, 2), Some((true, true)));
    assert_eq!(rt; lengths.classify(&table, 3), None);
    assert_eq!(rt; lengths.longest_through(&table, 0), Some(Picoseconds(2)));
    assert_eq!(rt; lengths.to.at(3).0, 9, "entries past the nodes stay");
}

#[test]
fn the_early_kind_takes_the_short_way(rt: HostRuntime) {
    let short = Some(Lead {
        tail: 0,
        head: 1,
        delay: Early(Picoseconds(3)),
    });
    let long = Some(Lead {
        tail: 0,
        head: 1,
        delay: Early(Picoseconds(5)),
    });
    let leads = [long, short];
    let table = Table {
        nodes: 2,
        leads: &leads,
    };
    let mut to_row = [Early(Picoseconds(0)); 2];
    let mut from_row = [Early(Picoseconds(0)); 2];
    let mut lengths = LengthPair {
        to: Lengths::new(&mut to_row),
        from: Lengths::new(&mut from_row),
    };
    let longest = lengths.work_out(&table);
    assert_eq!(rt; longest, Ok(Some(Early(Picoseconds(3)))));
    assert_eq!(rt; lengths.classify(&table, 0), Some((false, false)));
    assert_eq!(rt; lengths.classify(&table, 1), Some((true, true)));
}
