//! Best loads, lists and witnesses of small wirings.
ghost use Rattle.std.specs.Prelude.{◌≤◌};

use chooser::tables::Tables;
use delay::{Contact, Delay, Early, Picoseconds};
use drawing::Counts;
use lengths::pair::LengthPair;
use lengths::table::Lengths;
use marks::mark::Mark;
use std::alloc::Global;
use std::process::Abort;
use std::test::Fail;
use wiring::refusals::Refusal;
use wiring::{Lead, Table};

// What every entry holds before; no wiring here has so many places.
const PAST: u16 = 99;

// What is found for a wiring of at most 8 nodes and 8 places.
#[derive(Clone, Copy)]
struct Choice {
    total: usize,
    loads: [u16; 8],
    answer: Result<Counts, Refusal>,
    words: [u16; 24],
    witness: [u16; 8],
}

// Finds loads and then list and witness, on rows of so many entries.
fn choose<D: Delay>(
    heap: Global,
    nodes: usize,
    leads: &[Option<Lead<D>>],
    word_room: usize,
    witness_room: usize,
) -> Result<Choice, Fail>
    requires words { word_room ≤ 24 }
    requires witness { witness_room ≤ 8 }
{
    let table = Table { nodes, leads };
    let mut to_row = vec![in heap; D::zero(); 8]?;
    let mut from_row = vec![in heap; D::zero(); 8]?;
    let mut scratch = [PAST; 8];
    let mut marks = [Mark::VACANT; 16];
    let mut tables = Tables {
        lengths: LengthPair {
            to: Lengths::new(to_row.as_mut_slice()),
            from: Lengths::new(from_row.as_mut_slice()),
        },
        loads: &mut scratch,
        marks: &mut marks,
    };
    let Ok(total) = tables.best_loads(&table) else {
        return Err(Fail::new("not filled"));
    };
    let mut loads = [PAST; 8];
    loads.copy_from_slice(tables.loads);
    let mut words = [PAST; 24];
    let mut witness = [PAST; 8];
    let answer = tables.draw_list(
        &table,
        &mut words[..word_room],
        &mut witness[..witness_room],
    );
    Ok(Choice {
        total,
        loads,
        answer,
        words,
        witness,
    })
}

// Whether a row begins with these numbers, and is as before past them.
fn begins(row: &[u16], numbers: &[u16]) -> bool {
    match row.strip_prefix(numbers) {
        Some(rest) => rest.iter().all(|entry| *entry == PAST),
        None => false,
    }
}

// Whether a row begins with so many leads in ascending number, and is as before past them.
fn ascends(row: &[u16], leads: usize) -> bool {
    let Some((front, rest)) = row.split_at_checked(leads) else {
        return false;
    };
    front.windows(2).all(|pair| pair[0] < pair[1])
        && front.iter().all(|lead| *lead < PAST)
        && rest.iter().all(|entry| *entry == PAST)
}

// Checks the best loads and the words of a wiring.
fn gives<D: Delay>(
    rt: &impl Abort,
    heap: Global,
    nodes: usize,
    leads: &[Option<Lead<D>>],
    loads: &[u16],
    words: &[u16],
) -> Result<(), Fail> {
    let choice = choose::<D>(heap, nodes, leads, 24, 8)?;
    let Ok(counts) = choice.answer else {
        return Err(Fail::new("no list"));
    };
    assert_eq!(rt; counts.words, words.len());
    assert_eq!(rt; counts.paths, choice.total);
    assert!(rt;
        loads.len() == leads.len() && begins(&choice.loads, loads),
        "loads"
    );
    assert!(rt; begins(&choice.words, words), "words");
    assert!(rt; ascends(&choice.witness, counts.paths), "witness");
    Ok(())
}

fn lead<D: Delay>(tail: usize, head: usize, picoseconds: u32, contacts: u8) -> Option<Lead<D>> {
    Some(Lead {
        tail,
        head,
        delay: D::read(picoseconds, contacts),
    })
}

fn late(tail: usize, head: usize, picoseconds: u32) -> Option<Lead<Picoseconds>> {
    lead(tail, head, picoseconds, 0)
}

// Two inputs, a node between, and two outputs.
fn star<D: Delay>(first: Option<Lead<D>>, second: Option<Lead<D>>) -> [Option<Lead<D>>; 4] {
    [first, second, lead(2, 3, 2, 0), lead(2, 4, 2, 0)]
}

#[test]
fn the_lists_of_a_star(rt: HostRuntime) -> Result<(), Fail> {
    let heap = rt.alloc();
    let uneven = star::<Picoseconds>(lead(0, 2, 3, 0), lead(1, 2, 1, 0));
    gives(
        &rt,
        heap,
        5,
        &uneven,
        &[2, 1, 1, 1],
        &[2, 0, 2, 2, 0, 3, 2, 1, 2],
    )?;
    let early = star::<Early<Picoseconds>>(lead(0, 2, 3, 0), lead(1, 2, 1, 0));
    gives(
        &rt,
        heap,
        5,
        &early,
        &[1, 2, 1, 1],
        &[2, 0, 2, 2, 1, 2, 2, 1, 3],
    )?;
    let touched = star::<Contact>(lead(0, 2, 3, 1), lead(1, 2, 3, 0));
    gives(
        &rt,
        heap,
        5,
        &touched,
        &[2, 1, 1, 1],
        &[2, 0, 2, 2, 0, 3, 2, 1, 2],
    )?;
    let wide = [
        late(0, 2, 1),
        late(1, 2, 1),
        late(2, 3, 1),
        late(2, 4, 1),
        late(2, 5, 1),
    ];
    gives(
        &rt,
        heap,
        6,
        &wide,
        &[1, 2, 1, 1, 1],
        &[2, 0, 2, 2, 1, 3, 2, 1, 4],
    )
}

#[test]
fn the_lists_of_few_leads(rt: HostRuntime) -> Result<(), Fail> {
    let heap = rt.alloc();
    gives::<Picoseconds>(&rt, heap, 0, &[], &[], &[])?;
    gives(&rt, heap, 2, &[late(0, 1, 0)], &[1], &[1, 0])?;
    gives(
        &rt,
        heap,
        2,
        &[late(0, 1, 5), late(0, 1, 3)],
        &[1, 1],
        &[1, 0, 1, 1],
    )?;
    let detour = [late(0, 1, 1), late(1, 2, 1), late(0, 2, 3)];
    gives(&rt, heap, 3, &detour, &[1, 1, 1], &[2, 0, 1, 1, 2])?;
    let shortcut = [late(0, 1, 1), late(1, 2, 1), late(0, 2, 1)];
    gives(&rt, heap, 3, &shortcut, &[1, 1, 1], &[2, 0, 1, 1, 2])
}

#[test]
fn vacant_places_and_bare_nodes(rt: HostRuntime) -> Result<(), Fail> {
    let heap = rt.alloc();
    gives::<Picoseconds>(&rt, heap, 1, &[None], &[0], &[])?;
    gives::<Picoseconds>(&rt, heap, 2, &[None, None], &[0, 0], &[])?;
    let spaced = [None, late(1, 3, 1), None, late(3, 4, 1), None];
    gives(&rt, heap, 7, &spaced, &[0, 1, 0, 1, 0], &[2, 1, 3])
}

#[test]
fn a_row_that_is_too_short_stays(rt: HostRuntime) -> Result<(), Fail> {
    let heap = rt.alloc();
    let leads = star::<Picoseconds>(lead(0, 2, 3, 0), lead(1, 2, 1, 0));
    let just = choose(heap, 5, &leads, 9, 3)?;
    assert_eq!(rt; just.answer, Ok(Counts { paths: 3, words: 9 }));
    assert!(rt; begins(&just.words, &[2, 0, 2, 2, 0, 3, 2, 1, 2]));
    assert!(rt; ascends(&just.witness, 3));
    let words = choose(heap, 5, &leads, 8, 3)?;
    assert_eq!(rt; words.answer, Err(Refusal::Room));
    assert!(rt; begins(&words.words, &[]) && begins(&words.witness, &[]));
    let witness = choose(heap, 5, &leads, 9, 2)?;
    assert_eq!(rt; witness.answer, Err(Refusal::Room));
    assert!(rt; begins(&witness.words, &[]) && begins(&witness.witness, &[]));
    Ok(())
}

// Whether a row has at most one of these leads.
fn at_most_one(row: &[u16], leads: &[u16]) -> bool {
    row.iter().filter(|entry| leads.contains(entry)).count() <= 1
}

// For each path, the leads that it is longest through: a witness has one of them at most.
#[test]
fn no_path_is_longest_through_two_of_a_witness(rt: HostRuntime) -> Result<(), Fail> {
    let heap = rt.alloc();
    let uneven = star::<Picoseconds>(lead(0, 2, 3, 0), lead(1, 2, 1, 0));
    let three = choose(heap, 5, &uneven, 24, 8)?;
    assert!(rt; ascends(&three.witness, 3));
    assert!(rt; at_most_one(&three.witness, &[0, 2]));
    assert!(rt; at_most_one(&three.witness, &[0, 3]));
    let even = star::<Picoseconds>(lead(0, 2, 3, 0), lead(1, 2, 3, 0));
    let two = choose(heap, 5, &even, 24, 8)?;
    assert!(rt; ascends(&two.witness, 2));
    assert!(rt; at_most_one(&two.witness, &[0, 2]));
    assert!(rt; at_most_one(&two.witness, &[0, 3]));
    assert!(rt; at_most_one(&two.witness, &[1, 2]));
    assert!(rt; at_most_one(&two.witness, &[1, 3]));
    let shortcut = [late(0, 1, 1), late(1, 2, 1), late(0, 2, 1)];
    let apart = choose(heap, 3, &shortcut, 24, 8)?;
    assert!(rt; ascends(&apart.witness, 2));
    assert!(rt; at_most_one(&apart.witness, &[0, 1]));
    Ok(())
}
