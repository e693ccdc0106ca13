//! The arcs that the places of a mark table hold.
ghost use Rattle.marks.specs.Marks.{ArcsFit, ArcsSound};

use super::mark::Mark;

/// The place part of a mark table, as a table of arcs.
#[derive(Clone, Copy)]
pub struct Arcs<'a> {
    pub marks: &'a [Mark],
    pub nodes: usize,
    pub source: usize,
    pub sink: usize,
    ghost sound: { ArcsSound marks.now nodes source sink },
    ghost fits: { ArcsFit marks.now nodes source sink },
}
