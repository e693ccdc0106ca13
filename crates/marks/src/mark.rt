//! The entries of the mark table.

/// The arc at a place: from the node `begin` to the node `end`.
#[derive(Clone, Copy, PartialEq, Eq, Debug)]
pub struct Arc {
    pub begin: u16,
    pub end: u16,
    /// Whether its lead drains, and whether it is fed.
    pub class: (bool, bool),
}

/// A step over the arc at a place, along it or against it.
// a flag, here and wherever a direction is passed: it is one in the definition of a step too, and an enum of
// two would be turned into it at every use
#[derive(Clone, Copy, PartialEq, Eq, Debug)]
pub struct Step {
    pub place: u16,
    pub along: bool,
}

/// What a search leaves at a node that it reached.
#[derive(Clone, Copy, PartialEq, Eq, Debug)]
pub struct Reached {
    /// How many steps the node is from the start of the search.
    pub depth: u16,
    /// The step by which the search came; none at its start.
    pub by: Option<Step>,
}

/// One entry of the mark table. The first entries are for the nodes, the others for the places. The
/// queue of a search and the links between arcs are kept here too, by number: there is no heap, and
/// this table is all the memory that is lent.
#[derive(Clone, Copy, PartialEq, Eq, Debug)]
pub struct Mark {
    /// Of a place: its arc, if it has one.
    pub arc: Option<Arc>,
    /// Of a node: how a search reached it, if it did.
    pub reached: Option<Reached>,
    /// The node that a search reached as this entry's number says, counted from 0.
    pub queued: u16,
    /// Of a node: the lowest place with an arc that begins, or ends, there. Of a place: the next such
    /// place of its arc's node.
    pub out: Option<u16>,
    pub into: Option<u16>,
}

impl Mark {
    /// The mark of a vacant place, and of a node before anything is known of it.
    pub const VACANT: Mark = Mark {
        arc: None,
        reached: None,
        queued: 0,
        out: None,
        into: None,
    };
}
