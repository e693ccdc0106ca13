//! A whole text, line by line.
ghost use Rattle.std.specs.Prelude.{◌≡◌, MatchResult};
ghost use Rattle.netlist.specs.Texts.{Below};
ghost use Rattle.netlist.specs.Lines.{lines_of, lines_ahead};
ghost use Rattle.netlist.specs.Outcomes.{NotRead, Outcome, head_lines};

use crate::fields::{read_kind, read_number, read_place};
use crate::lines::LineReader;
use crate::{Expected, KindName, Netlist, ReadError};
use std::alloc::Global;

// The first two lines: the kind and the number of nodes.
fn read_head(lines: &mut LineReader<'_>) -> Result<(KindName, u32), ReadError>
    ensures { MatchResult result (λ h. Below 32 h.1 × (lines_ahead lines.old ≡ head_lines h.0 h.1 (lines_ahead lines.new))) (NotRead (lines_ahead lines.old)) }
{
    let no_kind = ReadError::Line {
        number: 1,
        expected: Expected::Kind,
    };
    let kind = lines.next().and_then(read_kind).ok_or(no_kind)?;
    let no_nodes = ReadError::Line {
        number: 2,
        expected: Expected::Nodes,
    };
    let nodes = lines.next().and_then(read_number).ok_or(no_nodes)?;
    Ok((kind, nodes))
}

/// The netlist whose text this is, or the first line that is not as it should be.
pub fn read_netlist(heap: Global, text: &[u8]) -> Result<Netlist, ReadError>
    ensures { Outcome (lines_of text.now) result }
{
    let mut lines = LineReader::new(text);
    let (kind, nodes) = read_head(&mut lines)?;
    let mut places = Vec::new(heap);
    for line in lines {
        // the first place stands on line 3
        let number = places.len() + 3;
        let bad = ReadError::Line {
            number,
            expected: kind.lead(),
        };
        let place = read_place(kind, line).ok_or(bad)?;
        places.push(place)?;
    }
    Ok(Netlist {
        kind,
        nodes,
        places,
    })
}
