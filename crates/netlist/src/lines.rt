//! The lines of a text: each byte 10 ends one, and at the end of the text it may be missing.
ghost use Rattle.std.specs.Prelude.{◌≡◌};
ghost use Rattle.std.specs.Iterator.{YieldsFirstRef, item_count};
ghost use Rattle.netlist.specs.Lines.{lines_ahead};

use crate::fields::split_once;

/// Hands out the lines of `bytes` from the offset `at` on.
// the whole text and an offset, and not the rest alone, since `next_line` promises that the text stays
#[derive(Clone, Copy)]
pub struct LineReader<'a> {
    pub bytes: &'a [u8],
    pub at: usize,
}

impl<'a> LineReader<'a> {
    /// A reader of the whole text.
    pub fn new(bytes: &'a [u8]) -> LineReader<'a>
        ensures text { result.bytes.now ≡ bytes.now }
        ensures start { result.at ≡ 0 }
    {
        LineReader { bytes, at: 0 }
    }

    /// The next line, with no byte 10; `None` past the last one.
    pub fn next_line(&mut self) -> Option<&'a [u8]>
        ensures gives { YieldsFirstRef lines_ahead self.old result self.new }
        ensures same { self.new.bytes.now ≡ self.old.bytes.now }
    {
        if self.at >= self.bytes.len() {
            return None;
        }
        let rest = &self.bytes[self.at..];
        match split_once(rest, b'\n') {
            Some((line, _)) => {
                self.at += line.len() + 1;
                Some(line)
            }
            None => {
                self.at = self.bytes.len();
                Some(rest)
            }
        }
    }
}

impl<'a> Iterator for LineReader<'a> {
    type Item = &'a [u8];

    ghost next_gives = { YieldsFirstRef lines_ahead };

    ghost remaining = { item_count lines_ahead };

    fn next(&mut self) -> Option<&'a [u8]> {
        self.next_line()
    }
}
