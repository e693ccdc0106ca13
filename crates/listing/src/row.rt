//! A row of words that is written from its start on.
ghost use Rattle.std.specs.Prelude.{◌≤◌, length};

/// A lent row, in which words have been written up to a position.
#[derive(Drop)]
pub(crate) struct WordRow<'a> {
    row: &'a mut [u16],
    at: usize,
    ghost within: { at ≤ length row.now },
}

impl<'a> WordRow<'a> {
    ghost use Rattle.std.specs.Prelude.{◌≡◌, [], ◌∷◌, ◌++◌, ◌<◌, ◌≤◌, length, reverse, take, drop, slice_set};
    ghost use Rattle.listing.specs.Row.{written, unwritten, Wrote, Rewrote};

    /// The row before anything is written.
    pub(crate) fn new(row: &'a mut [u16]) -> WordRow<'a>
        ensures lent { result.row.ghost_name ≡ row.entry.ghost_name }
        ensures written { written result ≡ [] }
        ensures unwritten { unwritten result ≡ row.old }
    {
        WordRow { row, at: 0 }
    }

    /// The number of words that have been written.
    pub(crate) fn len(&self) -> usize
        ensures { result ≡ length (written self.now) }
    {
        self.at
    }

    /// Writes one word more.
    pub(crate) fn push(&mut self, word: u16)
        requires { 0 < length (unwritten self.old) }
        ensures { Wrote self.old self.new (word ∷ []) }
    {
        self.row[self.at] = word;
        self.at += 1;
    }

    /// Writes another word where one has been written.
    pub(crate) fn set(&mut self, place: usize, word: u16)
        requires { place < length (written self.old) }
        ensures { Rewrote self.old self.new (slice_set (written self.old) place word) }
    {
        self.row[place] = word;
    }

    /// The words that have been written from a position on.
    pub(crate) fn words_from(&self, from: usize) -> &[u16]
        requires { from ≤ length (written self.now) }
        ensures { result.now ≡ drop from (written self.now) }
    {
        &self.row[from..self.at]
    }

    /// Turns round the words that have been written from a position on.
    pub(crate) fn reverse_from(&mut self, from: usize)
        requires { from ≤ length (written self.old) }
        ensures { Rewrote self.old self.new (take from (written self.old) ++ reverse (drop from (written self.old))) }
    {
        self.row[from..self.at].reverse();
    }
}
