// Look-ups in a table, by its bytes and the starts of its lines, of which there is one more than lines. They are total: of a table that was tested,
// with the starts that the test gives, they find its entries.
ghost use Rattle.std.specs.Prelude.{◌≡◌, ◌+◌, ◌-◌, drop, length, take};
ghost use Rattle.octets.specs.Lines.{line_at};
ghost use Rattle.alias.specs.Lines.{lines_by, table_entries};
ghost use Rattle.alias.specs.Lookup.{find_of, last_entry_for, next_entry_for};

use crate::names::{called, stands_for};
use alias_entry::Value;
use label::Label;

// The bytes of a table, and the starts of its lines: of so many lines, and of the end of the last.
#[derive(Clone, Copy)]
pub struct Table<'a> {
    pub bytes: &'a [u8],
    pub starts: &'a [usize],
}

// The bytes from one index up to another: none where that is before it, and no more than there are.
fn part(bytes: &[u8], from: usize, to: usize) -> &[u8]
    ensures { result.now ≡ take (to - from) (drop from bytes.now) }
{
    octets::front(octets::rest(bytes, from), to.saturating_sub(from))
}

impl<'a> Table<'a> {
    // How many lines there are.
    pub(crate) fn count(self) -> usize
        ensures { result ≡ length self.entry.starts.now - 1 }
    {
        self.starts.len().saturating_sub(1)
    }

    // The line of entry k, and no bytes where there is no such entry.
    pub fn line(self, k: usize) -> &'a [u8]
        ensures { result.now ≡ line_at (lines_by self.entry.bytes.now self.entry.starts.now) k }
    {
        if self.count() <= k {
            return &self.bytes[..0];
        }
        part(self.bytes, self.starts[k], self.starts[k + 1])
    }

    // The entry that a text names.
    pub fn find(self, text: &[u8]) -> Option<usize>
        ensures { result ≡ find_of (table_entries self.entry) text.now }
    {
        (0..self.count()).find(|&k| called(self.line(k), text))
    }

    // From entry `from` on, the next that stands for a value, which for a whole label is the label beside it. The search goes on from the one after
    // it.
    pub fn next(self, v: Value, l: Label, from: usize) -> Option<usize>
        ensures { result ≡ next_entry_for (table_entries self.entry) v l from }
    {
        (from..self.count()).find(|&k| stands_for(self.line(k), v, &l))
    }

    // The last entry that stands for a value: of several, the one that counts.
    pub fn last(self, v: Value, l: Label) -> Option<usize>
        ensures { result ≡ last_entry_for (table_entries self.entry) v l }
    {
        (0..self.count())
            .rev()
            .find(|&k| stands_for(self.line(k), v, &l))
    }
}
