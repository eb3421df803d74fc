// Alias tables: 0 to 512 lines of kind 04, one after another in a lent slice. `check` tests a table and gives where its lines begin; the look-ups
// take the table and these starts, and walk the lines where they stand.
#![tactic(auto)]

mod filter;
mod hash;
mod lines;
pub mod lookup;
mod names;
mod repeats;

ghost use Rattle.std.specs.Prelude.{◌≡◌, ◌+◌, ◌<◌, leb, take};
ghost use Rattle.common.specs.Answer.{answer_of};
ghost use Rattle.alias.specs.Internal.Walk.{more_lines, no_lines};
ghost use Rattle.alias.specs.Lines.{max_lines};
ghost use Rattle.alias.specs.Table.{check_table};

use crate::hash::Hashes;
use crate::lines::walk;
use crate::lookup::Table;
use common::errno::Errno;

pub const MAX_LINES: usize = 512;

// One start for each line, and one past the last.
pub const MAX_STARTS: usize = 513;

// Where the lines of a table begin: line k from starts[k] up to starts[k + 1]. Starts past these are zeros. There is no heap, so they lie in an array
// with their count.
#[derive(Clone, Copy)]
pub struct LineStarts {
    pub count: usize,
    pub starts: [usize; MAX_STARTS],
}

impl LineStarts {
    // Those of no line.
    fn new() -> LineStarts
        ensures { result ≡ no_lines }
    {
        LineStarts {
            count: 0,
            starts: [0; MAX_STARTS],
        }
    }

    // Whether there is room for no line more.
    fn is_full(&self) -> bool
        ensures { result ≡ leb max_lines self.now.count }
    {
        MAX_LINES <= self.count
    }

    // Adds a line that ends at an index.
    fn push(&mut self, end: usize)
        requires { self.old.count < max_lines }
        ensures { self.new ≡ more_lines self.old end }
    {
        self.count += 1;
        self.starts[self.count] = end;
    }

    // The table of these lines, whose bytes are lent.
    pub fn table<'a>(&'a self, bytes: &'a [u8]) -> Table<'a>
        ensures bytes_value { result.bytes.now ≡ bytes.now }
        ensures starts_value { result.starts.now ≡ take (self.now.count + 1) self.now.starts }
    {
        Table {
            bytes,
            starts: &self.starts[..self.count.min(MAX_LINES) + 1],
        }
    }
}

// Tests a table: `more` says that it is cut off, and more follows. A line is judged by itself, then against those before it.
pub fn check(table: &[u8], more: bool) -> Result<LineStarts, Errno>
    ensures { answer_of result ≡ check_table more table.now }
{
    let mut lines = LineStarts::new();
    let mut hashes = Hashes::new();
    let walked = walk(table, more, &mut lines, &mut hashes);
    if let Some(k) = repeats::first(lines.table(table), &hashes) {
        return Err(Errno::BadLine(k));
    }
    walked?;
    Ok(lines)
}
