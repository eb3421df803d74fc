// The lines of a table: where they begin, and which of them are bad by themselves.
ghost use Rattle.std.specs.Prelude.{◌≡◌, true, false, ◌+◌, ◌<◌, ◌≤◌, drop, length, MatchResult};
ghost use Rattle.common.specs.declared.errno.Errno.TheVariants.{BadLine};
ghost use Rattle.octets.specs.Bytes.{index_of, lf};
ghost use Rattle.alias.specs.Internal.Hash.{HashesKept};
ghost use Rattle.octets.specs.Lines.{lines_of};
ghost use Rattle.alias.specs.Lines.{entries_of};
ghost use Rattle.octets.specs.Internal.Lines.{line_end};
ghost use Rattle.alias.specs.Internal.Walk.{Walks, no_lines};

use crate::LineStarts;
use crate::hash::{Hashes, line_hashes};
use common::errno::Errno;
use octets::LF;

// How many bytes are tested together.
const CHUNK: usize = 16;

// Whether there is an LF among some bytes. The loop has no early exit, so that it can take all of them at a time.
fn has_lf(bytes: &[u8]) -> bool
    ensures { result ≡ false → index_of lf bytes.now ≡ length bytes.now }
{
    bytes.iter().fold(false, |met, b| met | (*b == LF))
}

// An index before which there is no LF, and from which on there are fewer than CHUNK bytes, or one among the next CHUNK.
fn skip_chunks(bytes: &[u8]) -> usize
    ensures { (result ≤ length bytes.now) × (index_of lf bytes.now ≡ result + index_of lf (drop result bytes.now)) }
{
    let n = bytes.len() / CHUNK;
    bytes.chunks_exact(CHUNK).position(has_lf).unwrap_or(n) * CHUNK
}

// Past the LF of the line that begins at an index, or the end of the table where it does not end.
fn line_end(table: &[u8], at: usize) -> usize
    requires { at < length table.now }
    ensures { result ≡ line_end table.now at }
{
    let rest = octets::rest(table, at);
    let i = skip_chunks(rest);
    let n = i + octets::index_of(LF, octets::rest(rest, i));
    if n < rest.len() {
        return at + n + 1;
    }
    table.len()
}

// Walks the lines up to the first that is bad by itself, which it answers. Where the table is cut off, that is at the latest the one after the last.
// The starts of the lines before it are kept, and the hashes of their entries.
pub(crate) fn walk(
    table: &[u8],
    more: bool,
    lines: &mut LineStarts,
    hashes: &mut Hashes,
) -> Result<(), Errno>
    requires { lines.old ≡ no_lines }
    ensures walks { MatchResult result (λ _. Walks more table.now lines.new false) (λ e. (e ≡ BadLine lines.new.count) × Walks more table.now lines.new true) }
    ensures hashes_kept { HashesKept (entries_of (lines_of table.now)) lines.new.count hashes.new }
{
    // Lines differ in length, and it is the index at which one begins that is kept.
    let mut at = 0;
    while at < table.len() {
        let next = line_end(table, at);
        match line_hashes(&table[at..next]) {
            Some(entry) if !lines.is_full() => hashes.keep(lines.count, entry),
            _ => return Err(Errno::BadLine(lines.count)),
        }
        lines.push(next);
        at = next;
    }
    if more {
        return Err(Errno::BadLine(lines.count));
    }
    Ok(())
}
