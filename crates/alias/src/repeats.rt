// Names that are repeated in a table.
ghost use Rattle.std.specs.Prelude.{◌≡◌, ◌-◌, ◌<◌, length};
ghost use Rattle.common.specs.Index.{some_below};
ghost use Rattle.alias.specs.Internal.Hash.{HashesKept, hashed_count};
ghost use Rattle.alias.specs.Lines.{entry_at, table_entries};
ghost use Rattle.alias.specs.Table.{repeats_at, shares_of};
ghost use Rattle.alias.specs.Internal.Walk.{first_repeat};

use crate::filter::some_collide;
use crate::hash::Hashes;
use crate::lookup::Table;
use crate::names::{repeats_itself, shares};

// Whether an entry before entry k has a name in common with it, by the names.
fn shared_before(table: Table, k: usize) -> bool
    requires { k < length table.starts.now - 1 }
    ensures { result ≡ some_below (λ j. shares_of (entry_at (table_entries table.entry) j) (entry_at (table_entries table.entry) k)) k }
{
    let own = table.line(k);
    (0..k).any(|j| shares(table.line(j), own))
}

// Whether entry k repeats a name, its own or that of an earlier entry. The names of these are read only where the hashes leave it open.
fn repeats(table: Table, hashes: &Hashes, k: usize) -> bool
    requires k_in_bounds { k < length table.starts.now - 1 }
    requires hashes { HashesKept (table_entries table) (hashed_count (length table.starts.now - 1)) hashes.now }
    ensures { result ≡ repeats_at (table_entries table.entry) k }
{
    repeats_itself(table.line(k)) | (hashes.collides_before(k) && shared_before(table, k))
}

// The first entry that repeats a name. The entries are gone through only where by the hashes there may be one.
pub(crate) fn first(table: Table, hashes: &Hashes) -> Option<usize>
    requires { HashesKept (table_entries table) (hashed_count (length table.starts.now - 1)) hashes.now }
    ensures { result ≡ first_repeat (table_entries table.entry) }
{
    let n = table.count();
    if !hashes.unclear && !some_collide(hashes, n) {
        return None;
    }
    (0..n).find(|&k| repeats(table, hashes, k))
}
