// Names of entries: how long they are, and put in a buffer.
ghost use Rattle.std.specs.Prelude.{◌≡◌, ◌+◌, ◌-◌, ◌<◌, ◌≤◌, length};
ghost use Rattle.alias_entry.specs.Entry.{name_size};
ghost use Rattle.octets.specs.Internal.Put.{Put};
ghost use Rattle.alias.specs.Lines.{entry_at, table_entries};
ghost use Rattle.text.specs.Internal.Measure.{MeasuredText, written_in};
ghost use Rattle.text.specs.Write.{name_for, named, written_name};

use crate::Variant;
use crate::write::Writer;
use alias_entry::Value;
use alias_entry::bytes::Span;
use hexline::parts;
use label::Label;

// Where the name that is written stands in the line of an entry. The second clause follows, and is stated for callers.
#[tactic(auto, unfolding(crate::specs::Internal::Measure::written_in))]
fn written_in(line: &[u8], v: Variant) -> Span
    ensures value { result ≡ written_in v line.now }
    ensures length_bound { (result.at + result.length < 1024) × (result.length ≤ name_size) }
{
    let t = parts::texts(line);
    match v {
        Variant::Abbreviations if 1 <= t.abbreviation.length => t.abbreviation,
        Variant::Names | Variant::Abbreviations => t.name,
    }
}

impl<'a> Writer<'a> {
    // How long the name for a value is.
    pub(crate) fn measure_name(&self, value: Value, l: Label) -> Option<usize>
        ensures { MeasuredText (named (table_entries self.now.table) value l) (name_for (table_entries self.now.table) self.now.style.variant value l) name_size result }
    {
        let k = self.table.last(value, l)?;
        let s = written_in(self.table.line(k), self.style.variant);
        Some(s.length)
    }

    // Puts the name of entry k in out at index at, and answers the index past it.
    pub(crate) fn put_found(&self, k: usize, out: &mut [u8], at: usize) -> usize
        requires in_table { k < length self.now.table.starts.now - 1 }
        requires room { at + length (written_name self.now.style.variant (entry_at (table_entries self.now.table) k)) ≤ length out.old }
        ensures { Put out.old at (written_name self.now.style.variant (entry_at (table_entries self.now.table) k)) result out.new }
    {
        let line = self.table.line(k);
        let s = written_in(line, self.style.variant);
        for i in 0..s.length {
            out[at + i] = frame::byte(line, s.at + i);
        }
        at + s.length
    }

    // Puts the name for a value in out at index at, nothing where there is none, and answers the index past it.
    #[tactic(auto, using(crate::proofs::WriteLaws::found_below), unfolding(crate::specs::Write::name_for))]
    pub(crate) fn put_name(&self, value: Value, l: Label, out: &mut [u8], at: usize) -> usize
        requires { at + length (name_for (table_entries self.now.table) self.now.style.variant value l) ≤ length out.old }
        ensures { Put out.old at (name_for (table_entries self.now.table) self.now.style.variant value l) result out.new }
    {
        match self.table.last(value, l) {
            Some(k) => self.put_found(k, out, at),
            None => at,
        }
    }
}
