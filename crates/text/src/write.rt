// Labels and ranges written as text: measured first, so that a refusal writes nothing, and then put in the buffer.
ghost use Rattle.std.specs.Prelude.{◌≡◌, ◌∷◌, ◌++◌, ◌+◌, ◌≤◌, length};
ghost use Rattle.common.specs.Answer.{answer_by, answer_of, granted, require};
ghost use Rattle.common.specs.Buffer.{WrittenTo};
ghost use Rattle.label.specs.Label.{zero_label};
ghost use Rattle.label.specs.Words.{members_of};
ghost use Rattle.alias_entry.specs.declared.Value.TheVariants.{Category};
ghost use Rattle.octets.specs.Internal.Put.{Put};
ghost use Rattle.alias.specs.Lines.{table_entries};
ghost use Rattle.text.specs.Internal.Measure.{MeasuredText, max_categories, max_label, max_range, range_named, range_text, room_of};
ghost use Rattle.text.specs.Subject.{with_table};
ghost use Rattle.text.specs.Internal.Allowed.{allowed_of};
ghost use Rattle.text.specs.Write.{RangeWrittenTo, all_named, categories_named, categories_text, colon, definition_named, definition_text, label_text, name_for, write_label_of, write_range_of};

use crate::{Form, RangeWritten, Style};
use alias::lookup::Table;
use alias_entry::Value;
use common::errno::Errno;
use label::caller::Caller;
use label::words::WORDS;
use label::{Label, words};
use range::Range;

// A table whose names are written, in a style. A method `measure_..` says how long a text is, and `put_..` puts the same text in a buffer at an index
// and answers the index past it. They stay two, since a refusal writes nothing: a text is measured before its first byte is put. The buffer and the
// index stay two parameters, as `octets::append` takes them.
#[derive(Clone, Copy)]
pub(crate) struct Writer<'a> {
    pub(crate) table: Table<'a>,
    pub(crate) style: Style,
}

impl<'a> Writer<'a> {
    // How long the names of categories are, each with its mark.
    #[tactic(auto, using(label::proofs::ListingLaws::next_within))]
    fn measure_categories(&self, categories: [u64; WORDS]) -> Option<usize>
        ensures { MeasuredText (categories_named (table_entries self.now.table) (members_of categories)) (categories_text (table_entries self.now.table) self.now.style.variant colon (members_of categories)) max_categories result }
    {
        let mut total = 0;
        // The next category is searched from the one before it, so this is no walk over numbers.
        let mut c = 0;
        while let Some(k) = words::next(categories, c) {
            total += 1 + self.measure_name(Value::Category(k), label::zero())?;
            c = k + 1;
        }
        Some(total)
    }

    // Puts a mark and the name of a category.
    fn put_category(&self, mark: u8, c: u64, out: &mut [u8], at: usize) -> usize
        requires { at + 1 + length (name_for (table_entries self.now.table) self.now.style.variant (Category c) zero_label) ≤ length out.old }
        ensures { Put out.old at (mark ∷ name_for (table_entries self.now.table) self.now.style.variant (Category c) zero_label) result out.new }
    {
        out[at] = mark;
        self.put_name(Value::Category(c), label::zero(), out, at + 1)
    }

    // Puts the names of categories, each with its mark.
    #[tactic(auto, using(label::proofs::ListingLaws::next_within))]
    fn put_categories(&self, categories: [u64; WORDS], out: &mut [u8], at: usize) -> usize
        requires { at + length (categories_text (table_entries self.now.table) self.now.style.variant colon (members_of categories)) ≤ length out.old }
        ensures { Put out.old at (categories_text (table_entries self.now.table) self.now.style.variant colon (members_of categories)) result out.new }
    {
        let mut past = at;
        let mut mark = b':';
        // As above, searched from the one before.
        let mut c = 0;
        while let Some(k) = words::next(categories, c) {
            past = self.put_category(mark, k, out, past);
            mark = b',';
            c = k + 1;
        }
        past
    }

    // How long the definition form of a label is.
    #[tactic(auto, unfolding(crate::specs::Write::definition_text, crate::specs::Write::definition_named))]
    fn measure_definition(&self, l: Label) -> Option<usize>
        ensures { MeasuredText (definition_named (table_entries self.now.table) l) (definition_text (table_entries self.now.table) self.now.style.variant l) max_label result }
    {
        let m = self.measure_name(Value::Hierarchy(l.hierarchy), label::zero())?;
        let n = self.measure_categories(l.categories)?;
        Some(m + n)
    }

    #[tactic(auto, unfolding(crate::specs::Write::definition_text))]
    fn put_definition(&self, l: Label, out: &mut [u8], at: usize) -> usize
        requires { at + length (definition_text (table_entries self.now.table) self.now.style.variant l) ≤ length out.old }
        ensures { Put out.old at (definition_text (table_entries self.now.table) self.now.style.variant l) result out.new }
    {
        let past = self.put_name(Value::Hierarchy(l.hierarchy), label::zero(), out, at);
        self.put_categories(l.categories, out, past)
    }

    // How long the text of a label is.
    #[tactic(auto, unfolding(crate::specs::Write::text_in, crate::specs::Write::named_in))]
    fn measure_label(&self, l: Label) -> Option<usize>
        ensures { MeasuredText (all_named (table_entries self.now.table) self.now.style l) (label_text (table_entries self.now.table) self.now.style l) max_label result }
    {
        match self.style.form {
            Form::Definition => self.measure_definition(l),
            // By cases: the closure of an `or_else` would have to say again what `measure_definition` ensures.
            Form::Alias => match self.measure_name(Value::WholeLabel, l) {
                Some(n) => Some(n),
                None => self.measure_definition(l),
            },
        }
    }

    // Puts the text of a label.
    #[tactic(auto, using(crate::proofs::WriteLaws::found_below), unfolding(crate::specs::Write::text_in, crate::specs::Write::named, crate::specs::Write::name_for))]
    fn put_label(&self, l: Label, out: &mut [u8], at: usize) -> usize
        requires { at + length (label_text (table_entries self.now.table) self.now.style l) ≤ length out.old }
        ensures { Put out.old at (label_text (table_entries self.now.table) self.now.style l) result out.new }
    {
        match self.style.form {
            Form::Definition => self.put_definition(l, out, at),
            Form::Alias => match self.table.last(Value::WholeLabel, l) {
                Some(k) => self.put_found(k, out, at),
                None => self.put_definition(l, out, at),
            },
        }
    }

    // Writes the text of a label that the subject may see at the front of out.
    fn write_text(&self, l: Label, out: &mut [u8]) -> Result<usize, Errno>
        ensures { WrittenTo result (require (all_named (table_entries self.now.table) self.now.style l) 2 (granted (label_text (table_entries self.now.table) self.now.style l))) out.old out.new }
    {
        let n = room(self.measure_label(l), out.len())?;
        self.put_label(l, out, 0);
        Ok(n)
    }

    // How long the text of a range is, with both ends or with the low end only.
    fn measure_range(&self, x: Range, whole: bool) -> Option<usize>
        ensures { MeasuredText (range_named (table_entries self.now.table) self.now.style x whole) (range_text (table_entries self.now.table) self.now.style x whole) max_range result }
    {
        let m = self.measure_label(x.low)?;
        if whole {
            let n = self.measure_label(x.high)?;
            return Some(m + n + 7);
        }
        Some(m + 8)
    }

    // Puts a marker and the text of a label.
    fn put_marked(&self, marker: &[u8], l: Label, out: &mut [u8], at: usize) -> usize
        requires { at + length (marker.now ++ label_text (table_entries self.now.table) self.now.style l) ≤ length out.old }
        ensures { Put out.old at (marker.now ++ label_text (table_entries self.now.table) self.now.style l) result out.new }
    {
        let past = octets::append(out, at, marker);
        self.put_label(l, out, past)
    }

    fn put_range(&self, x: Range, whole: bool, out: &mut [u8]) -> usize
        requires { length (range_text (table_entries self.now.table) self.now.style x whole) ≤ length out.old }
        ensures { Put out.old 0 (range_text (table_entries self.now.table) self.now.style x whole) result out.new }
    {
        let past = self.put_marked(b"-L ", x.low, out, 0);
        if whole {
            return self.put_marked(b" -H ", x.high, out, past);
        }
        octets::append(out, past, b" -H ?")
    }

    // The same of a range, with both ends or with the low end only. One function of both would take what is measured and put as closures, each with
    // its contract again.
    fn write_ends(&self, x: Range, whole: bool, out: &mut [u8]) -> Result<usize, Errno>
        ensures { WrittenTo result (require (range_named (table_entries self.now.table) self.now.style x whole) 2 (granted (range_text (table_entries self.now.table) self.now.style x whole))) out.old out.new }
    {
        let n = room(self.measure_range(x, whole), out.len())?;
        self.put_range(x, whole, out);
        Ok(n)
    }
}

// What is answered of a text of that measure where a buffer has so many bytes.
fn room(m: Option<usize>, size: usize) -> Result<usize, Errno>
    ensures { answer_of result ≡ room_of m size }
{
    let n = m.ok_or(Errno::NoEnt)?;
    if size < n {
        return Err(Errno::TooBig(n));
    }
    Ok(n)
}

// Whether a label may be shown to a subject, where what is asked for is valid.
#[tactic(auto, unfolding(crate::specs::Internal::Allowed::allowed_of))]
fn allowed(valid: bool, caller: Caller, l: Label) -> Result<(), Errno>
    ensures { answer_by (λ u. l) result ≡ allowed_of valid caller l }
{
    if !(valid & label::valid(caller.label)) {
        return Err(Errno::Invalid);
    }
    if !caller.sees(&l) {
        return Err(Errno::Access);
    }
    Ok(())
}

// Writes a label as text at the front of out.
pub fn write_label(
    table: &[u8],
    more: bool,
    caller: Caller,
    style: Style,
    l: Label,
    out: &mut [u8],
) -> Result<usize, Errno>
    ensures { WrittenTo result (with_table more table.now (λ es. write_label_of es caller style l)) out.old out.new }
{
    let lines = alias::check(table, more)?;
    allowed(label::valid(l), caller, l)?;
    let writer = Writer {
        table: lines.table(table),
        style,
    };
    writer.write_text(l, out)
}

// Writes a range as text at the front of out, with its status: 0 with both ends, 1 where the subject may see the low end only.
pub fn write_range(
    table: &[u8],
    more: bool,
    caller: Caller,
    style: Style,
    x: Range,
    out: &mut [u8],
) -> Result<RangeWritten, Errno>
    ensures { RangeWrittenTo result (with_table more table.now (λ es. write_range_of es caller style x)) out.old out.new }
{
    let lines = alias::check(table, more)?;
    allowed(range::valid(x), caller, x.low)?;
    let writer = Writer {
        table: lines.table(table),
        style,
    };
    let whole = caller.sees(&x.high);
    let length = writer.write_ends(x, whole, out)?;
    Ok(RangeWritten {
        length,
        status: if whole { 0 } else { 1 },
    })
}
