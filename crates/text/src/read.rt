// Labels and ranges read from text. Whatever is wrong with a text is the same plain 22.
ghost use Rattle.std.specs.Prelude.{◌≡◌};
ghost use Rattle.common.specs.Answer.{answer_of};
ghost use Rattle.octets.specs.Bytes.{split};
ghost use Rattle.alias.specs.Lines.{table_entries};
ghost use Rattle.text.specs.Internal.Named.{added_to, value_named};
ghost use Rattle.text.specs.Read.{categories_read, composed_of, ends_of, high_of, label_in_text, label_named, label_seen, no_categories, range_from, read_label_text, read_range_text};
ghost use Rattle.text.specs.Subject.{with_table};
ghost use Rattle.text.specs.Write.{comma};

use alias::lookup::Table;
use alias_entry::Value;
use common::errno::Errno;
use hexline::parts;
use label::caller::Caller;
use label::words::WORDS;
use label::{Label, words};
use octets::BLANK;
use range::Range;

// A table whose names are read, and the caller to whom what is read has to be in sight.
#[derive(Clone, Copy)]
struct Reader<'a> {
    table: Table<'a>,
    caller: Caller,
}

impl<'a> Reader<'a> {
    // The value that a text names.
    #[tactic(auto, using(crate::proofs::ReadLaws::value_by))]
    fn value_named(&self, text: &[u8]) -> Result<Value, Errno>
        ensures { answer_of result ≡ value_named (table_entries self.now.table) text.now }
    {
        let k = self.table.find(text).ok_or(Errno::Invalid)?;
        Ok(parts::value(self.table.line(k)))
    }

    // The label that one name says.
    #[tactic(auto, using(crate::proofs::ReadLaws::label_by_line))]
    fn label_named(&self, text: &[u8]) -> Result<Label, Errno>
        ensures { answer_of result ≡ label_named (table_entries self.now.table) text.now }
    {
        let k = self.table.find(text).ok_or(Errno::Invalid)?;
        let line = self.table.line(k);
        match parts::value(line) {
            Value::Hierarchy(hierarchy) => Ok(Label {
                hierarchy,
                categories: [0; WORDS],
            }),
            Value::Category(_) => Err(Errno::Invalid),
            Value::WholeLabel => Ok(parts::label(line)),
        }
    }

    // The set with the category that a text names, which it must not have yet.
    #[tactic(auto, using(crate::proofs::ReadLaws::added_by))]
    fn add_category(&self, set: [u64; WORDS], name: &[u8]) -> Result<[u64; WORDS], Errno>
        ensures { answer_of result ≡ added_to (table_entries self.now.table) set name.now }
    {
        let Value::Category(c) = self.value_named(name)? else {
            return Err(Errno::Invalid);
        };
        let one = words::single(c);
        if words::includes(set, one) {
            return Err(Errno::Invalid);
        }
        Ok(words::union(set, one))
    }

    // The set of the categories that names joined by `,` stand for.
    #[tactic(auto, using(crate::proofs::ReadLaws::split_is))]
    fn read_categories(&self, names: &[u8]) -> Result<[u64; WORDS], Errno>
        ensures { answer_of result ≡ categories_read (table_entries self.now.table) no_categories (split comma names.now) }
    {
        let mut set = [0; WORDS];
        for name in names.split(|b| *b == b',') {
            set = self.add_category(set, name)?;
        }
        Ok(set)
    }

    // The label of a hierarchy's name and the names of categories.
    #[tactic(auto, using(crate::proofs::ReadLaws::composed_by))]
    fn composed(&self, name: &[u8], names: &[u8]) -> Result<Label, Errno>
        ensures { answer_of result ≡ composed_of (table_entries self.now.table) name.now names.now }
    {
        let Value::Hierarchy(hierarchy) = self.value_named(name)? else {
            return Err(Errno::Invalid);
        };
        let categories = self.read_categories(names)?;
        Ok(Label {
            hierarchy,
            categories,
        })
    }

    // The label that a text says.
    #[tactic(auto, unfolding(crate::specs::Read::label_in_text))]
    fn label_in(&self, text: &[u8]) -> Result<Label, Errno>
        ensures { answer_of result ≡ label_in_text (table_entries self.now.table) text.now }
    {
        let i = octets::index_of(b':', text);
        if i < text.len() {
            return self.composed(&text[..i], &text[i + 1..]);
        }
        self.label_named(text)
    }

    // The label that a text says, where the subject may see it.
    #[tactic(auto, unfolding(crate::specs::Read::label_seen))]
    fn label_seen(&self, text: &[u8]) -> Result<Label, Errno>
        ensures { answer_of result ≡ label_seen (table_entries self.now.table) self.now.caller text.now }
    {
        let l = self.label_in(text)?;
        if self.caller.sees(&l) {
            return Ok(l);
        }
        Err(Errno::Invalid)
    }

    // The range of a low end and the text of a high end.
    #[tactic(auto, unfolding(crate::specs::Read::range_from))]
    fn range_from(&self, low: Label, text: &[u8]) -> Result<Range, Errno>
        ensures { answer_of result ≡ range_from (table_entries self.now.table) self.now.caller low text.now }
    {
        let high = self.label_seen(text)?;
        if high.dominates(&low) {
            return Ok(Range { low, high });
        }
        Err(Errno::Invalid)
    }

    // The range of a low end and what follows it: the marker and the text of a high end. The form with `?` is no range.
    #[tactic(auto, using(octets::proofs::ByteLaws::same_pointwise), unfolding(crate::specs::Read::high_of))]
    fn high_end(&self, low: Label, text: &[u8]) -> Result<Range, Errno>
        ensures { answer_of result ≡ high_of (table_entries self.now.table) self.now.caller low text.now }
    {
        if octets::same(text, b" -H ?") {
            return Err(Errno::Invalid);
        }
        let high = text.strip_prefix(b" -H ").ok_or(Errno::Invalid)?;
        self.range_from(low, high)
    }

    // The range of a text behind its first marker: the low end first, and its refusal where it gives no label.
    #[tactic(auto, unfolding(crate::specs::Read::ends_of))]
    fn ends(&self, text: &[u8]) -> Result<Range, Errno>
        ensures { answer_of result ≡ ends_of (table_entries self.now.table) self.now.caller text.now }
    {
        let n = octets::index_of(BLANK, text);
        let low = self.label_seen(&text[..n])?;
        self.high_end(low, &text[n..])
    }
}

// Reads a label from a text.
#[tactic(auto, unfolding(crate::specs::Read::read_label_text))]
pub fn read_label(table: &[u8], more: bool, caller: Caller, text: &[u8]) -> Result<Label, Errno>
    ensures { answer_of result ≡ with_table more table.now (λ es. read_label_text es caller text.now) }
{
    let lines = alias::check(table, more)?;
    if !label::valid(caller.label) {
        return Err(Errno::Invalid);
    }
    let reader = Reader {
        table: lines.table(table),
        caller,
    };
    reader.label_seen(text)
}

// Reads a range from a text.
#[tactic(auto, using(octets::proofs::ByteLaws::same_pointwise), unfolding(crate::specs::Read::read_range_text))]
pub fn read_range(table: &[u8], more: bool, caller: Caller, text: &[u8]) -> Result<Range, Errno>
    ensures { answer_of result ≡ with_table more table.now (λ es. read_range_text es caller text.now) }
{
    let lines = alias::check(table, more)?;
    if !label::valid(caller.label) {
        return Err(Errno::Invalid);
    }
    let ends = text.strip_prefix(b"-L ").ok_or(Errno::Invalid)?;
    let reader = Reader {
        table: lines.table(table),
        caller,
    };
    reader.ends(ends)
}
