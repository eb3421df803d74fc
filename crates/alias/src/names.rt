// Names of entries, compared where they stand in their lines.
ghost use Rattle.std.specs.Prelude.{◌≡◌, Bool, List, ℕ, ◌+◌, ◌<◌};
ghost use Rattle.frame.specs.Frame.{body_of};
ghost use Rattle.alias_entry.specs.Entry.{abbreviation_bytes, name_bytes};
ghost use Rattle.alias_entry.specs.Internal.Spans.{span_bytes};
ghost use Rattle.hexline.specs.Line.{standing_in};
ghost use Rattle.label.specs.Label as labels;
ghost use Rattle.octets.specs.Bytes.{same_bytes};
ghost use Rattle.alias.specs.Lookup.{called_of, stands_for};
ghost use Rattle.alias.specs.Internal.Names.{name_is, span_is};
ghost use Rattle.alias.specs.Table.{shares_of};
ghost use Rattle.alias_entry.specs.declared.bytes.Span.{Span};

use alias_entry::Value;
use alias_entry::bytes::Span;
use hexline::parts;
use label::Label;

// Whether the bytes of a line's body at a span are n others, which a function gives by their index. The length is compared first, then the first
// byte.
fn matches<F: Fn(usize) -> u8>(line: &[u8], s: Span, n: usize, other: F) -> bool
    ghost f: { ℕ → ℕ }
    requires in_line { s.at + s.length < 1024 }
    requires callable { (i : ℕ) → i < n → F.pre other i }
    requires gives { (i : ℕ) (b : ℕ) → F.post other i b → b ≡ f i }
    ensures { result ≡ span_is (body_of line.now) s f n }
{
    s.length == n && (0..n).all(|i| frame::byte(line, s.at + i) == other(i))
}

// Whether a line's body has a text at a span.
fn spells(line: &[u8], s: Span, text: &[u8]) -> bool
    requires { s.at + s.length < 1024 }
    ensures { result ≡ same_bytes (span_bytes (body_of line.now) s) text.now }
{
    matches(line, s, text.len(), |i| text[i])
}

// Whether two lines' bodies have the same bytes at two spans.
fn alike(a: &[u8], s: Span, b: &[u8], t: Span) -> bool
    requires { (s.at + s.length < 1024) × (t.at + t.length < 1024) }
    ensures { result ≡ same_bytes (span_bytes (body_of a.now) s) (span_bytes (body_of b.now) t) }
{
    matches(a, s, t.length, |i| frame::byte(b, t.at + i))
}

// Whether a test holds of a name of the entry in a line: of its name, or of its abbreviation where that is not empty.
fn some_name<F: Fn(Span) -> bool>(line: &[u8], test: F) -> bool
    ghost p: { List ℕ → Bool }
    requires callable { (s : Span) → s.at + s.length < 1024 → F.pre test s }
    requires computes { (s : Span) (b : Bool) → F.post test s b → b ≡ p (span_bytes (body_of line.now) s) }
    ensures { result ≡ name_is p (standing_in line.now) }
{
    let t = parts::texts(line);
    test(t.name) | ((1 <= t.abbreviation.length) & test(t.abbreviation))
}

// Whether a text is a name of the entry in a line. This and `shares` are what `some_name` says, of a text and of another line.
pub(crate) fn called(line: &[u8], text: &[u8]) -> bool
    ensures { result ≡ called_of (standing_in line.now) text.now }
{
    some_name(line, |s| spells(line, s, text))
}

// Whether the bytes of a line b at a span are a name of the entry in a line a.
fn called_as(a: &[u8], b: &[u8], t: Span) -> bool
    requires { t.at + t.length < 1024 }
    ensures { result ≡ called_of (standing_in a.now) (span_bytes (body_of b.now) t) }
{
    some_name(a, move |s| alike(a, s, b, t))
}

// Whether the entries in two lines have a name in common.
pub(crate) fn shares(a: &[u8], b: &[u8]) -> bool
    ensures { result ≡ shares_of (standing_in a.now) (standing_in b.now) }
{
    some_name(b, |t| called_as(a, b, t))
}

// Whether the name of the entry in a line is its abbreviation too.
pub(crate) fn repeats_itself(line: &[u8]) -> bool
    ensures { result ≡ same_bytes (name_bytes (standing_in line.now)) (abbreviation_bytes (standing_in line.now)) }
{
    let t = parts::texts(line);
    alike(line, t.name, line, t.abbreviation)
}

// Whether the label of the entry in a line is l. The hierarchy is compared first, where it stands.
fn has_label(line: &[u8], l: &Label) -> bool
    ensures { result ≡ labels.equal_of (standing_in line.now).label l.now }
{
    parts::hierarchy(line) == l.hierarchy && parts::label(line).equals(l)
}

// Whether the entry in a line stands for a value, which for a whole label is the label beside it.
pub(crate) fn stands_for(line: &[u8], v: Value, l: &Label) -> bool
    ensures { result ≡ stands_for v l.now (standing_in line.now) }
{
    parts::value(line) == v && (v != Value::WholeLabel || has_label(line, l))
}
