// Bodies of alias entries judged by their bytes: no entry is made, and its texts can be read where they stand in the body.
ghost use Rattle.std.specs.Prelude.{◌≡◌, ◌+◌, ◌<◌};
ghost use Rattle.label_codec.specs.Body.{line_words};
ghost use Rattle.alias_entry.specs.Entry.{layout_of};
ghost use Rattle.hexline.specs.Accept.{accepted_body};
ghost use Rattle.hexline.specs.Internal.Accept.{value_byte_ok};
ghost use Rattle.hexline.specs.Line.{entry_form};

use crate::Kind;
use alias_entry::bytes::{ENTRY_BYTES, Layout, layout_in};
use alias_entry::{MAX_ABBREVIATION, MAX_NAME, text_ok};
use label::MAX_HIERARCHY;
use label_codec::{LINE_WORDS, byte};

// The longest body of an entry.
pub const ENTRY_BODY: usize = 1 + ENTRY_BYTES;

// Whether a body, whose entry has the layout p, has the form of an alias entry's.
#[tactic(auto, unfolding(crate::specs::Line::body_form, crate::specs::Line::entry_form))]
fn formed(body: &[u8], p: Layout) -> bool
    requires { (p ≡ layout_of line_words body.now 1) × (p.abbreviation.at + p.abbreviation.length < 1024) }
    ensures { result ≡ entry_form 4 line_words body.now }
{
    let name = p.name;
    let abbreviation = p.abbreviation;
    let end = abbreviation.at + abbreviation.length;
    let fits = (name.length <= MAX_NAME) & (abbreviation.length <= MAX_ABBREVIATION);
    let form = (body.len() == end) & (byte(body, 0) == Kind::Entry as u8);
    fits & (form & (1 <= p.class) & (p.class <= 3))
}

// Whether b is the first byte of a value of a class.
fn value_ok(class: u8, b: u8) -> bool
    ensures { result ≡ value_byte_ok class b }
{
    (class == 2) | (b as u64 <= MAX_HIERARCHY)
}

// Whether a body is that of an accepted line of kind 04.
pub fn accepts(body: &[u8]) -> bool
    ensures { result ≡ accepted_body body.now }
{
    let p = layout_in(body, LINE_WORDS);
    if !formed(body, p) {
        return false;
    }
    let name = p.name;
    let abbreviation = p.abbreviation;
    let n = octets::front(octets::rest(body, name.at), name.length);
    let a = octets::rest(body, abbreviation.at);
    value_ok(p.class, byte(body, 2)) & (1 <= name.length) & text_ok(n) & text_ok(a)
}

// The class of the entry in any body, and where its texts stand.
pub fn layout(body: &[u8]) -> Layout
    ensures { result ≡ layout_of line_words body.now 1 }
{
    layout_in(body, LINE_WORDS)
}
