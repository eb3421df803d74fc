// Alias tables, and labels and ranges as text. Flags and style are tested before the table.
ghost use Rattle.std.specs.Prelude.{◌≡◌};
ghost use Rattle.common.specs.Answer.{answer_of, require};
ghost use Rattle.common.specs.Buffer.{WrittenTo};
ghost use Rattle.alias.specs.Table.{check_table};
ghost use Rattle.text.specs.Read.{read_label_text, read_range_text};
ghost use Rattle.text.specs.Subject.{with_table};
ghost use Rattle.text.specs.Write.{RangeWrittenTo, write_label_of, write_range_of};
ghost use Rattle.abi.specs.Answer.{CRangeWrittenTo, CWrittenTo, label_answer, line_count, numbered, range_answer};
ghost use Rattle.abi.specs.Caller.{caller_of};
ghost use Rattle.abi.specs.Flag as flags;
ghost use Rattle.abi.specs.Style.{style_of};
ghost use Rattle.lurmenize.specs.Names.{ask_formed, write_formed};

use abi::answer::{CAnswer, CLabelAnswer, CRangeAnswer, CRangeWritten};
use abi::caller::CCaller;
use abi::style::CStyle;
use abi::{answer, flag};
use alias::LineStarts;
use common::errno::Errno;
use label::Label;
use label::caller::Caller;
use range::Range;
use text::{RangeWritten, Style};

#[unsafe(no_mangle)]
pub extern "C" fn lurm_check_alias_table(aliases: &[u8], more: u64) -> CAnswer
    ensures { result ≡ numbered line_count (require (flags.formed_of more) 22 (check_table (flags.decoded_of more) aliases.now)) }
{
    answer::of(check(aliases, more))
}

fn check(aliases: &[u8], more: u64) -> Result<LineStarts, Errno>
    ensures { answer_of result ≡ require (flags.formed_of more) 22 (check_table (flags.decoded_of more) aliases.now) }
{
    alias::check(aliases, flag::decode(more)?)
}

#[unsafe(no_mangle)]
pub extern "C" fn lurm_write_label_text(
    aliases: &[u8],
    more: u64,
    caller: CCaller,
    style: CStyle,
    label: Label,
    out: &mut [u8],
) -> CAnswer
    ensures { CWrittenTo result (require (write_formed more caller style) 22 (with_table (flags.decoded_of more) aliases.now (λ es. write_label_of es (caller_of caller) (style_of style) label))) out.old out.new }
{
    answer::of(write_label(aliases, more, caller, style, label, out))
}

#[tactic(auto, unfolding(common::specs::Buffer::length_of, common::specs::Buffer::buffer_of))]
fn write_label(
    aliases: &[u8],
    more: u64,
    caller: CCaller,
    style: CStyle,
    label: Label,
    out: &mut [u8],
) -> Result<usize, Errno>
    ensures { WrittenTo result (require (write_formed more caller style) 22 (with_table (flags.decoded_of more) aliases.now (λ es. write_label_of es (caller_of caller) (style_of style) label))) out.old out.new }
{
    let more = flag::decode(more)?;
    let caller = Caller::try_from(caller)?;
    let style = Style::try_from(style)?;
    text::write::write_label(aliases, more, caller, style, label, out)
}

#[unsafe(no_mangle)]
pub extern "C" fn lurm_write_range_text(
    aliases: &[u8],
    more: u64,
    caller: CCaller,
    style: CStyle,
    range: Range,
    out: &mut [u8],
) -> CRangeWritten
    ensures { CRangeWrittenTo result (require (write_formed more caller style) 22 (with_table (flags.decoded_of more) aliases.now (λ es. write_range_of es (caller_of caller) (style_of style) range))) out.old out.new }
{
    write_range(aliases, more, caller, style, range, out).into()
}

#[tactic(auto, unfolding(common::specs::Buffer::length_of, common::specs::Buffer::buffer_of))]
fn write_range(
    aliases: &[u8],
    more: u64,
    caller: CCaller,
    style: CStyle,
    range: Range,
    out: &mut [u8],
) -> Result<RangeWritten, Errno>
    ensures { RangeWrittenTo result (require (write_formed more caller style) 22 (with_table (flags.decoded_of more) aliases.now (λ es. write_range_of es (caller_of caller) (style_of style) range))) out.old out.new }
{
    let more = flag::decode(more)?;
    let caller = Caller::try_from(caller)?;
    let style = Style::try_from(style)?;
    text::write::write_range(aliases, more, caller, style, range, out)
}

#[unsafe(no_mangle)]
pub extern "C" fn lurm_read_label_text(
    aliases: &[u8],
    more: u64,
    caller: CCaller,
    text: &[u8],
) -> CLabelAnswer
    ensures { result ≡ label_answer (require (ask_formed more caller) 22 (with_table (flags.decoded_of more) aliases.now (λ es. read_label_text es (caller_of caller) text.now))) }
{
    read_label(aliases, more, caller, text).into()
}

fn read_label(aliases: &[u8], more: u64, caller: CCaller, text: &[u8]) -> Result<Label, Errno>
    ensures { answer_of result ≡ require (ask_formed more caller) 22 (with_table (flags.decoded_of more) aliases.now (λ es. read_label_text es (caller_of caller) text.now)) }
{
    let more = flag::decode(more)?;
    text::read::read_label(aliases, more, Caller::try_from(caller)?, text)
}

#[unsafe(no_mangle)]
pub extern "C" fn lurm_read_range_text(
    aliases: &[u8],
    more: u64,
    caller: CCaller,
    text: &[u8],
) -> CRangeAnswer
    ensures { result ≡ range_answer (require (ask_formed more caller) 22 (with_table (flags.decoded_of more) aliases.now (λ es. read_range_text es (caller_of caller) text.now))) }
{
    read_range(aliases, more, caller, text).into()
}

fn read_range(aliases: &[u8], more: u64, caller: CCaller, text: &[u8]) -> Result<Range, Errno>
    ensures { answer_of result ≡ require (ask_formed more caller) 22 (with_table (flags.decoded_of more) aliases.now (λ es. read_range_text es (caller_of caller) text.now)) }
{
    let more = flag::decode(more)?;
    text::read::read_range(aliases, more, Caller::try_from(caller)?, text)
}
