// Hex lines.
ghost use Rattle.std.specs.Prelude.{◌≡◌};
ghost use Rattle.common.specs.Answer.{require};
ghost use Rattle.common.specs.Buffer.{WrittenTo};
ghost use Rattle.hexline.specs.Line.{entry_line_of, line_kind_of, label_line_of, range_line_of, read_entry_line, read_label_line, read_range_line, read_tuple_line, tuple_line_of};
ghost use Rattle.abi.specs.Answer.{CWrittenTo, entry_answer, label_answer, number_answer, range_answer, tuple_answer};
ghost use Rattle.abi.specs.Entry as entries;

use abi::answer;
use abi::answer::{CAnswer, CEntryAnswer, CLabelAnswer, CRangeAnswer, CTupleAnswer};
use abi::entry::CEntry;
use alias_entry::Entry;
use common::errno::Errno;
use label::Label;
use range::Range;
use range::tuple::Tuple;

#[unsafe(no_mangle)]
pub extern "C" fn lurm_line_kind(line: &[u8]) -> CAnswer
    ensures { result ≡ number_answer (line_kind_of line.now) }
{
    answer::of(hexline::kind_of(line))
}

#[unsafe(no_mangle)]
pub extern "C" fn lurm_write_label(l: Label, out: &mut [u8]) -> CAnswer
    ensures { CWrittenTo result (label_line_of l) out.old out.new }
{
    answer::of(hexline::write_label(l, out))
}

#[unsafe(no_mangle)]
pub extern "C" fn lurm_write_range(x: Range, out: &mut [u8]) -> CAnswer
    ensures { CWrittenTo result (range_line_of x) out.old out.new }
{
    answer::of(hexline::write_range(x, out))
}

#[unsafe(no_mangle)]
pub extern "C" fn lurm_write_tuple(t: Tuple, out: &mut [u8]) -> CAnswer
    ensures { CWrittenTo result (tuple_line_of t) out.old out.new }
{
    answer::of(hexline::write_tuple(t, out))
}

#[unsafe(no_mangle)]
pub extern "C" fn lurm_write_entry(e: CEntry, out: &mut [u8]) -> CAnswer
    ensures { CWrittenTo result (require (entries.formed_of e) 22 (entry_line_of (entries.decoded_of e))) out.old out.new }
{
    answer::of(write_entry(e, out))
}

#[tactic(auto, unfolding(common::specs::Buffer::length_of, common::specs::Buffer::buffer_of))]
fn write_entry(e: CEntry, out: &mut [u8]) -> Result<usize, Errno>
    ensures { WrittenTo result (require (entries.formed_of e) 22 (entry_line_of (entries.decoded_of e))) out.old out.new }
{
    hexline::write_entry(Entry::try_from(e)?, out)
}

#[unsafe(no_mangle)]
pub extern "C" fn lurm_read_label(line: &[u8]) -> CLabelAnswer
    ensures { result ≡ label_answer (read_label_line line.now) }
{
    hexline::read_label(line).into()
}

#[unsafe(no_mangle)]
pub extern "C" fn lurm_read_range(line: &[u8]) -> CRangeAnswer
    ensures { result ≡ range_answer (read_range_line line.now) }
{
    hexline::read_range(line).into()
}

#[unsafe(no_mangle)]
pub extern "C" fn lurm_read_tuple(line: &[u8]) -> CTupleAnswer
    ensures { result ≡ tuple_answer (read_tuple_line line.now) }
{
    hexline::read_tuple(line).into()
}

#[unsafe(no_mangle)]
pub extern "C" fn lurm_read_entry(line: &[u8]) -> CEntryAnswer
    ensures { result ≡ entry_answer (read_entry_line line.now) }
{
    hexline::read_entry(line).into()
}
