// The state as text, a line at a time: the pool, the admitted tenants, the filled slots. Every line is shown to fit in the one buffer that they
// share, so none is cut.
ghost use Rattle.std.specs.Prelude.{◌+◌, ◌<◌, ◌≤◌, length};
ghost use Rattle.octets.specs.Internal.Put.{Put, PutWithin};
ghost use Rattle.label.specs.Words.{members_of};
ghost use Rattle.segment_table.specs.Segments.{tenant_total};
ghost use Rattle.segments_cmd.specs.Show.{category_numbers_text, label_numbers_text, list_text, pool_text, segment_text, slot_text, tenant_text};
ghost use Rattle.segments_cmd.specs.Internal.Sizes.{categories_bytes, label_text_size, line_bytes, segment_bytes};

use crate::answer::{print_bytes, put_field};
use label::words::WORDS;
use label::{Label, words};
use segment_table::{Segment, SegmentTable, TENANTS, TenantId, state};

// The longest line is a slot's: five words and four numbers, then a blank and a number for each category.
const LINE_BYTES: usize = 128 + 21 * 64 * WORDS;

// Appends a blank and a number for each category.
fn put_members(out: &mut [u8], at: usize, categories: [u64; WORDS]) -> usize
    requires { at + categories_bytes ≤ length out.old }
    ensures { PutWithin (at + categories_bytes) out.old at (list_text (members_of categories)) result out.new }
{
    let mut end = at;
    let mut from = 0;
    while let Some(c) = words::next(categories, from) {
        end = put_field(out, end, b" ", c);
        from = c + 1;
    }
    end
}

// The same, with `-` where there are none.
fn put_categories(out: &mut [u8], at: usize, categories: [u64; WORDS]) -> usize
    requires { at + categories_bytes ≤ length out.old }
    ensures { PutWithin (at + categories_bytes) out.old at (category_numbers_text (members_of categories)) result out.new }
{
    let end = put_members(out, at, categories);
    if end == at {
        return octets::append(out, at, b" -");
    }
    end
}

// The numbers of a segment.
fn put_segment(out: &mut [u8], slot: u64, x: Segment) -> usize
    requires { line_bytes ≤ length out.old }
    ensures { PutWithin segment_bytes out.old 0 (segment_text slot x) result out.new }
{
    let number = put_field(out, 0, b"place ", slot);
    let pages = put_field(out, number, b" pages ", x.pages);
    put_field(out, pages, b" edition ", x.version)
}

fn put_label(out: &mut [u8], at: usize, label: Label) -> usize
    requires { at + label_text_size ≤ length out.old }
    ensures { PutWithin (at + label_text_size) out.old at (label_numbers_text label) result out.new }
{
    let categories = label.categories;
    let hierarchy = put_field(out, at, b" hierarchy ", label.hierarchy);
    let word = octets::append(out, hierarchy, b" categories");
    put_categories(out, word, categories)
}

fn put_slot(out: &mut [u8], slot: u64, x: Segment) -> usize
    requires { line_bytes ≤ length out.old }
    ensures { Put out.old 0 (slot_text slot x) result out.new }
{
    let at = put_segment(out, slot, x);
    let end = put_label(out, at, x.label);
    octets::append(out, end, b"\n")
}

fn put_tenant(out: &mut [u8], tenant: u64, ceiling: u64, pages: u64) -> usize
    requires { line_bytes ≤ length out.old }
    ensures { Put out.old 0 (tenant_text tenant ceiling pages) result out.new }
{
    let number = put_field(out, 0, b"tenant ", tenant);
    let limit = put_field(out, number, b" ceiling ", ceiling);
    let used = put_field(out, limit, b" pages ", pages);
    octets::append(out, used, b"\n")
}

fn put_pool(out: &mut [u8], pool: u64) -> usize
    requires { line_bytes ≤ length out.old }
    ensures { Put out.old 0 (pool_text pool) result out.new }
{
    let at = put_field(out, 0, b"pool ", pool);
    octets::append(out, at, b"\n")
}

// Prints a slot that is filled.
fn print_slot(rt: &(impl Print + Eprint), out: &mut [u8], slot: u64, x: Segment)
    requires { line_bytes ≤ length out.old }
{
    if x.pages > 0 {
        let n = put_slot(out, slot, x);
        print_bytes(rt, octets::front(out, n));
    }
}

// Prints a tenant that is admitted.
fn print_tenant(rt: &(impl Print + Eprint), out: &mut [u8], s: &SegmentTable, tenant: usize)
    requires line_bytes_in_bounds { line_bytes ≤ length out.old }
    requires tenant_lt_tenant_total { tenant < tenant_total }
{
    if let Ok(pages) = state::pages_in_use(s, TenantId(tenant as u64)) {
        let n = put_tenant(out, tenant as u64, s.tenants[tenant].ceiling, pages);
        print_bytes(rt, octets::front(out, n));
    }
}

fn print_tenants(rt: &(impl Print + Eprint), out: &mut [u8], s: &SegmentTable)
    requires { line_bytes ≤ length out.old }
{
    for tenant in 0..TENANTS {
        print_tenant(rt, out, s, tenant);
    }
}

fn print_slots(rt: &(impl Print + Eprint), out: &mut [u8], s: &SegmentTable)
    requires { line_bytes ≤ length out.old }
{
    for (slot, x) in s.segments.iter().enumerate() {
        print_slot(rt, out, slot as u64, *x);
    }
}

// Prints a state that is sound.
pub(crate) fn print(rt: &(impl Print + Eprint), s: &SegmentTable) {
    let mut out = [0u8; LINE_BYTES];
    let n = put_pool(&mut out, s.pool);
    print_bytes(rt, octets::front(&out, n));
    print_tenants(rt, &mut out, s);
    print_slots(rt, &mut out, s);
    print_bytes(rt, b"end\n");
}
