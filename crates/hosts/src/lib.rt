// What C hosts call: three answers on plain numbers, a refusal as its negative, and the scan, the builder and the queries on lent buffers.
// Each is a few lines over the crates below; include/kalinosz.h tells C of them.
#![tactic(auto)]

ghost use Rattle.std.specs.Prelude.{◌≡◌};
ghost use Rattle.paper.specs.Answers.{bad_place};
ghost use Rattle.paper.specs.Hosts.{host_cell, host_words, HostMeet};
ghost use Rattle.paper.specs.Results.{Scanned, built, queried, queried_many};
ghost use Rattle.paper.specs.Wkt.{Read, written};
ghost use Rattle.hosts.specs.Answered.{to_c, cell_answer};

use paper::{Descriptor, Reply, Segment, Window};
use refusals::Refusal;

// An answer on plain numbers: a refusal is the negative of its number.
fn to_c(answer: Result<i64, Refusal>) -> i64
    ensures { result ≡ to_c answer }
{
    answer.unwrap_or_else(|refusal| -refusal.number())
}

// ---- the cell of a position and coordinate: 3, 4, 12, 11

// Answer 11: no such position or coordinate.
fn bad_place(n: i64, position: i64, coordinate: i64) -> bool
    ensures { result ≡ (bad_place n position coordinate).given }
{
    !(0..n).contains(&position) | !(0..=3).contains(&coordinate)
}

fn cell_answer(
    length: i64,
    descriptor: Descriptor,
    position: i64,
    coordinate: i64,
) -> Result<i64, Refusal>
    ensures { to_c result ≡ cell_answer length descriptor position coordinate }
{
    refusals::of_cells(length, descriptor)?;
    if bad_place(descriptor.extent, position, coordinate) {
        return Err(Refusal::Nowhere);
    }
    Ok(table::cell(descriptor, whole::index(position), whole::index(coordinate)))
}

#[unsafe(no_mangle)]
pub extern "C" fn kalinosz_cell(
    length: i64,
    base: i64,
    n: i64,
    segment_stride: i64,
    coordinate_stride: i64,
    position: i64,
    coordinate: i64,
) -> i64
    ensures { result ≡ host_cell length base n segment_stride coordinate_stride position coordinate }
{
    let descriptor = Descriptor {
        kind: 1,
        base,
        lower: 0,
        extent: n,
        segment_stride,
        coordinate_stride,
    };
    to_c(cell_answer(length, descriptor, position, coordinate))
}

// ---- W(n): 3

fn words_answer(n: i64) -> Result<i64, Refusal>
    ensures { to_c result ≡ host_words n }
{
    if table::bad_extent(n) {
        return Err(Refusal::Extent);
    }
    Ok(whole::count(table::words(whole::index(n))))
}

#[unsafe(no_mangle)]
pub extern "C" fn kalinosz_words(n: i64) -> i64
    ensures { result ≡ host_words n }
{
    to_c(words_answer(n))
}

// ---- whether one segment meets one window, 1 or 0: 8, 5

fn meet_answer(segment: Segment, window: Window) -> Result<i64, Refusal>
    ensures { HostMeet segment window (to_c result) }
{
    let frame = refusals::of_window(window)?;
    if table::far_off(segment) {
        return Err(Refusal::Far(0));
    }
    Ok(i64::from(meeting::meets(segment, frame)))
}

fn window_of(a: i64, b: i64, c: i64, d: i64) -> Window
    ensures { result ≡ record { a = a; b = b; c = c; d = d } }
{
    Window { a, b, c, d }
}

#[unsafe(no_mangle)]
pub extern "C" fn kalinosz_meets(
    x1: i64,
    y1: i64,
    x2: i64,
    y2: i64,
    a: i64,
    b: i64,
    c: i64,
    d: i64,
) -> i64
    ensures { HostMeet (record { x1 = x1; y1 = y1; x2 = x2; y2 = y2 }) (record { a = a; b = b; c = c; d = d }) result }
{
    let segment = Segment { x1, y1, x2, y2 };
    to_c(meet_answer(segment, window_of(a, b, c, d)))
}

// ---- calls on lent buffers: each array is followed by its count of elements

fn described(
    kind: i64,
    base: i64,
    lower: i64,
    n: i64,
    segment_stride: i64,
    coordinate_stride: i64,
) -> Descriptor
    ensures { result ≡ record { kind = kind; base = base; lower = lower; extent = n; segment_stride = segment_stride; coordinate_stride = coordinate_stride } }
{
    Descriptor {
        kind,
        base,
        lower,
        extent: n,
        segment_stride,
        coordinate_stride,
    }
}

#[unsafe(no_mangle)]
pub extern "C" fn kalinosz_scan(
    table: &[i32],
    kind: i64,
    base: i64,
    lower: i64,
    n: i64,
    segment_stride: i64,
    coordinate_stride: i64,
    a: i64,
    b: i64,
    c: i64,
    d: i64,
    numbers: &mut [i32],
) -> Reply
    ensures { Scanned table.now
        (record { kind = kind; base = base; lower = lower; extent = n; segment_stride = segment_stride; coordinate_stride = coordinate_stride })
        (record { a = a; b = b; c = c; d = d }) numbers.old (result, numbers.new) }
{
    let descriptor = described(kind, base, lower, n, segment_stride, coordinate_stride);
    let window = window_of(a, b, c, d);
    marks::scan(table, descriptor, window, numbers)
}

#[unsafe(no_mangle)]
pub extern "C" fn kalinosz_build(
    table: &[i32],
    kind: i64,
    base: i64,
    lower: i64,
    n: i64,
    segment_stride: i64,
    coordinate_stride: i64,
    index: &mut [i32],
) -> Reply
    ensures { (result, index.new) ≡ built table.now
        (record { kind = kind; base = base; lower = lower; extent = n; segment_stride = segment_stride; coordinate_stride = coordinate_stride })
        index.old }
{
    marks::build(
        table,
        described(kind, base, lower, n, segment_stride, coordinate_stride),
        index,
    )
}

#[unsafe(no_mangle)]
pub extern "C" fn kalinosz_query(
    index: &[i32],
    a: i64,
    b: i64,
    c: i64,
    d: i64,
    numbers: &mut [i32],
) -> Reply
    ensures { (result, numbers.new) ≡ queried index.now (record { a = a; b = b; c = c; d = d }) numbers.old }
{
    marks::query(index, window_of(a, b, c, d), numbers)
}

#[unsafe(no_mangle)]
pub extern "C" fn kalinosz_query_many(
    index: &[i32],
    windows: &[i64],
    counts: &mut [i32],
    numbers: &mut [i32],
) -> Reply
    ensures { (result, counts.new, numbers.new) ≡ queried_many index.now windows.now counts.old numbers.old }
{
    windows::query(index, windows, counts, numbers)
}

// ---- tables as text (request E3)

#[unsafe(no_mangle)]
pub extern "C" fn kalinosz_read_wkt(text: &[u8], cells: &mut [i32]) -> Reply
    ensures { Read text.now cells.old (result, cells.new) }
{
    wkt_table::read(text, cells)
}

#[unsafe(no_mangle)]
pub extern "C" fn kalinosz_write_wkt(
    table: &[i32],
    kind: i64,
    base: i64,
    lower: i64,
    n: i64,
    segment_stride: i64,
    coordinate_stride: i64,
    text: &mut [u8],
) -> Reply
    ensures { (result, text.new) ≡ written table.now
        (record { kind = kind; base = base; lower = lower; extent = n; segment_stride = segment_stride; coordinate_stride = coordinate_stride })
        text.old }
{
    let descriptor = described(kind, base, lower, n, segment_stride, coordinate_stride);
    wkt_table::write(table, descriptor, text)
}
