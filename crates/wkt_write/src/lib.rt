// The one spelling of a table as text (request E3), through its descriptor: how many bytes it takes, and the bytes, written into a lent buffer.
// A caller has shown that the buffer is long enough.
#![tactic(auto)]

ghost use Rattle.std.specs.Prelude.{◌≡◌, [], ◌∷◌, ◌+◌, ◌*◌, ◌≤◌, ◌<◌, length, drop};
ghost use Rattle.lists.specs.Parts.{put};
ghost use Rattle.paper.specs.Descriptor.{size_of, segments_of};
ghost use Rattle.paper.specs.Lines.{decimal};
ghost use Rattle.paper.specs.Wkt.{point_text, line_text, further_text, body_text, text_of};
ghost use Rattle.texts.specs.Written.{Room, Wrote};
ghost use Rattle.wkt_write.specs.Spelling.{lines_length};

use paper::Segment;
use table::Table;
use texts::Output;

// ---- how many bytes

fn number_width(z: i64) -> usize
    ensures { (result ≡ length (decimal z)) × (result ≤ 21) }
{
    let digits = texts::width(z.unsigned_abs() as usize);
    if z < 0 { digits + 1 } else { digits }
}

fn line_width(segment: Segment) -> usize
    ensures { (result ≡ length (line_text segment)) × (result ≤ 90) }
{
    let x1 = number_width(segment.x1);
    let y1 = number_width(segment.y1);
    let x2 = number_width(segment.x2);
    let y2 = number_width(segment.y2);
    6 + x1 + y1 + x2 + y2
}

// The first line stands between two marks, each other one after two and the last before one: so two bytes more for each line.
fn lines_width(table: Table) -> usize
    ensures { (result ≡ lines_length (segments_of table.entry.descriptor table.entry.cells.now)) × (result ≤ 376832) }
{
    let mut sum = 0;
    for i in 0..table.count() {
        sum += line_width(table.segment(i)) + 2;
    }
    sum
}

pub fn text_width(table: Table) -> usize
    ensures { (result ≡ length (text_of (segments_of table.entry.descriptor table.entry.cells.now))) × (result ≤ 376848) }
{
    if table.count() == 0 {
        return 21;
    }
    16 + lines_width(table)
}

// ---- the bytes

fn push_point(output: &mut Output, x: i64, y: i64)
    requires { Room (length (point_text x y)) output.old }
    ensures { Wrote (point_text x y) output.old output.new }
{
    output.push_number(x);
    output.push(b' ');
    output.push_number(y);
}

// Within both its callers: a call for each line takes a tenth more.
#[inline(always)]
fn push_line(output: &mut Output, segment: Segment)
    requires { Room (length (line_text segment)) output.old }
    ensures { Wrote (line_text segment) output.old output.new }
{
    output.push(b'(');
    push_point(output, segment.x1, segment.y1);
    output.push_all(b", ");
    push_point(output, segment.x2, segment.y2);
    output.push(b')'); // closes the line
}

// The lines after the first, and the last mark.
fn push_further(output: &mut Output, table: Table)
    requires { (1 ≤ size_of table.descriptor) × Room (length (further_text (drop 1 (segments_of table.descriptor table.cells.now)))) output.old }
    ensures { Wrote (further_text (drop 1 (segments_of table.entry.descriptor table.entry.cells.now))) output.old output.new }
{
    for i in 1..table.count() {
        output.push_all(b", ");
        push_line(output, table.segment(i));
    }
    output.push(b')');
}

fn push_body(output: &mut Output, table: Table)
    requires { Room (length (body_text (segments_of table.descriptor table.cells.now))) output.old }
    ensures { Wrote (body_text (segments_of table.entry.descriptor table.entry.cells.now)) output.old output.new }
{
    if table.count() == 0 {
        output.push_all(b"EMPTY");
        return;
    }
    output.push(b'(');
    push_line(output, table.segment(0));
    push_further(output, table);
}

fn push_text(output: &mut Output, table: Table)
    requires { Room (length (text_of (segments_of table.descriptor table.cells.now))) output.old }
    ensures { Wrote (text_of (segments_of table.entry.descriptor table.entry.cells.now)) output.old output.new }
{
    output.push_all(b"MULTILINESTRING ");
    push_body(output, table);
}

/// Returns how many bytes it has put, from the first on.
pub fn put_text(text: &mut [u8], table: Table) -> usize
    requires { length (text_of (segments_of table.descriptor table.cells.now)) ≤ length text.old }
    ensures ends { result ≡ length (text_of (segments_of table.entry.descriptor table.entry.cells.now)) }
    ensures wrote { text.new ≡ put 0 (text_of (segments_of table.entry.descriptor table.entry.cells.now)) text.old }
{
    let mut output = Output {
        bytes: text,
        len: 0,
    };
    push_text(&mut output, table);
    let Output { bytes: _, len } = output;
    len
}
