// Turns a WKT text into the T and S lines of the program `survey`, and such lines into WKT. Standard input that begins with T is lines; any other is a text, since
// no accepted text begins so. A text may end with one line feed. A fault prints R, the answer number and its place, and ends: of a text the byte or the position, from 0;
// of lines the line, from 1. An input of 198,000 bytes or more prints R, 7, 0;
// any table in the one spelling is shorter, and so is any in lines.
#![tactic(auto)]

ghost use Rattle.std.specs.Prelude.{◌≡◌, ◌≤◌, length};
ghost use Rattle.texts.specs.Written.{Room};

use fields::Line;
use lines::Fault;
use paper::Descriptor;
use std::io::{Read, Stdin, Stdout, Write};
use texts::Output;

// Kept: a writing error is let go at each write and not passed up by `?`: the program goes on after one, and what it does on an input may not change.
fn print(mut stdout: Stdout, bytes: &[u8]) {
    let _ = stdout.write_all(bytes);
}

fn print_text(stdout: Stdout, output: Output)
    requires { Room 0 output }
{
    let Output { bytes, len } = output;
    print(stdout, &bytes[..len]);
}

fn print_fault(stdout: Stdout, number: usize, place: usize) {
    let mut line = [0u8; 64];
    let mut output = Output {
        bytes: &mut line,
        len: 0,
    };
    output.push_fault(number, place);
    print_text(stdout, output);
}

// ---- a text into lines

fn print_segment(stdout: Stdout, coordinates: &[i32])
    requires { length coordinates.now ≡ 4 }
{
    let mut line = [0u8; 128];
    let mut output = Output {
        bytes: &mut line,
        len: 0,
    };
    output.push(b'S');
    output.push_tabbed(coordinates, 4);
    print_text(stdout, output);
}

// A table whose numbers count from 1; its cells, four to a segment.
fn print_table(stdout: Stdout, cells: &[i32]) {
    print(stdout, b"T\t1\t1\n");
    for coordinates in cells.chunks_exact(4) {
        print_segment(stdout, coordinates);
    }
}

fn from_text(stdout: Stdout, text: &[u8]) {
    let mut cells = [0i32; 16384];
    let reply = wkt_table::read(text, &mut cells);
    // Kept: the reply is that of the C interface, with a number for each answer, 0 where it is done.
    let number = texts::size(reply.number);
    if number != 0 {
        print_fault(stdout, number, texts::size(reply.position));
        return;
    }
    let n = texts::size(reply.count).min(4096);
    print_table(stdout, &cells[..4 * n]);
}

// ---- lines into a text

// The segments of the lines so far, four cells each.
#[derive(Drop)]
struct Segments {
    cells: [i32; 16384],
    count: usize,
    ghost few: { count ≤ 4096 },
}

impl Segments {
    fn add(&mut self, line: Line) -> Result<(), Fault> {
        let Line::Segment(segment) = line else {
            return Err(Fault::Form);
        };
        if 4096 <= self.count {
            return Err(Fault::Size);
        }
        if table::far_off(segment) {
            return Err(Fault::Far);
        }
        lines::put_segment(&mut self.cells, 4 * self.count, segment);
        self.count += 1;
        Ok(())
    }

    // Line `i`, from 0.
    fn take(&mut self, i: usize, text: &[u8]) -> Result<(), Fault> {
        let line = fields::line_of(text);
        if i == 0 {
            lines::opened(line)?;
            return Ok(());
        }
        self.add(line)
    }

    // Their table's text and a line feed.
    fn print(&self, stdout: Stdout) {
        let descriptor = Descriptor {
            kind: 1,
            base: 0,
            lower: 0,
            extent: self.count as i64,
            segment_stride: 4,
            coordinate_stride: 1,
        };
        let mut text = [0u8; 196630];
        let reply = wkt_table::write(&self.cells, descriptor, &mut text);
        let end = texts::size(reply.count).min(196629);
        text[end] = b'\n';
        print(stdout, &text[..end + 1]);
    }
}

// All lines, one after another; the table as a text after the last.
fn from_lines(stdout: Stdout, text: &[u8]) {
    let mut segments = Segments {
        cells: [0; 16384],
        count: 0,
    };
    for (i, line) in text.split_inclusive(|b| *b == b'\n').enumerate() {
        if let Err(fault) = segments.take(i, without_feed(line)) {
            print_fault(stdout, fault.number(), i + 1);
            return;
        }
    }
    segments.print(stdout);
}

// ---- the input

// What comes before a line feed at the end.
fn without_feed(text: &[u8]) -> &[u8] {
    text.strip_suffix(b"\n").unwrap_or(text)
}

fn turn(stdout: Stdout, text: &[u8]) {
    if text.first() == Some(&b'T') {
        from_lines(stdout, text);
    } else {
        from_text(stdout, without_feed(text));
    }
}

// Reads until the buffer is full or the input ends; how many bytes were read. A reading error ends it as the input's end does.
fn read_full(mut stdin: Stdin, buffer: &mut [u8]) -> usize
    ensures { (result ≤ length buffer.new) × (length buffer.new ≡ length buffer.old) }
{
    // Kept: a read gives as many bytes as there are, and std's `read_to_end` needs a heap, so the place is counted.
    let mut at = 0;
    while at < buffer.len() {
        let n = stdin.read(&mut buffer[at..]).unwrap_or(0);
        if n == 0 {
            break;
        }
        at += n;
    }
    at
}

fn main(rt: HostRuntime) {
    let stdout = rt.stdout();
    let mut input = [0u8; 198000];
    let n = read_full(rt.stdin(), &mut input);
    if n == 198000 {
        print_fault(stdout, 7, 0);
    } else {
        turn(stdout, &input[..n]);
    }
}
