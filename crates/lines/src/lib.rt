// The program of document 01 on lent memory: the state between lines, each line judged when read, the input cut into lines.
// `Reader::start` is the reader before the input; `feed` takes a chunk of it, `finish` its end. What they write is `paper`'s `program` of the whole input.
#![tactic(auto)]

ghost use Rattle.std.specs.Prelude.{◌≡◌, false, ◌+◌, ◌≤◌, ◌<◌, length, IfSome};
ghost use Rattle.lists.specs.Parts.{put};
ghost use Rattle.paper.specs.Answers.{far_off};
ghost use Rattle.fields.specs.Forms.{shown_line};
ghost use Rattle.texts.specs.Written.{Room, Wrote};
ghost use Rattle.lines.specs.States.{number_of, cells_of, descriptor_of, Opened, Fits, Added, answer_over, Kept, Asked, Stepped, SameLoans};
ghost use Rattle.lines.specs.declared.State.TheVariants.{Filling};
ghost use Rattle.lines.specs.Cutting.{fault_text};
ghost use Rattle.lines.specs.Reading.{started, on_chunk, over, refused_at, Judged, Sound, Goes, Turned, Finished};

mod memory;

use fields::Line;
pub use memory::Desk;
use paper::{Descriptor, Segment, Window};
use texts::Output;

// ---- what a line does

/// Why a line is refused.
#[derive(Clone, Copy, Debug, PartialEq, Eq)]
pub enum Fault {
    /// a line of another form or place
    Form,
    Kind,
    Lower,
    /// the 257th segment
    Size,
    Far,
    Slanted,
    Window,
}

impl Fault {
    /// The answer number that the program prints.
    pub fn number(self) -> usize
        ensures { result ≡ number_of self }
    {
        match self {
            Fault::Form => 0,
            Fault::Kind => 1,
            Fault::Lower => 2,
            Fault::Size => 3,
            Fault::Far => 5,
            Fault::Slanted => 6,
            Fault::Window => 8,
        }
    }
}

/// What a T line says, and how many S lines have come; their segments stand in a lent table, four cells each.
// Kept: the count stands beside fixed cells and not in a Vec: the program has no heap.
#[derive(Clone, Copy)]
pub struct Table {
    pub kind: i64,
    pub lower: i64,
    pub size: usize,
}

/// The first line.
pub fn opened(line: Line) -> Result<Table, Fault>
    ensures { Opened (shown_line line) result }
{
    let Line::Table(kind, lower) = line else {
        return Err(Fault::Form);
    };
    let opened = Table {
        kind,
        lower,
        size: 0,
    };
    let descriptor = opened.descriptor();
    if table::bad_kind(descriptor) {
        return Err(Fault::Kind);
    }
    if table::bad_lower(descriptor) {
        return Err(Fault::Lower);
    }
    Ok(opened)
}

/// A segment into four cells of a table.
pub fn put_segment(cells: &mut [i32], at: usize, s: Segment)
    requires { (at + 4 ≤ length cells.old) × (far_off s ≡ false) }
    ensures { cells.new ≡ put at (cells_of s) cells.old }
{
    cells[at] = whole::narrow(s.x1);
    cells[at + 1] = whole::narrow(s.y1);
    cells[at + 2] = whole::narrow(s.x2);
    cells[at + 3] = whole::narrow(s.y2);
}

impl Table {
    fn descriptor(self) -> Descriptor
        requires { self.size ≤ 256 }
        ensures { result ≡ descriptor_of self }
    {
        Descriptor {
            kind: self.kind,
            base: 0,
            lower: self.lower,
            extent: self.size as i64,
            segment_stride: 4,
            coordinate_stride: 1,
        }
    }

    // With a segment after those that it has.
    fn added(self, s: Segment, cells: &mut [i32]) -> Result<Table, Fault>
        requires { (length cells.old ≡ 1024) × Fits self cells.old }
        ensures { Added self s cells.old result cells.new }
    {
        let n = self.size;
        let full = 256 <= n;
        if full {
            return Err(Fault::Size);
        }
        if table::far_off(s) {
            return Err(Fault::Far);
        }
        if table::slanted(s) {
            return Err(Fault::Slanted);
        }
        put_segment(cells, 4 * n, s);
        Ok(Table {
            size: n + 1,
            ..self
        })
    }

    // The A line of a window over an index that is built.
    fn answer(self, w: Window, index: &[i32], numbers: &mut [i32], out: &mut Output)
        requires { (self.size ≤ 256) × (length index.now ≡ 7684) × (length numbers.old ≡ 256) × Room 5420 out.old }
        ensures { Wrote (answer_over self w index.now) out.old out.new }
    {
        let n = self.size;
        let words = table::words(n);
        let reply = marks::query(&index[..words], w, &mut numbers[..n]);
        out.push_answer(reply, &numbers[..n]);
    }

    // A line after the first W line.
    fn asked(
        self,
        line: Line,
        index: &[i32],
        numbers: &mut [i32],
        out: &mut Output,
    ) -> Result<(), Fault>
        requires { (self.size ≤ 256) × (length index.now ≡ 7684) × (length numbers.old ≡ 256) × Room 5420 out.old }
        ensures { Asked self (shown_line line) index.now out.old result out.new }
    {
        let Line::Window(w) = line else {
            return Err(Fault::Form);
        };
        if meeting::bad_window(w) {
            return Err(Fault::Window);
        }
        self.answer(w, index, numbers, out);
        Ok(())
    }

    // A line after the T line, before the first W line. That one has the index built: no S line can follow it.
    fn filled(self, line: Line, desk: &mut Desk, out: &mut Output) -> Result<State, Fault>
        requires { Room 5420 out.old × Fits self desk.old.cells.now }
        ensures stepped { Stepped (Filling self) (shown_line line) desk.old.cells.now out.old result desk.new.cells.now desk.new.index.now out.new }
        ensures lent { SameLoans desk.old desk.new }
    {
        if let Line::Segment(s) = line {
            let grown = self.added(s, desk.cells)?;
            return Ok(State::Filling(grown));
        }
        let Line::Window(w) = line else {
            return Err(Fault::Form);
        };
        if meeting::bad_window(w) {
            return Err(Fault::Window);
        }
        // by names of their own: of a slice that is read through `desk`, only the length is known afterwards
        let cells = &mut *desk.cells;
        let index = &mut *desk.index;
        marks::build(cells, self.descriptor(), index);
        self.answer(w, index, desk.numbers, out);
        Ok(State::Asking(self))
    }
}

/// The state between lines.
#[derive(Clone, Copy)]
pub enum State {
    /// nothing read
    Start,
    /// T and S lines read
    Filling(Table),
    /// a W line too, so that the index is built
    Asking(Table),
}

impl State {
    // One line, judged.
    fn step(self, line: Line, desk: &mut Desk, out: &mut Output) -> Result<State, Fault>
        requires { Room 5420 out.old × Kept self desk.old.cells.now desk.old.index.now }
        ensures stepped { Stepped self (shown_line line) desk.old.cells.now out.old result desk.new.cells.now desk.new.index.now out.new }
        ensures lent { SameLoans desk.old desk.new }
    {
        match self {
            State::Start => {
                let table = opened(line)?;
                Ok(State::Filling(table))
            }
            State::Filling(table) => table.filled(line, desk, out),
            State::Asking(table) => {
                // by a name of its own, as in `filled`
                let index = &mut *desk.index;
                table.asked(line, index, desk.numbers, out)?;
                Ok(State::Asking(table))
            }
        }
    }
}

// ---- the input in chunks

/// Where the reading stands: the state, or none after a fault, which ends it; the number of the line that is being read, how many bytes of it were carried over
/// from the chunks before, and the place in the chunk.
// Kept: the count of carried bytes stands here and not beside `Desk::carry`: it changes with the line and the place, in one struct literal, and is no plainer apart.
#[derive(Clone, Copy)]
pub struct Reader {
    pub state: Option<State>,
    pub line: usize,
    pub carried: usize,
    pub at: usize,
}

impl Reader {
    /// Before the input.
    pub fn start() -> Reader
        ensures { result ≡ started }
    {
        Reader {
            state: Some(State::Start),
            line: 1,
            carried: 0,
            at: 0,
        }
    }

    /// A reader that reads no more.
    pub fn stopped() -> Reader
        ensures { result ≡ over }
    {
        Reader {
            state: None,
            ..Reader::start()
        }
    }

    // A fault is printed, and ends the reading.
    fn refused(self, fault: Fault, next: usize, out: &mut Output) -> Reader
        requires { Room 44 out.old }
        ensures reader { result ≡ refused_at self next }
        ensures wrote { Wrote (fault_text (number_of fault) self.line) out.old out.new }
    {
        out.push_fault(fault.number(), self.line);
        Reader {
            state: None,
            carried: 0,
            at: next,
            ..self
        }
    }

    // A line that is whole: what it prints, and the reader after it, at a place of the chunk.
    fn judge(
        self,
        state: State,
        line: Line,
        next: usize,
        desk: &mut Desk,
        out: &mut Output,
    ) -> Reader
        requires { Room 5420 out.old × Kept state desk.old.cells.now desk.old.index.now × (self.line < 4611686018427387904) }
        ensures judged { Judged (shown_line line) state self next desk.old.cells.now out.old result desk.new.cells.now desk.new.index.now out.new }
        ensures lent { SameLoans desk.old desk.new }
    {
        match state.step(line, desk, out) {
            Ok(after) => Reader {
                state: Some(after),
                line: self.line + 1,
                carried: 0,
                at: next,
            },
            Err(fault) => self.refused(fault, next, out),
        }
    }

    // The rest of the line at the reader's place. One that lies whole in the chunk is judged where it stands; one that goes over the chunk's end is carried, and is
    // a fault at its 81st byte, so that a line of any length costs no more.
    fn cut(self, state: State, chunk: &[u8], desk: &mut Desk, out: &mut Output) -> Reader
        requires { Sound self desk.old × Goes self state (length chunk.now) out.old }
        ensures turned { Turned self chunk.now desk.old out.old result desk.new out.new }
        ensures lent { SameLoans desk.old desk.new }
        ensures further { self.at < result.at }
    {
        let at = self.at;
        let n = self.carried;
        let e = fields::end_of(chunk, at, b'\n');
        if n == 0 && e < chunk.len() {
            let line = fields::line_of(&chunk[at..e]);
            return self.judge(state, line, e + 1, desk, out);
        }
        let m = n + (e - at);
        let long = 80 < m;
        if long {
            return self.refused(Fault::Form, e + 1, out);
        }
        desk.carry[n..m].copy_from_slice(&chunk[at..e]);
        if e < chunk.len() {
            let line = fields::line_of(&desk.carry[..m]);
            return self.judge(state, line, e + 1, desk, out);
        }
        Reader {
            carried: m,
            at: e,
            ..self
        }
    }

    // The state to read the next line from, where there is one to read and room for what it prints. No input has as many lines as would make it stop.
    fn ready(self, len: usize, out: &Output) -> Option<State>
        ensures { IfSome result (λ s. Goes self s len out.now) }
    {
        let inside = self.at < len;
        let few = self.line < 4611686018427387904;
        let room = 5420 <= out.room();
        if inside && few && room {
            self.state
        } else {
            None
        }
    }

    /// The lines of a chunk from the reader's place on, until the chunk ends, the output is nearly full, or a fault ends it.
    pub fn feed(self, chunk: &[u8], desk: &mut Desk, out: &mut Output) -> Reader
        requires { Sound self desk.old × Room 0 out.old }
        ensures turned { Turned self chunk.now desk.old out.old result desk.new out.new }
        ensures lent { SameLoans desk.old desk.new }
    {
        let mut reader = self;
        while let Some(state) = reader.ready(chunk.len(), out) {
            reader = reader.cut(state, chunk, desk, out);
        }
        reader
    }

    /// The end of the input: the last line, where its line feed is missing.
    pub fn finish(self, desk: &mut Desk, out: &mut Output) -> Reader
        requires { Sound self desk.old × Room 5420 out.old × (self.line < 4611686018427387904) }
        ensures finished { Finished self desk.old out.old out.new }
        ensures lent { SameLoans desk.old desk.new }
    {
        let Some(state) = self.state else {
            return self;
        };
        let n = self.carried;
        if n == 0 {
            return self;
        }
        let line = fields::line_of(&desk.carry[..n]);
        self.judge(state, line, 0, desk, out)
    }

    /// The reader at the start of the next chunk.
    pub fn next_chunk(self) -> Reader
        ensures { result ≡ on_chunk self }
    {
        Reader { at: 0, ..self }
    }
}
