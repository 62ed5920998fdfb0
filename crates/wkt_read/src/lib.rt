// The two passes over a text of request E3: `judge` says whether it is accepted, or the place of the refusal, and writes nothing; `fill` puts the numbers of an
// accepted text into cells. The automaton is in its own file.
#![tactic(auto)]

ghost use Rattle.std.specs.Prelude.{◌≡◌, true, map, ◌≤◌, ◌<◌, length};
ghost use Rattle.paper.specs.Results.{over};
ghost use Rattle.wkt_read.specs.Machine.{signed_value, ended, run, start};
ghost use Rattle.wkt_read.specs.Sound.{Bound};
ghost use Rattle.wkt_read.specs.Tally.{read_on, ends_number, counted, clipped};
ghost use Rattle.wkt_read.specs.Passes.{IsJudged};

use automaton::State;

mod automaton;

// The greatest value within the limits.
const LIMIT: usize = 536870912;

// What a pass over the bytes carries: the state, and the sign and value of the number that is being read. A value beyond the limits is kept at
// one above them, however many digits follow.
// Kept: a sign beside a size is no plainer as an Option or one signed value, since the sign of -0 is read before there is a digit.
#[derive(Clone, Copy, Debug, Default, PartialEq, Eq)]
pub struct Reader {
    pub state: State,
    pub negative: bool,
    pub value: usize,
}

impl Reader {
    // After one byte more. Most bytes are digits of a number, so these are told apart before all others. Both passes have this in their loop: called there, it
    // takes over twice the time.
    #[inline(always)]
    fn after(self, b: u8) -> Reader
        requires { Bound self.state × (self.value ≤ 536870913) }
        ensures { result ≡ read_on self b }
    {
        if b.is_ascii_digit() {
            if let Some(c) = self.state.digit_place() {
                let longer = 10 * self.value + (b - b'0') as usize;
                return Reader {
                    state: State::Number(c),
                    value: longer.min(LIMIT + 1),
                    ..self
                };
            }
        }
        let state = self.state.after(b);
        Reader {
            state,
            negative: state.is_signed() && b == b'-',
            value: 0,
        }
    }

    // Whether a number has ended where the state has become another.
    fn ends_number(self, state: State) -> bool
        ensures { result ≡ ends_number self state }
    {
        self.state.in_number() && !state.in_number()
    }

    // The number that has been read.
    fn number(self) -> i32
        requires { self.value ≤ 536870913 }
        ensures { result ≡ signed_value self.negative self.value }
    {
        let z = self.value as i32;
        if self.negative { -z } else { z }
    }
}

/// How many numbers a text holds so far, and how many stand before the first beyond the limits.
#[derive(Clone, Copy, Debug, Default, PartialEq, Eq)]
pub struct Tally {
    pub numbers: usize,
    pub fitting: usize,
}

impl Tally {
    // After one byte more, which has taken the reader to a state.
    fn after(self, reader: Reader, state: State) -> Tally
        requires { (self.fitting ≤ self.numbers) × (self.numbers < 18446744073709551615) }
        ensures { result ≡ counted self reader state }
    {
        if !reader.ends_number(state) {
            return self;
        }
        let fits = self.fitting == self.numbers && reader.value <= LIMIT;
        Tally {
            numbers: self.numbers + 1,
            fitting: if fits { self.fitting + 1 } else { self.fitting },
        }
    }
}

/// The first pass: the tally of a text that is accepted, or the place where any other is refused.
pub fn judge(text: &[u8]) -> Result<Tally, usize>
    ensures { IsJudged text.now result }
{
    let mut reader = Reader::default();
    let mut tally = Tally::default();
    for (place, &b) in text.iter().enumerate() {
        let next = reader.after(b);
        if next.state.failed() {
            return Err(place);
        }
        tally = tally.after(reader, next.state);
        reader = next;
    }
    if reader.state.ended() {
        Ok(tally)
    } else {
        Err(text.len())
    }
}

/// The second pass, over a text that is accepted: each number into its cell.
pub fn fill(text: &[u8], cells: &mut [i32])
    requires { (ended (run start text.now).state ≡ true) × (length (run start text.now).numbers ≤ length cells.old) }
    ensures { cells.new ≡ over (map clipped (run start text.now).numbers) cells.old }
{
    let mut reader = Reader::default();
    // Kept: the numbers are counted, since a cell is filled only at the bytes that end one, and no chain over the bytes is plainer.
    let mut count = 0;
    for &b in text {
        let next = reader.after(b);
        if reader.ends_number(next.state) {
            cells[count] = reader.number();
            count += 1;
        }
        reader = next;
    }
}
