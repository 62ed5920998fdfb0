// The automaton that reads a text byte by byte: its states, and the state after one byte more.
ghost use Rattle.std.specs.Prelude.{◌≡◌, ◌<◌, length, if◌then◌else◌};
ghost use Rattle.wkt_read.specs.Machine.{is_letter, step_state, digit_place, in_number, is_signed, ended, failed};
ghost use Rattle.wkt_read.specs.Sound.{Bound};

use axes::Word;

// What a text has come to: the token that is due, or how much of it has been read.
#[derive(Clone, Copy, Debug, Default, PartialEq, Eq)]
pub enum State {
    // MULTILINESTRING is due; as many of its letters have been read; it has just ended
    #[default]
    Start,
    Name(usize),
    Named,
    // ( or EMPTY is due; as many letters of EMPTY have been read
    Body,
    Empty(usize),
    // the ( of a line is due
    Line,
    // a coordinate of a line is due; its sign has been read; digits of it have been read; what follows it is due
    Due(Word),
    Signed(Word),
    Number(Word),
    After(Word),
    // after a line , or ) is due
    More,
    // nothing but spaces may follow
    End,
    // no accepted text can follow
    Failed,
}

// Letter `k` of a keyword, in either case, goes on to the next state.
fn on_letter(keyword: &[u8], k: usize, b: u8, next: State) -> State
    requires { k < length keyword.now }
    ensures { result ≡ (if is_letter keyword.now k b then next else State.Failed) }
{
    if b.to_ascii_uppercase() == keyword[k] {
        next
    } else {
        State::Failed
    }
}

// A space parts x from y, a comma the points, and the line is closed; spaces may stand before each.
fn on_after(c: Word, b: u8) -> State
    ensures { result ≡ step_state (State.After c) b }
{
    match (c, b) {
        (Word::X1, b' ') => State::Due(Word::Y1),
        (Word::Y1, b',') => State::Due(Word::X2),
        (Word::X2, b' ') => State::Due(Word::Y2),
        (Word::Y2, b')') => State::More,
        (_, b' ') => State::After(c),
        _ => State::Failed,
    }
}

impl State {
    // The state after one byte more.
    pub fn after(self, b: u8) -> State
        requires { Bound self }
        ensures { result ≡ step_state self b }
    {
        match self {
            State::Start => match b {
                b'M' | b'm' => State::Name(1),
                b' ' => State::Start,
                _ => State::Failed,
            },
            State::Name(14) => on_letter(b"MULTILINESTRING", 14, b, State::Named),
            State::Name(k) => on_letter(b"MULTILINESTRING", k, b, State::Name(k + 1)),
            State::Named => match b {
                b'(' => State::Line,
                b' ' => State::Body,
                _ => State::Failed,
            },
            State::Body => match b {
                b'E' | b'e' => State::Empty(1),
                b'(' => State::Line,
                b' ' => State::Body,
                _ => State::Failed,
            },
            State::Empty(4) => on_letter(b"EMPTY", 4, b, State::End),
            State::Empty(k) => on_letter(b"EMPTY", k, b, State::Empty(k + 1)),
            State::Line => match b {
                b'(' => State::Due(Word::X1),
                b' ' => State::Line,
                _ => State::Failed,
            },
            State::Due(c) => match b {
                b'0'..=b'9' => State::Number(c),
                b'+' | b'-' => State::Signed(c),
                b' ' => State::Due(c),
                _ => State::Failed,
            },
            State::Signed(c) => match b {
                b'0'..=b'9' => State::Number(c),
                _ => State::Failed,
            },
            State::Number(c) => match b {
                b'0'..=b'9' => State::Number(c),
                _ => on_after(c, b),
            },
            State::After(c) => on_after(c, b),
            State::More => match b {
                b',' => State::Line,
                b')' => State::End,
                b' ' => State::More,
                _ => State::Failed,
            },
            State::End => match b {
                b' ' => State::End,
                _ => State::Failed,
            },
            State::Failed => State::Failed,
        }
    }

    pub fn is_signed(self) -> bool
        ensures { result ≡ is_signed self }
    {
        matches!(self, State::Signed(_))
    }

    pub fn in_number(self) -> bool
        ensures { result ≡ in_number self }
    {
        matches!(self, State::Number(_))
    }

    pub fn ended(self) -> bool
        ensures { result ≡ ended self }
    {
        matches!(self, State::End)
    }

    pub fn failed(self) -> bool
        ensures { result ≡ failed self }
    {
        matches!(self, State::Failed)
    }

    // The coordinate that a digit would belong to, where one may stand.
    pub fn digit_place(self) -> Option<Word>
        ensures { result ≡ digit_place self }
    {
        match self {
            State::Due(c) | State::Signed(c) | State::Number(c) => Some(c),
            _ => None,
        }
    }
}
