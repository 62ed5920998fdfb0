// The two kinds of straight segment, the two queues of a block, and the four words of a record, by name.
// One code for horizontals and verticals, for low and high queues, asks these which word it is to read.
#![tactic(auto)]

ghost use Rattle.std.specs.Prelude.{◌≡◌, ◌<◌};
ghost use Rattle.axes.specs.Axes.{place_of, near_of, far_of, level_of, end_word};

/// A word of a record, which holds a segment's low end and then its high end.
#[derive(Clone, Copy, Debug, PartialEq, Eq)]
pub enum Word {
    X1,
    Y1,
    X2,
    Y2,
}

impl Word {
    /// The word's place in its record, from 0.
    pub fn place(self) -> usize
        ensures value { result ≡ place_of self }
        ensures within { result < 4 }
    {
        match self {
            Word::X1 => 0,
            Word::Y1 => 1,
            Word::X2 => 2,
            Word::Y2 => 3,
        }
    }
}

/// Which of a block's two queues: the low one is by smallest near, the high one by greatest far.
#[derive(Clone, Copy, Debug, PartialEq, Eq)]
pub enum End {
    Low,
    High,
}

/// Along which axis the segments of a block lie.
#[derive(Clone, Copy, Debug, PartialEq, Eq)]
pub enum Axis {
    Horizontal,
    Vertical,
}

impl Axis {
    /// The word that says where a segment begins along its axis.
    pub fn near(self) -> Word
        ensures { result ≡ near_of self }
    {
        match self {
            Axis::Horizontal => Word::X1,
            Axis::Vertical => Word::Y1,
        }
    }

    /// The word that says where it ends.
    pub fn far(self) -> Word
        ensures { result ≡ far_of self }
    {
        match self {
            Axis::Horizontal => Word::X2,
            Axis::Vertical => Word::Y2,
        }
    }

    /// The word that says where it stands across its axis.
    pub fn level(self) -> Word
        ensures { result ≡ level_of self }
    {
        match self {
            Axis::Horizontal => Word::Y1,
            Axis::Vertical => Word::X1,
        }
    }

    /// The word that a queue goes by: near for the low one, far for the high one.
    pub fn end(self, end: End) -> Word
        ensures { result ≡ end_word self end }
    {
        match end {
            End::Low => self.near(),
            End::High => self.far(),
        }
    }
}
