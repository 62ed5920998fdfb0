// What a walk over an index keeps while it goes, and how it reads words: each visit, each number listed and each word read goes through here.
// The events of `paper` become what the code keeps by `after` (specs/State); what a word that was read says is in specs/Reads.
#![tactic(auto)]

ghost use Rattle.std.specs.Prelude.{◌≡◌, ◌+◌, ◌^◌, ◌<◌, ◌≤◌, length, pos, ◌+ℤ◌, IfOk, IfSome};
ghost use Rattle.paper.specs.Words.{levels_at};
ghost use Rattle.paper.specs.Walk.{word, record_at};
ghost use Rattle.axes.specs.Axes.{coordinate_of};
ghost use Rattle.tally.specs.State.{seen, listing};
ghost use Rattle.tally.specs.Reads.{Ready, natural, position};

use axes::Word;

/// A word was read that no index has there, or more numbers are due than there are: the walk ends.
#[derive(Clone, Copy, Debug, PartialEq, Eq)]
pub struct Spoiled;

/// How many numbers are listed so far, and how many visits there were.
#[derive(Clone, Copy, Debug, Default, PartialEq, Eq)]
pub struct Tally {
    pub listed: usize,
    pub visits: usize,
}

impl Tally {
    /// One visit more.
    pub fn seen(self) -> Tally
        requires { self.visits + 1 < 2 ^ 64 }
        ensures { result ≡ seen self }
    {
        Tally {
            visits: self.visits + 1,
            ..self
        }
    }

    /// The number of a position is due: it is listed, in a cell if there is one; where n are listed, the walk is spoiled.
    pub fn list(self, numbers: &mut [i32], index: Index, p: usize) -> Result<Tally, Spoiled>
        requires { p < 65536 }
        ensures { (result, numbers.new) ≡ listing index.entry.n index.entry.lower p self numbers.old }
    {
        let at = self.listed;
        if index.n <= at {
            return Err(Spoiled);
        }
        if at < numbers.len() {
            numbers[at] = index.number(p);
        }
        Ok(Tally {
            listed: at + 1,
            ..self
        })
    }
}

/// The words of an index, whatever they are, and what its header says of every number: how many there are, and the first.
#[derive(Clone, Copy)]
pub struct Index<'a> {
    pub words: &'a [i32],
    pub n: usize,
    pub lower: i64,
    pub ghost ready: { Ready words.now n lower },
}

impl Index<'_> {
    // The number of a position, in a cell.
    fn number(self, p: usize) -> i32
        requires { p < 65536 }
        ensures { result ≡ self.entry.lower +ℤ pos p }
    {
        (self.lower + p as i64) as i32
    }

    /// A word.
    pub fn word_at(self, at: usize) -> i64
        requires { at < length self.words.now }
        ensures { result ≡ word self.entry.words.now at }
    {
        i64::from(self.words[at])
    }

    /// The whole number that a word says; None where it is negative.
    pub fn whole_at(self, at: usize) -> Option<usize>
        requires { at < length self.words.now }
        ensures value { result ≡ natural (word self.entry.words.now at) }
        ensures small { IfSome result (λ k. k < 2 ^ 31) }
    {
        // Kept: `usize::try_from` is five instructions more a word, a tenth of all that a walk runs: each visit reads one.
        let said = self.words[at];
        if said < 0 {
            return None;
        }
        Some(said as usize)
    }

    /// The position that a word says; spoiled where there is no such position.
    pub fn position_at(self, at: usize) -> Result<usize, Spoiled>
        requires { at < length self.words.now }
        ensures value { result ≡ position self.entry.n (word self.entry.words.now at) }
        ensures inside { IfOk result (λ p. p < self.entry.n) }
    {
        match self.whole_at(at) {
            Some(p) if p < self.n => Ok(p),
            _ => Err(Spoiled),
        }
    }

    /// A word of the record of a position.
    pub fn coordinate(self, p: usize, word: Word) -> i64
        requires { p < self.n }
        ensures { result ≡ coordinate_of word (record_at self.entry.words.now p) }
    {
        self.word_at(4 + 4 * p + word.place())
    }
}

/// Where level 0 begins: after the records.
pub fn levels_at(n: usize) -> usize
    requires { n ≤ 65536 }
    ensures { result ≡ levels_at n }
{
    4 + 4 * n
}
