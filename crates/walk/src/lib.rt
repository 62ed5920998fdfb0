// The walk of document 01 over an index's words, whatever they are, and answer 9, which says whether words are an index at all.
// It lists into whatever room is lent and counts on where there is none; the window's edges may stand in any order.
#![tactic(auto)]

ghost use Rattle.std.specs.Prelude.{◌≡◌, false, ◌+◌, ◌*◌, ◌<◌, ◌≤◌, ◌↔◌, length, ◌+ℤ◌, IsSome, IfSome, IfOk};
ghost use Rattle.lists.specs.Plain.{same};
ghost use Rattle.paper.specs.Orders.{bad_index};
ghost use Rattle.paper.specs.Walk.{word, size_in, walk_of};
ghost use Rattle.tally.specs.Fold.{Given};
ghost use Rattle.walk.specs.Header.{bad_header, along_in};
ghost use Rattle.walk.specs.Whole.{LowEnds, Crossed, band_of};

use axes::Axis;
use blocks::Block;
use nodes::Node;
use paper::Window;
use queues::{Band, Pending};
use slots::search;
use tally::{Index, Spoiled, Tally, levels_at};

// Whether the counts of horizontals and verticals add to n.
fn adds_up(n: i32, across: i32, upright: i32) -> bool
    ensures { result ≡ same (across +ℤ upright) n }
{
    i64::from(across) + i64::from(upright) == i64::from(n)
}

// What answer 9 says of the four words of a header: n and lower bound beyond limits, a count negative, counts that do not add to n.
fn bad_header(n: i32, lower: i32, across: i32, upright: i32) -> bool
    ensures { result ≡ bad_header n lower across upright }
{
    !(0..=4096).contains(&n)
        | !(-1000000..=1000000).contains(&lower)
        | (across < 0)
        | (upright < 0)
        | !adds_up(n, across, upright)
}

/// Answer 9.
pub fn bad_index(words: &[i32]) -> bool
    ensures { result ≡ (bad_index words.now).given }
{
    let [n, lower, across, upright, ..] = words else {
        return true;
    };
    if bad_header(*n, *lower, *across, *upright) {
        return true;
    }
    words.len() < table::words(*n as usize)
}

/// Words that answer 9 passes: an index by its header and its length, whatever its other words are.
#[derive(Clone, Copy)]
pub struct IndexWords<'a> {
    pub words: &'a [i32],
    pub ghost sound: { (bad_index words.now).given ≡ false },
}

impl<'a> IndexWords<'a> {
    /// None where answer 9 is given.
    pub fn new(words: &'a [i32]) -> Option<IndexWords<'a>>
        ensures some { IsSome result ↔ ((bad_index words.now).given ≡ false) }
        ensures value { IfSome result (λ index. index.words ≡ words.entry) }
    {
        if bad_index(words) {
            return None;
        }
        Some(IndexWords { words })
    }

    /// How many segments it is of.
    pub fn count(self) -> usize
        ensures value { result ≡ size_in self.entry.words.now }
        ensures within { result ≤ 4096 }
    {
        self.words[0] as usize
    }

    // How many of them lie along an axis.
    fn along(self, axis: Axis) -> usize
        ensures { result ≡ along_in self.entry.words.now axis }
    {
        match axis {
            Axis::Horizontal => self.words[2] as usize,
            Axis::Vertical => self.words[3] as usize,
        }
    }

    // The words, and what the header says of every number.
    fn index(self) -> Index<'a>
        ensures words { result.words.now ≡ self.entry.words.now }
        ensures n { result.n ≡ size_in self.entry.words.now }
        ensures lower { result.lower ≡ word self.entry.words.now 1 }
    {
        Index {
            words: self.words,
            n: self.count(),
            lower: i64::from(self.words[1]),
        }
    }

    // The group of the low ends in the window: the search, and the nodes from the slot found.
    fn low_ends(self, window: Window, numbers: &mut [i32]) -> Result<Tally, Spoiled>
        requires { 0 < size_in self.words.now }
        ensures { LowEnds self.entry.words.now window numbers.old result numbers.new }
    {
        let index = self.index();
        let found = search(index, window, Tally::default())?;
        let whole = Node {
            levels: table::digits(index.n - 1),
            size: index.n,
            p: found.p,
            at: levels_at(index.n),
        };
        whole.walk(index, numbers, window, found.tally)
    }

    // The groups of the horizontals and the verticals, in a loop: blocks are walked from one place, so that their code is compiled into it, for each axis apart.
    fn crossings(
        self,
        window: Window,
        numbers: &mut [i32],
        mut tally: Tally,
    ) -> Result<Tally, Spoiled>
        requires some { 0 < size_in self.words.now }
        requires few { tally.visits ≤ 4 * size_in self.words.now }
        ensures { Crossed self.entry.words.now window tally numbers.old result numbers.new }
    {
        let index = self.index();
        let n = index.n;
        let mut pending = Pending::new();
        let mut at = levels_at(n) + 2 * n * (table::digits(n - 1) + 1);
        for axis in [Axis::Horizontal, Axis::Vertical] {
            let size = self.along(axis);
            let band = band_of(window, axis);
            tally = Block { at, size }.walk(index, numbers, &mut pending, band, tally)?;
            at += 8 * size;
        }
        Ok(tally)
    }

    /// The walk: the low ends, the horizontals, the verticals. On Err a word that it read is spoiled; then the cells past the first n are as they were.
    pub fn walk(self, window: Window, numbers: &mut [i32]) -> Result<Tally, Spoiled>
        ensures given { Given (size_in self.entry.words.now) (word self.entry.words.now 1) numbers.old (walk_of self.entry.words.now window) result numbers.new }
        ensures few { IfOk result (λ tally. tally.visits ≤ 6 * size_in self.entry.words.now) }
    {
        if self.count() == 0 {
            return Ok(Tally::default());
        }
        let tally = self.low_ends(window, numbers)?;
        self.crossings(window, numbers, tally)
    }
}

// What is looked for along an axis: among the horizontals a, and levels c..d; among the verticals c, and levels a..b.
fn band_of(window: Window, axis: Axis) -> Band
    ensures { result ≡ band_of window axis }
{
    match axis {
        Axis::Horizontal => Band {
            axis,
            edge: window.a,
            low: window.c,
            high: window.d,
        },
        Axis::Vertical => Band {
            axis,
            edge: window.c,
            low: window.a,
            high: window.b,
        },
    }
}
