// The queues of an index, walked over any words: one code for horizontals and verticals, low and high queues.
// A queue is a loop, with the right queues that are still to be walked on a small lent stack.
#![tactic(auto)]

ghost use Rattle.std.specs.Prelude.{◌≡◌, ◌+◌, ◌-◌, ◌*◌, ◌/◌, ◌^◌, ◌<◌, ◌≤◌, length};
ghost use Rattle.paper.specs.Walk.{record_at, condition, in_band};
ghost use Rattle.paper.specs.declared.Window.{Window};
ghost use Rattle.axes.specs.Axes.{axis_of, end_of};
ghost use Rattle.tally.specs.State.{Along};
ghost use Rattle.queues.specs.Queues.{queue_of, left_of, right_of, due_of, Headed};
ghost use Rattle.queues.specs.Stacks.{Went};

use arrayvec::ArrayVec;
use axes::{Axis, End};
use tally::{Index, Spoiled, Tally};

/// What is looked for along an axis: the edge that near or far is held against, and the band of levels.
#[derive(Clone, Copy)]
pub struct Band {
    pub axis: Axis,
    pub edge: i64,
    pub low: i64,
    pub high: i64,
}

impl Band {
    // Whether a queue's condition holds of a position: near < edge in a low queue, far ≥ edge in a high one.
    fn holds(self, index: Index, end: End, p: usize) -> bool
        requires { p < index.n }
        ensures { result ≡ condition (axis_of self.axis) self.edge (end_of end) (record_at index.entry.words.now p) }
    {
        // One test of the key, where a branch on each end would be foreseen less well.
        let reached = self.edge <= index.coordinate(p, self.axis.end(end));
        match end {
            End::Low => !reached,
            End::High => reached,
        }
    }

    // Whether a position's level is in the band.
    fn contains(self, index: Index, p: usize) -> bool
        requires { p < index.n }
        ensures { result ≡ in_band (axis_of self.axis) self.low self.high (record_at index.entry.words.now p) }
    {
        let level = index.coordinate(p, self.axis.level());
        (self.low..=self.high).contains(&level)
    }
}

/// A queue that is to be walked: the word where it begins, and over how many it is.
#[derive(Clone, Copy, Debug, Default, PartialEq, Eq)]
pub struct Queue {
    pub at: usize,
    pub size: usize,
}

/// Queues that are to be walked, the next one last. They halve: there are never more than a size has binary digits.
pub type Pending = ArrayVec<Queue, 20>;

/// What a queue does itself, and the queues that the walk goes on to.
#[derive(Clone, Copy)]
pub struct Head {
    pub tally: Tally,
    pub left: Option<Queue>,
    pub right: Option<Queue>,
}

impl Queue {
    // It takes one itself; of the others half are to its left.
    fn left(self) -> Queue
        requires { self.at + 2 < 2 ^ 64 }
        ensures { result ≡ left_of self }
    {
        Queue {
            at: self.at + 2,
            size: self.size / 2,
        }
    }

    // The rest is to its right.
    fn right(self) -> Queue
        requires { (0 < self.size) × (self.at + 2 * self.size < 2 ^ 64) }
        ensures { result ≡ right_of self }
    {
        let half = self.size / 2;
        Queue {
            at: self.at + 2 + 2 * half,
            size: self.size - 1 - half,
        }
    }

    // The queue, where the walk goes on to it and it is over some.
    fn if_due(self, due: bool) -> Option<Queue>
        ensures { result ≡ due_of due self }
    {
        if due & (0 < self.size) {
            Some(self)
        } else {
            None
        }
    }

    fn enter(
        self,
        index: Index,
        numbers: &mut [i32],
        band: Band,
        end: End,
        tally: Tally,
    ) -> Result<Head, Spoiled>
        requires inside { (0 < self.size) × (self.at + 2 * self.size ≤ length index.words.now) }
        requires few { tally.visits + self.size < 2 ^ 20 }
        ensures { Headed index.entry.words.now index.entry.n band end index.entry.lower self tally numbers.old result numbers.new }
    {
        let seen = tally.seen();
        let p = index.position_at(self.at)?;
        if !band.holds(index, end, p) {
            return Ok(Head {
                tally: seen,
                left: None,
                right: None,
            });
        }
        let split = index.word_at(self.at + 1);
        let left = band.low <= split;
        let right = split <= band.high;
        let listed = if band.contains(index, p) {
            seen.list(numbers, index, p)?
        } else {
            seen
        };
        Ok(Head {
            tally: listed,
            left: self.left().if_due(left),
            right: self.right().if_due(right),
        })
    }

    /// The walk of a queue: of itself, its left and its right, by a loop over those that are still to be walked, for which a stack is lent.
    pub fn walk(
        self,
        index: Index,
        numbers: &mut [i32],
        pending: &mut Pending,
        band: Band,
        end: End,
        mut tally: Tally,
    ) -> Result<Tally, Spoiled>
        requires inside { self.at + 2 * self.size ≤ length index.words.now }
        requires few { tally.visits + self.size < 2 ^ 20 }
        ensures { (w : Window) → Along index.entry.n index.entry.lower (queue_of index.entry.words.now index.entry.n band end w self) self.size tally numbers.old result numbers.new }
    {
        pending.clear();
        let mut next = self.if_due(true);
        while let Some(queue) = next {
            let head = queue.enter(index, numbers, band, end, tally)?;
            tally = head.tally;
            next = go_on(pending, head.left, head.right);
        }
        Ok(tally)
    }
}

// The queue that the walk goes on to: a left one, then its right one, then the last of those that wait.
fn go_on(pending: &mut Pending, left: Option<Queue>, right: Option<Queue>) -> Option<Queue>
    requires { length pending.old.items < 20 }
    ensures { Went pending.old.items left right result pending.new.items }
{
    match (left, right) {
        (Some(left), Some(right)) => {
            pending.push(right);
            Some(left)
        }
        (Some(only), None) | (None, Some(only)) => Some(only),
        (None, None) => pending.pop(),
    }
}
