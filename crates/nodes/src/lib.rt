// The nodes of an index, walked over any words: a loop, with the right nodes that are still to be walked on a small stack.
#![tactic(auto)]

ghost use Rattle.std.specs.Prelude.{◌≡◌, ◌+◌, ◌-◌, ◌*◌, ◌^◌, ◌<◌, ◌≤◌, length, IfOk, MatchResult};
ghost use Rattle.lists.specs.Plain.{half};
ghost use Rattle.paper.specs.Walk.{count_word};
ghost use Rattle.tally.specs.State.{Along};
ghost use Rattle.tally.specs.Reads.{count};
ghost use Rattle.nodes.specs.Ends.{Ended, EndsCut};
ghost use Rattle.nodes.specs.Nodes.{Deep, Turned, TurnCut, node_events, run_of, left_of, right_of};

use arrayvec::ArrayVec;
use axes::Word;
use paper::Window;
use slots::slots;
use tally::{Index, Spoiled, Tally};

/// How the first and last x of a node lie: beside the window, inside it, or neither.
#[derive(Clone, Copy, Debug, PartialEq, Eq)]
pub enum Ends {
    Out,
    In,
    Across,
}

/// A node that is walked from its slot p on: its size, the word of its level at which it begins, and how many levels are below its own.
#[derive(Clone, Copy, Debug, Default, PartialEq, Eq)]
pub struct Node {
    pub levels: usize,
    pub size: usize,
    pub p: usize,
    pub at: usize,
}

/// What one node does itself, and where the walk goes on below it, left p.
#[derive(Clone, Copy, Debug, PartialEq, Eq)]
pub struct Turn {
    pub tally: Tally,
    pub left: Option<usize>,
}

impl Node {
    // How it lies, by the last level's words of it.
    fn ends(self, index: Index, window: Window) -> Result<Ends, Spoiled>
        requires { Deep index.words.now index.n self }
        ensures { MatchResult result (Ended index.entry.words.now index.entry.n window self.size (run_of index.entry.n self)) (λ _. EndsCut index.entry.words.now index.entry.n window self.size (run_of index.entry.n self)) }
    {
        let z = self.at + 2 * index.n * self.levels;
        let first = index.position_at(z)?;
        let last = index.position_at(z + self.size - 1)?;
        let first_x = index.coordinate(first, Word::X1);
        let last_x = index.coordinate(last, Word::X1);
        if last_x < window.a {
            return Ok(Ends::Out);
        }
        if window.b < first_x {
            return Ok(Ends::Out);
        }
        if first_x < window.a {
            return Ok(Ends::Across);
        }
        if window.b < last_x {
            return Ok(Ends::Across);
        }
        Ok(Ends::In)
    }

    // Left p: the count at slot p, or the left size where p is the node's size.
    fn count(self, index: Index) -> Result<usize, Spoiled>
        requires p { self.p ≤ self.size }
        requires words { self.at + index.n + self.size ≤ length index.words.now }
        ensures { result ≡ count self.p (half self.size) (self.size - half self.size) (count_word index.entry.words.now index.entry.n self.size self.p self.at) }
    {
        let left = (self.size + 1) / 2;
        if self.p == self.size {
            return Ok(left);
        }
        match index.whole_at(self.at + index.n + self.p) {
            Some(count) if count <= self.p && count <= left && self.p - count <= self.size - left =>
                Ok(count),
            _ => Err(Spoiled),
        }
    }

    // Its left node one level below, from the slot that left p says.
    fn left(self, n: usize, count: usize) -> Node
        requires { (0 < self.levels) × (self.at + 2 * n + self.size < 2 ^ 63) }
        ensures { result ≡ left_of n self count }
    {
        Node {
            levels: self.levels - 1,
            size: (self.size + 1) / 2,
            p: count,
            at: self.at + 2 * n,
        }
    }

    // Its right node one level below, from the slot that is the rest of p.
    fn right(self, n: usize, count: usize) -> Node
        requires { (0 < self.levels) × (self.at + 2 * n + self.size < 2 ^ 63) × (count ≤ self.p) }
        ensures { result ≡ right_of n self count }
    {
        let left = (self.size + 1) / 2;
        Node {
            levels: self.levels - 1,
            size: self.size - left,
            p: self.p - count,
            at: self.at + 2 * n + left,
        }
    }

    fn enter(
        self,
        index: Index,
        numbers: &mut [i32],
        window: Window,
        tally: Tally,
    ) -> Result<Turn, Spoiled>
        requires deep { Deep index.words.now index.n self }
        requires few { tally.visits + self.size + 1 < 2 ^ 20 }
        ensures { MatchResult result (λ turn. Turned index.entry.words.now index.entry.n index.entry.lower window self tally numbers.old turn numbers.new) (λ _. TurnCut index.entry.words.now index.entry.n index.entry.lower window self tally numbers.old numbers.new) }
    {
        let seen = tally.seen();
        match self.ends(index, window)? {
            Ends::Out => Ok(Turn {
                tally: seen,
                left: None,
            }),
            Ends::In => {
                let walked = slots(
                    index,
                    numbers,
                    window,
                    seen,
                    self.size - self.p,
                    self.at + self.p,
                )?;
                Ok(Turn {
                    tally: walked,
                    left: None,
                })
            }
            Ends::Across => {
                let count = self.count(index)?;
                Ok(Turn {
                    tally: seen,
                    left: Some(count),
                })
            }
        }
    }

    /// The walk of a node: of itself and of what lies below it, by a loop over the nodes that are still to be walked.
    pub fn walk(
        self,
        index: Index,
        numbers: &mut [i32],
        window: Window,
        mut tally: Tally,
    ) -> Result<Tally, Spoiled>
        requires deep { Deep index.words.now index.n self }
        requires levels { self.levels ≤ 18 }
        requires few { tally.visits + 3 * self.size < 2 ^ 20 }
        ensures { Along index.entry.n index.entry.lower (node_events index.entry.words.now index.entry.n window self) (3 * self.size) tally numbers.old result numbers.new }
    {
        // Right nodes, the next one last. They halve: there are never more than there are levels.
        let mut pending: ArrayVec<Node, 18> = ArrayVec::new();
        let mut next = Some(self);
        while let Some(node) = next {
            let turn = node.enter(index, numbers, window, tally)?;
            tally = turn.tally;
            next = match turn.left {
                Some(count) => {
                    pending.push(node.right(index.n, count));
                    Some(node.left(index.n, count))
                }
                None => pending.pop(),
            };
        }
        Ok(tally)
    }
}
