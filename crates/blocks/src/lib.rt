// The blocks of an index, walked over any words: one code for horizontals and verticals. A walk goes down a chain of blocks, which is a loop, since spoiled words can
// make it as long as n; each block walks its low or its high queue.
#![tactic(auto)]

ghost use Rattle.std.specs.Prelude.{◌≡◌, ◌+◌, ◌*◌, ◌^◌, ◌<◌, ◌≤◌, length, MatchResult};
ghost use Rattle.paper.specs.declared.Window.{Window};
ghost use Rattle.tally.specs.State.{Along};
ghost use Rattle.blocks.specs.Blocks.{blocks_of, end_at, queue_in, below_of, some_of, Fit, Unfit, Stepped};

use axes::End;
use queues::{Band, Pending, Queue};
use tally::{Index, Spoiled, Tally};

/// A block that is to be walked: the word where it begins, and over how many it is.
#[derive(Clone, Copy, Debug, PartialEq, Eq)]
pub struct Block {
    pub at: usize,
    pub size: usize,
}

/// How many stay in a block, and over how many its left and its right block are.
#[derive(Clone, Copy, Debug, PartialEq, Eq)]
pub struct Sizes {
    pub stay: usize,
    pub left: usize,
    pub right: usize,
}

/// What one block does itself, and the block that the walk goes on to.
#[derive(Clone, Copy)]
pub struct Step {
    pub tally: Tally,
    pub next: Option<Block>,
}

impl Block {
    // The sizes that its words say: some stay, and all of them make up the block.
    fn sizes(self, index: Index) -> Result<Sizes, Spoiled>
        requires { self.at + 3 < length index.words.now }
        ensures { MatchResult result (Fit index.entry.words.now self) (λ _. Unfit index.entry.words.now self) }
    {
        let stay = index.whole_at(self.at + 1).ok_or(Spoiled)?;
        let left = index.whole_at(self.at + 2).ok_or(Spoiled)?;
        let right = index.whole_at(self.at + 3).ok_or(Spoiled)?;
        if (stay == 0) | (stay + left + right != self.size) {
            return Err(Spoiled);
        }
        Ok(Sizes { stay, left, right })
    }

    // Where the edge is not above its centre, its low queue is walked and then its left block; else the high queue and the right block.
    fn end(self, index: Index, band: Band) -> End
        requires { self.at < length index.words.now }
        ensures { result ≡ end_at index.entry.words.now band self }
    {
        if band.edge <= index.word_at(self.at) {
            End::Low
        } else {
            End::High
        }
    }

    // Its queue of an end, after the four words of sizes.
    fn queue(self, sizes: Sizes, end: End) -> Queue
        requires { self.at + 4 + 2 * sizes.stay < 2 ^ 64 }
        ensures { result ≡ queue_in self sizes end }
    {
        let at = match end {
            End::Low => self.at + 4,
            End::High => self.at + 4 + 2 * sizes.stay,
        };
        Queue {
            at,
            size: sizes.stay,
        }
    }

    // Its left or its right block, after the words of its own.
    fn below(self, sizes: Sizes, end: End) -> Block
        requires { self.at + 8 * sizes.stay + 8 * sizes.left < 2 ^ 64 }
        ensures { result ≡ below_of self sizes end }
    {
        let left = self.at + 8 * sizes.stay;
        match end {
            End::Low => Block {
                at: left,
                size: sizes.left,
            },
            End::High => Block {
                at: left + 8 * sizes.left,
                size: sizes.right,
            },
        }
    }

    // The block, where it is over some.
    fn some(self) -> Option<Block>
        ensures { result ≡ some_of self }
    {
        if self.size == 0 { None } else { Some(self) }
    }

    fn enter(
        self,
        index: Index,
        numbers: &mut [i32],
        pending: &mut Pending,
        band: Band,
        tally: Tally,
    ) -> Result<Step, Spoiled>
        requires inside { (0 < self.size) × (self.at + 8 * self.size ≤ length index.words.now) }
        requires few { tally.visits + 2 * self.size < 2 ^ 20 }
        ensures { Stepped index.entry.words.now index.entry.n band index.entry.lower self tally numbers.old result numbers.new }
    {
        let seen = tally.seen();
        let sizes = self.sizes(index)?;
        let end = self.end(index, band);
        let queue = self.queue(sizes, end);
        let walked = queue.walk(index, numbers, pending, band, end, seen)?;
        Ok(Step {
            tally: walked,
            next: self.below(sizes, end).some(),
        })
    }

    /// The walk of a block: of the chain of blocks that begins with it. A stack is lent for the queues.
    pub fn walk(
        self,
        index: Index,
        numbers: &mut [i32],
        pending: &mut Pending,
        band: Band,
        mut tally: Tally,
    ) -> Result<Tally, Spoiled>
        requires inside { self.at + 8 * self.size ≤ length index.words.now }
        requires few { tally.visits + 2 * self.size < 2 ^ 20 }
        ensures { (w : Window) → Along index.entry.n index.entry.lower (blocks_of index.entry.words.now index.entry.n band w self) (2 * self.size) tally numbers.old result numbers.new }
    {
        let mut next = self.some();
        while let Some(block) = next {
            let step = block.enter(index, numbers, pending, band, tally)?;
            tally = step.tally;
            next = step.next;
        }
        Ok(tally)
    }
}
