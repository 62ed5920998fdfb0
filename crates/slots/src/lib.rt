// The slots of an index's levels, walked over any words: the search of level 0, and the slots of a node that lies inside the window's a..b.
#![tactic(auto)]

ghost use Rattle.std.specs.Prelude.{◌≡◌, ◌+◌, ◌^◌, ◌<◌, ◌≤◌, length, MatchResult};
ghost use Rattle.paper.specs.Walk.{slots_walk};
ghost use Rattle.paper.specs.Words.{levels_at};
ghost use Rattle.tally.specs.State.{Along};
ghost use Rattle.slots.specs.Search.{Searched, SearchCut};

use axes::Word;
use paper::Window;
use tally::{Index, Spoiled, Tally, levels_at};

/// What the search leaves: the slot to begin at.
#[derive(Clone, Copy, Debug, PartialEq, Eq)]
pub struct Found {
    pub tally: Tally,
    pub p: usize,
}

/// The first slot of level 0 whose y is at least c.
pub fn search(index: Index, window: Window, mut tally: Tally) -> Result<Found, Spoiled>
    requires words { levels_at index.n + index.n ≤ length index.words.now }
    requires few { tally.visits + index.n < 2 ^ 20 }
    ensures { MatchResult result (λ found. Searched index.entry.words.now index.entry.n window tally found) (λ _. SearchCut index.entry.words.now index.entry.n window tally) }
{
    let n = index.n;
    let mut lo = 0;
    let mut hi = n;
    // Kept: each mid is a visit and a spoiled one ends the search (paper's `search_to`); std's binary searches count none and cannot fail.
    while lo < hi {
        let mid = (lo + hi) / 2;
        tally = tally.seen();
        let q = index.position_at(levels_at(n) + mid)?;
        let reaches = window.c <= index.coordinate(q, Word::Y1);
        if reaches {
            hi = mid;
        } else {
            lo = mid + 1;
        }
    }
    Ok(Found { tally, p: lo })
}

/// The slots from a word on, so many or until one is above the window.
pub fn slots(
    index: Index,
    numbers: &mut [i32],
    window: Window,
    mut tally: Tally,
    count: usize,
    at0: usize,
) -> Result<Tally, Spoiled>
    requires words { at0 + count ≤ length index.words.now }
    requires few { tally.visits + count < 2 ^ 20 }
    ensures { Along index.entry.n index.entry.lower (slots_walk index.entry.words.now index.entry.n window count at0) count tally numbers.old result numbers.new }
{
    for at in at0..at0 + count {
        tally = tally.seen();
        let q = index.position_at(at)?;
        let above = window.d < index.coordinate(q, Word::Y1);
        if above {
            return Ok(tally);
        }
        tally = tally.list(numbers, index, q)?;
    }
    Ok(tally)
}
