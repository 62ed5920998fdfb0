// The builder: every word of the index of a table that no answer refuses, written in place in the lent buffer.
// `build_words` lends the parts of the buffer on: records, levels, then the blocks, whose runs are taken from the levels.
#![tactic(auto)]

ghost use Rattle.std.specs.Prelude.{◌≡◌, ◌∷◌, [], ◌++◌, ℕ, ◌+◌, ◌*◌, ◌≤◌, ◌<◌, pos, length};
ghost use Rattle.lists.specs.Plain.{filter};
ghost use Rattle.lists.specs.Parts.{put};
ghost use Rattle.paper.specs.Descriptor.{size_of, segments_of, first_number};
ghost use Rattle.paper.specs.Results.{over};
ghost use Rattle.paper.specs.Words.{horizontals, levels_words, index_words};
ghost use Rattle.records.specs.Records.{records_of};
ghost use Rattle.build_queue.specs.Ends.{records_in};
ghost use Rattle.builder.specs.Placing.{is_level, belongs, blocks_of};
ghost use Rattle.builder.specs.Whole.{Accepted};

use axes::{Axis, Word};
use build_block::block;
use build_queue::Ends;
use levels::{all_levels, write_records};
use records::{Straight, as_word};

// Whether the record of the position that p stands for is horizontal.
fn is_level(marks: Straight, p: i32) -> bool
    ensures { result ≡ is_level marks.entry.descriptor marks.entry.cells.now p }
{
    marks.word(p, Word::Y1) == marks.word(p, Word::Y2)
}

// Whether a position belongs to the block of the axis: the horizontals to the one, all others to the other.
fn belongs(ends: Ends, p: i32) -> bool
    ensures { result ≡ belongs ends.entry p }
{
    let level = is_level(ends.marks, p);
    match ends.axis {
        Axis::Horizontal => level,
        Axis::Vertical => !level,
    }
}

// Those of a run that belong to the block of the axis, in their order, to the front of the block's words. Returns their count.
fn gather(ends: Ends, run: &[i32], words: &mut [i32]) -> usize
    requires { length (filter (belongs ends) run.now) ≤ length words.old }
    ensures value { result ≡ length (filter (belongs ends.entry) run.now) }
    ensures words_after { words.new ≡ over (filter (belongs ends.entry) run.now) words.old }
{
    let mut count = 0;
    for p in run {
        if belongs(ends, *p) {
            words[count] = *p;
            count += 1;
        }
    }
    count
}

// Both blocks. Level 0 has the positions by y, the last level by x, so that the run of each block is taken from one of them in the order that it asks.
// Returns the count of horizontals.
fn write_blocks(marks: Straight, levels: &[i32], words: &mut [i32]) -> usize
    requires { (levels.now ≡ levels_words (records_of marks.descriptor marks.cells.now)) × (length words.old ≡ 8 * size_of marks.descriptor) }
    ensures value { result ≡ length (horizontals (records_of marks.entry.descriptor marks.entry.cells.now)) }
    ensures words_after { words.new ≡ blocks_of marks.entry.descriptor marks.entry.cells.now }
{
    let across = Ends {
        marks,
        axis: Axis::Horizontal,
    };
    let upright = Ends {
        marks,
        axis: Axis::Vertical,
    };
    let n = marks.count();
    let last = levels.len() - 2 * n;
    let h = gather(across, &levels[last..last + n], words);
    let (first, second) = words.split_at_mut(8 * h);
    gather(upright, &levels[..n], second);
    block(across, first);
    block(upright, second);
    h
}

// The header: n, the number of position 0, the counts of horizontals and verticals.
fn put_header(index: &mut [i32], n: usize, first: i32, horizontals: usize, verticals: usize)
    requires { (4 ≤ length index.old) × (n < 2147483648) × (horizontals < 2147483648) × (verticals < 2147483648) }
    ensures { index.new ≡ put 0 (pos n ∷ first ∷ pos horizontals ∷ pos verticals ∷ []) index.old }
{
    index[..4].copy_from_slice(&[as_word(n), first, as_word(horizontals), as_word(verticals)]);
}

/// Every word of the index. The words after them keep their values.
pub fn build_words(marks: Straight, index: &mut [i32])
    requires { Accepted marks.descriptor index.old }
    ensures { index.new ≡ over (index_words (first_number marks.entry.descriptor.kind marks.entry.descriptor.lower) (segments_of marks.entry.descriptor marks.entry.cells.now)) index.old }
{
    let n = marks.count();
    // the number of the last level
    let deep = table::digits(n.saturating_sub(1));
    let first = whole::narrow(table::first_number(marks.descriptor));
    let levels = 4 + 4 * n;
    let blocks = levels + 2 * n * deep + 2 * n;
    write_records(marks, &mut index[4..levels], n);
    all_levels(marks, &mut index[levels..blocks], n, deep);
    let (before, after) = index.split_at_mut(blocks);
    let horizontals = write_blocks(marks, &before[levels..], &mut after[..8 * n]);
    put_header(index, n, first, horizontals, n - horizontals);
}
