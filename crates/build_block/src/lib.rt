// The block builder: the words of a block, in place of the positions it is to hold, which stand by near at the front of its words.
// One function for horizontals and verticals: the axis of `Ends` says which words of a record are near, far and level.
#![tactic(auto)]

ghost use Rattle.std.specs.Prelude.{◌≡◌, ℕ, ◌+◌, ◌-◌, ◌*◌, ◌/◌, ◌≤◌, ◌<◌, length, not};
ghost use Rattle.lists.specs.Plain.{filter};
ghost use Rattle.lists.specs.Parts.{win, put};
ghost use Rattle.paper.specs.Words.{block_words};
ghost use Rattle.build_queue.specs.Ends.{records_in, axis_in};
ghost use Rattle.build_queue.specs.Runs.{named, Stands};
ghost use Rattle.build_queue.specs.Parting.{By};
ghost use Rattle.build_block.specs.Fronts.{front};
ghost use Rattle.build_block.specs.Sides.{Nearer};
ghost use Rattle.build_block.specs.Cutting.{Low, Cut};
ghost use Rattle.build_block.specs.Separating.{parted, goes_left};
ghost use Rattle.build_block.specs.Blocks.{header};
ghost use Rattle.build_block.specs.Dividing.{Divided};
ghost use Rattle.build_block.specs.Spreading.{Spread};
ghost use Rattle.build_block.specs.Joining.{by_level, Prepared, queued};

use axes::End;
use build_queue::{Ends, queue};
use ordering::sort;
use records::{Keys, as_word};

/// The centre of a block, how many stay, and how many stay or go left.
#[derive(Clone, Copy)]
pub struct Division {
    pub centre: i32,
    pub stay: usize,
    pub cut: usize,
}

// The place in a run by near, from `from` on, of the first that is beyond the centre; the run's length where none is.
// Where nears differ it is the first that is asked; a search by halves, as std's `partition_point`, would ask for about log m of them.
fn reach(ends: Ends, run: &[i32], from: usize, centre: i32) -> usize
    requires low { Low (records_in ends) (axis_in ends) centre (named run.now) from }
    requires stands { Stands (Nearer (records_in ends) (axis_in ends)) run.now }
    ensures within { result ≤ length run.now }
    ensures cut { Cut (records_in ends.entry) (axis_in ends.entry) centre (named run.now) result }
{
    for cut in from..run.len() {
        if centre < ends.near(run[cut]) {
            return cut;
        }
    }
    run.len()
}

// Of the first `cut` words those that go left, since far is before the centre, go from place `cut` on; the others close up at the front. Returns their count.
fn separate(ends: Ends, part: &mut [i32], cut: usize, centre: i32) -> usize
    requires { cut + cut ≤ length part.old }
    ensures few { result ≤ cut }
    ensures value { result ≡ length (filter (λ z. not (goes_left ends.entry centre z)) (win 0 cut part.old)) }
    ensures part_after { part.new ≡ parted (goes_left ends.entry centre) (win 0 cut part.old) 0 cut part.old }
{
    let mut stay = 0;
    let mut left = cut;
    for i in 0..cut {
        let p = part[i];
        if ends.far(p) < centre {
            part[left] = p;
            left += 1;
        } else {
            part[stay] = p;
            stay += 1;
        }
    }
    stay
}

// Copies n words from the place `from` to the place `to`.
fn move_words(part: &mut [i32], from: usize, n: usize, to: usize)
    requires { (from + n ≤ length part.old) × (to + n ≤ length part.old) }
    ensures { part.new ≡ put to (win from n part.old) part.old }
{
    // Calls that move nothing made builds of few segments slower.
    if n == 0 {
        return;
    }
    part.copy_within(from..from + n, to);
}

// The positions at the front, divided by their centre, which is near of the middle one. Those that go right are the last of the run.
fn divide(ends: Ends, part: &mut [i32]) -> Division
    requires { (0 < length part.old / 8) × (length part.old ≡ 8 * (length part.old / 8)) × Stands (Nearer (records_in ends) (axis_in ends)) (front part.old) }
    ensures { Divided (records_in ends.entry) (axis_in ends.entry) (named (front part.old)) part.new result }
{
    let m = part.len() / 8;
    let middle = m / 2;
    let centre = ends.near(part[middle]);
    let cut = reach(ends, &part[..m], middle + 1, centre);
    move_words(part, cut, m - cut, 8 * cut);
    let stay = separate(ends, part, cut, centre);
    let left = cut - stay;
    move_words(part, cut, left, 8 * stay);
    Division { centre, stay, cut }
}

// Kept: a twin of the builder's in form alone: other words, in another order.
// The first four words of a block.
fn put_header(part: &mut [i32], centre: i32, stay: usize, left: usize, right: usize)
    requires { (4 ≤ length part.old) × (stay < 2147483648) × (left < 2147483648) × (right < 2147483648) }
    ensures { part.new ≡ put 0 (header centre stay left right) part.old }
{
    // Kept: `copy_from_slice` of an array was measured, and costs small blocks a tenth: the array goes through the stack.
    part[0] = centre;
    part[1] = as_word(stay);
    part[2] = as_word(left);
    part[3] = as_word(right);
}

// From a division: the header, those that stay by (level, position) at the fronts of both queues' words, and the zeros.
fn spread(ends: Ends, part: &mut [i32], division: Division)
    requires { (0 < division.stay) × (division.stay ≤ division.cut) × (division.cut ≤ length part.old / 8) × (length part.old ≡ 8 * (length part.old / 8)) × (length part.old / 8 < 2147483648) }
    ensures { Spread (by_level ends.entry (win 0 division.stay part.old)) division.centre (length part.old / 8) division.stay division.cut part.old part.new }
{
    let m = part.len() / 8;
    let Division { centre, stay, cut } = division;
    let level = ends.axis.level();
    let keys = Keys {
        marks: ends.marks,
        key: level,
        level,
    };
    sort(keys, part, 0, stay, stay);
    part.copy_within(0..stay, 4 + 2 * stay);
    part.copy_within(0..stay, 4);
    part[4 + 4 * stay..8 * stay].fill(0);
    put_header(part, centre, stay, cut - stay, m - cut);
}

// All of a block but its queues and its two blocks, whose positions stand at the fronts of their words.
fn prepare(ends: Ends, part: &mut [i32]) -> Division
    requires { (0 < length part.old / 8) × (length part.old ≡ 8 * (length part.old / 8)) × (length part.old / 8 < 2147483648) × Stands (Nearer (records_in ends) (axis_in ends)) (front part.old) }
    ensures counts { (0 < result.stay) × (result.stay ≤ result.cut) × (result.cut ≤ length part.old / 8) }
    ensures ready { Prepared (records_in ends.entry) (axis_in ends.entry) (named (front part.old)) part.new result }
{
    let division = divide(ends, part);
    spread(ends, part, division);
    division
}

// Both queues of a block in which `stay` positions stay, each built in a part lent on.
fn queues(ends: Ends, part: &mut [i32], stay: usize)
    requires { (4 + 4 * stay ≤ length part.old) × Stands (By (records_in ends) (axis_in ends)) (win 4 stay part.old) × Stands (By (records_in ends) (axis_in ends)) (win (4 + 2 * stay) stay part.old) }
    ensures { part.new ≡ queued (records_in ends.entry) (axis_in ends.entry) stay part.old }
{
    let half = 4 + 2 * stay;
    let end = 4 + 4 * stay;
    queue(ends, End::Low, &mut part[4..half]);
    queue(ends, End::High, &mut part[half..end]);
}

// The words of a block over the positions at the front of the part, one for eight words; each of its two blocks is built in a part lent on.
pub fn block(ends: Ends, part: &mut [i32])
    requires { (length part.old ≡ 8 * (length part.old / 8)) × (length part.old / 8 < 2147483648) × Stands (Nearer (records_in ends) (axis_in ends)) (front part.old) }
    ensures { part.new ≡ block_words (records_in ends.entry) (axis_in ends.entry) (named (front part.old)) }
{
    if part.is_empty() {
        return;
    }
    let Division { stay, cut, .. } = prepare(ends, part);
    queues(ends, part, stay);
    // Both blocks of a part of one position are empty, and calls that build nothing made builds of few segments slower.
    if part.len() == 8 {
        return;
    }
    let left = 8 * stay;
    let right = 8 * cut;
    block(ends, &mut part[left..right]);
    block(ends, &mut part[right..]);
}
