// The queue builder: the words of a queue, in place of the positions it is to hold, which stand by (level, position) at the front of its words.
// One function for low and high queues, for horizontals and verticals: the axis of `Ends` says which words of a record are near, far and level.
#![tactic(auto)]

ghost use Rattle.std.specs.Prelude.{◌≡◌, ℕ, ◌+◌, ◌-◌, ◌*◌, ◌/◌, ◌≤◌, ◌<◌, length, take};
ghost use Rattle.lists.specs.Plain.{to_nat};
ghost use Rattle.paper.specs.Words.{near_of, far_of, level_of, queue_words, split_of};
ghost use Rattle.axes.specs.Axes.{end_of};
ghost use Rattle.build_queue.specs.Ends.{records_in, axis_in};
ghost use Rattle.build_queue.specs.Runs.{named, front, Stands};
ghost use Rattle.build_queue.specs.Best.{Best, key_at, ahead};
ghost use Rattle.build_queue.specs.Parting.{By, Arranged, Headed};

use axes::{Axis, End};
use records::Straight;

/// The marks of a table along an axis: where each has its near end and its far end, and at which level it stands.
#[derive(Clone, Copy)]
pub struct Ends<'a> {
    pub marks: Straight<'a>,
    pub axis: Axis,
}

impl Ends<'_> {
    /// Near of the position that p stands for.
    pub fn near(self, p: i32) -> i32
        ensures { result ≡ near_of (records_in self.entry) (axis_in self.entry) (to_nat p) }
    {
        self.marks.word(p, self.axis.near())
    }

    /// Far of the position that p stands for.
    pub fn far(self, p: i32) -> i32
        ensures { result ≡ far_of (records_in self.entry) (axis_in self.entry) (to_nat p) }
    {
        self.marks.word(p, self.axis.far())
    }

    /// The level of the position that p stands for.
    pub fn level(self, p: i32) -> i32
        ensures { result ≡ level_of (records_in self.entry) (axis_in self.entry) (to_nat p) }
    {
        self.marks.word(p, self.axis.level())
    }

    // The key that a queue takes the position by. The arms read the marks themselves, so that a loop over a run is made once for each end.
    fn key(self, end: End, p: i32) -> i32
        ensures { result ≡ key_at (records_in self.entry) (axis_in self.entry) (end_of end) (to_nat p) }
    {
        match end {
            End::Low => self.near(p),
            End::High => self.far(p),
        }
    }
}

// Whether a queue takes the key x before the key y: the low queue the smaller, the high queue the greater.
fn is_ahead(end: End, x: i32, y: i32) -> bool
    ensures { result ≡ ahead (end_of end) x y }
{
    match end {
        End::Low => x < y,
        End::High => y < x,
    }
}

// The place in a run of the position that the queue takes. Of equal keys the earlier has the smaller (level, position), so a strictly better key decides.
fn best(ends: Ends, end: End, run: &[i32]) -> usize
    requires { (0 < length run.now) × Stands (By (records_in ends) (axis_in ends)) run.now }
    ensures { Best (records_in ends.entry) (axis_in ends.entry) (end_of end) (named run.now) result }
{
    let mut place = 0;
    let mut taken = ends.key(end, run[0]);
    for i in 1..run.len() {
        let next = ends.key(end, run[i]);
        if is_ahead(end, next, taken) {
            place = i;
            taken = next;
        }
    }
    place
}

// Of the first 1 + left + right words, that at b goes to the front, and of the others the first `left` to place 2 and the rest
// to place 2 + 2 * left: each run to the front of its own queue's words.
fn arrange(part: &mut [i32], b: usize, left: usize, right: usize)
    requires { (b < 1 + left + right) × (length part.old ≡ 2 * (1 + left + right)) × (right ≤ left) × (left ≤ right + 1) }
    ensures { Arranged part.old part.new b left right }
{
    let taken = part[b];
    part.copy_within(0..b, 1);
    part[0] = taken;
    let middle = 1 + left;
    part.copy_within(middle..middle + right, 2 * middle);
    part.copy_within(1..middle, 2);
}

// The level of the last one sent left, 0 where there is none.
fn split(ends: Ends, run: &[i32]) -> i32
    ensures { result ≡ split_of (records_in ends.entry) (axis_in ends.entry) (named run.now) }
{
    match run.last() {
        Some(p) => ends.level(*p),
        None => 0,
    }
}

// The first two words of a queue, and its two runs, each at the front of its own queue's words.
fn head(ends: Ends, end: End, part: &mut [i32])
    requires { (0 < length part.old / 2) × (length part.old ≡ 2 * (length part.old / 2)) × Stands (By (records_in ends) (axis_in ends)) (front part.old) }
    ensures { Headed (records_in ends.entry) (axis_in ends.entry) (end_of end) (named (front part.old)) part.new }
{
    let s = part.len() / 2;
    let left = s / 2;
    let right = s - 1 - left;
    let b = best(ends, end, &part[..s]);
    arrange(part, b, left, right);
    let middle = 2 + left;
    part[1] = split(ends, &part[2..middle]);
}

// The words of a queue over the positions at the front of the part, one for two words; each of its two queues is built in a part lent on.
pub fn queue(ends: Ends, end: End, part: &mut [i32])
    requires { (length part.old ≡ 2 * (length part.old / 2)) × Stands (By (records_in ends) (axis_in ends)) (front part.old) }
    ensures { part.new ≡ queue_words (records_in ends.entry) (axis_in ends.entry) (end_of end) (named (front part.old)) }
{
    let s = part.len() / 2;
    if s == 0 {
        return;
    }
    // half of all queues have one position: no call for their empty halves
    if s == 1 {
        part[1] = 0;
        return;
    }
    head(ends, end, part);
    let middle = 2 + 2 * (s / 2);
    queue(ends, end, &mut part[2..middle]);
    queue(ends, end, &mut part[middle..]);
}
