// A table by its descriptor: refusals 1 to 6 and 12, the cell of a position, its coordinates and segments, and W(n), said in the words of `paper`.
// A caller asks `bad_kind`, `bad_lower`, `bad_extent`, `bad_strides` and, for answer 12, `first_outside` first; what passes the last three is `Held`, and may be read as a `Table`.
#![tactic(auto)]

ghost use Rattle.std.specs.Prelude.{◌≡◌, Bool, true, false, not, ℕ, ◌+◌, ◌*◌, ◌<◌, ◌≤◌, pos, length, get_or, IfSome};
ghost use Rattle.std.specs.Int.{w64};
ghost use Rattle.std.proofs.Common.{SFits};
ghost use Rattle.lists.specs.Plain.{same, to_nat, any, positions};
ghost use Rattle.paper.specs.Descriptor.{first_number, cell_of, size_of, outside as Outside, segment_of, segments_of};
ghost use Rattle.paper.specs.Limits.{lower_fits, stride_fits, coordinate_fits};
ghost use Rattle.paper.specs.Answers.{bad_kind, bad_lower, bad_extent, bad_strides, bad_cells, bad_coordinate, bad_slant, far_off, slanted as Slanted};
ghost use Rattle.paper.specs.Words.{L, W};
ghost use Rattle.table.specs.Cells.{offset_of, Based as Firm, row_outside, Held, low_end, Found, Tells, outside_at, sought};

use paper::{Descriptor, Segment};

// ---- limits

/// Whether a coordinate or a window's edge is within its limits.
pub fn coordinate_fits(z: i64) -> bool
    ensures { result ≡ coordinate_fits z }
{
    (-536870912..=536870912).contains(&z)
}

fn lower_fits(lower: i64) -> bool
    ensures { result ≡ lower_fits lower }
{
    (-1000000..=1000000).contains(&lower)
}

fn stride_fits(stride: i64) -> bool
    ensures { result ≡ stride_fits stride }
{
    (-1048576..=1048576).contains(&stride)
}

// ---- refusals 1, 2, 3

pub fn bad_kind(descriptor: Descriptor) -> bool
    ensures { result ≡ (bad_kind descriptor.kind).given }
{
    !(1..=3).contains(&descriptor.kind)
}

// Kind 3.
// Kept: a kind is the number in the descriptor that C passes (include/kalinosz.h); answer 1 speaks of that number.
fn is_other(descriptor: Descriptor) -> bool
    ensures { result ≡ same descriptor.kind (pos 3) }
{
    descriptor.kind == 3
}

pub fn bad_lower(descriptor: Descriptor) -> bool
    ensures { result ≡ (bad_lower descriptor.kind descriptor.lower).given }
{
    let zero = descriptor.lower == 0;
    !lower_fits(descriptor.lower) | (is_other(descriptor) & !zero)
}

pub fn bad_extent(n: i64) -> bool
    ensures { result ≡ (bad_extent n).given }
{
    !(0..=4096).contains(&n)
}

/// How many positions there are.
pub fn count(descriptor: Descriptor) -> usize
    requires { (bad_extent descriptor.extent).given ≡ false }
    ensures { (result ≡ size_of descriptor) × (result ≤ 4096) }
{
    descriptor.extent as usize
}

/// The number of position 0; position i has the i-th after it. Kind 3 carries lower bound 0 and numbers from 1.
pub fn first_number(descriptor: Descriptor) -> i64
    ensures value { result ≡ first_number descriptor.kind descriptor.lower }
    ensures fits { SFits w64 result }
{
    if is_other(descriptor) {
        1
    } else {
        descriptor.lower
    }
}

// ---- refusals 4 and 12

pub fn bad_strides(descriptor: Descriptor) -> bool
    ensures { result ≡ (bad_strides descriptor).given }
{
    !stride_fits(descriptor.segment_stride) | !stride_fits(descriptor.coordinate_stride)
}

fn bad_base(len: i64, descriptor: Descriptor) -> bool
    ensures { result ≡ Outside len descriptor.base }
{
    !(0..len).contains(&descriptor.base)
}

// Kept: that the strides are within their limits is a clause of four functions and no type: these are asked before there is a table, with a length alone (C's `kalinosz_cell`).
// How far from the base coordinate j of position i stands.
fn offset(descriptor: Descriptor, i: usize, j: usize) -> i64
    requires { (i < 4096) × (j < 4) × ((bad_strides descriptor).given ≡ false) }
    ensures { result ≡ offset_of descriptor i j }
{
    i as i64 * descriptor.segment_stride + j as i64 * descriptor.coordinate_stride
}

// A descriptor of a table of len cells whose base is one of them, with strides within their limits: every cell may be compared with the table.
#[derive(Clone, Copy)]
struct Based {
    len: i64,
    descriptor: Descriptor,
    ghost based: { Firm len descriptor },
}

impl Based {
    // Whether coordinate j of position i stands outside the table. The base is a cell of it, so neither difference can wrap.
    fn outside(self, i: usize, j: usize) -> bool
        requires { (i < 4096) × (j < 4) }
        ensures { result ≡ Outside self.len (cell_of self.descriptor i j) }
    {
        let away = offset(self.descriptor, i, j);
        let base = self.descriptor.base;
        (base < 0 - away) | (self.len - base <= away)
    }

    // Whether one of n positions has a cell outside the table. The ends of the first row and of the last decide it: a cell of the rows stands between them.
    fn any_outside(self, n: usize) -> bool
        requires { (0 < n) × (n ≤ 4096) }
        ensures { result ≡ any (row_outside self.len self.descriptor) (positions n) }
    {
        let last = n - 1;
        self.outside(0, 3) | self.outside(last, 0) | self.outside(last, 3)
    }

    // The first coordinate of position i that stands outside the table.
    fn first_in_row(self, i: usize) -> Option<usize>
        requires { i < 4096 }
        ensures { Found (λ j. Outside self.len (cell_of self.descriptor i j)) 4 result }
    {
        for j in 0..4 {
            if self.outside(i, j) {
                return Some(j);
            }
        }
        None
    }

    // The first of n positions that has a cell outside the table. The positions are gone through only where there is one.
    fn first_row(self, n: usize) -> Option<usize>
        requires { (0 < n) × (n ≤ 4096) }
        ensures { Found (row_outside self.len self.descriptor) n result }
    {
        if !self.any_outside(n) {
            return None;
        }
        for i in 0..n {
            if self.first_in_row(i).is_some() {
                return Some(i);
            }
        }
        None
    }
}

/// Where a cell stands.
#[derive(Clone, Copy, Debug, PartialEq, Eq)]
pub struct Place {
    pub position: usize,
    pub coordinate: usize,
}

/// The first addressed cell outside a table of len cells, by position and then by coordinate.
pub fn first_outside(len: i64, descriptor: Descriptor) -> Option<Place>
    requires { ((bad_extent descriptor.extent).given ≡ false) × ((bad_strides descriptor).given ≡ false) }
    ensures answer { bad_cells len descriptor ≡ outside_at result }
    ensures within { IfSome result (λ place. (place.position < size_of descriptor) × (place.position < 4096) × (place.coordinate < 4)) }
{
    let n = count(descriptor);
    if n == 0 {
        return None;
    }
    if bad_base(len, descriptor) {
        return Some(Place {
            position: 0,
            coordinate: 0,
        });
    }
    let table = Based { len, descriptor };
    let position = table.first_row(n)?;
    let coordinate = table.first_in_row(position)?;
    Some(Place {
        position,
        coordinate,
    })
}

/// Answer 12.
pub fn bad_cells(len: i64, descriptor: Descriptor) -> bool
    requires { ((bad_extent descriptor.extent).given ≡ false) × ((bad_strides descriptor).given ≡ false) }
    ensures { result ≡ (bad_cells len descriptor).given }
{
    first_outside(len, descriptor).is_some()
}

// ---- one cell

/// The cell of coordinate j of position i.
// Kept: a coordinate goes by its number, 0 to 3: C passes it so (`kalinosz_cell`), and its cell is counted from it.
pub fn cell(descriptor: Descriptor, i: usize, j: usize) -> i64
    requires { (i < 4096) × (j < 4) × ((bad_strides descriptor).given ≡ false) × SFits w64 (cell_of descriptor i j) }
    ensures value { result ≡ cell_of descriptor i j }
    ensures fits { SFits w64 result }
{
    let away = offset(descriptor, i, j);
    let base = descriptor.base;
    base + away
}

// ---- refusals 5 and 6

pub fn far_off(segment: Segment) -> bool
    ensures { result ≡ far_off segment }
{
    let x1 = coordinate_fits(segment.x1);
    let y1 = coordinate_fits(segment.y1);
    let x2 = coordinate_fits(segment.x2);
    let y2 = coordinate_fits(segment.y2);
    !(x1 & y1 & x2 & y2)
}

pub fn slanted(segment: Segment) -> bool
    ensures { result ≡ Slanted segment }
{
    let level = segment.y1 == segment.y2;
    let upright = segment.x1 == segment.x2;
    !level & !upright
}

// Where the cells of a stride begin, of 0 to last: at the last where the stride is negative.
fn low_end(stride: i64, last: usize) -> usize
    ensures { result ≡ low_end stride last }
{
    if stride < 0 { last } else { 0 }
}

fn beyond(coordinate: i32) -> bool
    ensures { result ≡ not (coordinate_fits coordinate) }
{
    !(-536870912..=536870912).contains(&coordinate)
}

// Whether a cell is beyond the limits of a coordinate. No branch, the cells in a row and not widened: the loop takes several at a time.
fn any_beyond(cells: &[i32]) -> bool
    ensures { result ≡ any (λ k. not (coordinate_fits (get_or cells.now k (pos 0)))) (positions (length cells.now)) }
{
    let mut bad = false;
    for coordinate in cells {
        bad |= beyond(*coordinate);
    }
    bad
}

// ---- a table that may be read

/// A table that refusals 3, 4 and 12 pass: every cell that its descriptor addresses is there.
#[derive(Clone, Copy)]
pub struct Table<'a> {
    pub cells: &'a [i32],
    pub descriptor: Descriptor,
    pub ghost held: { Held (pos (length cells.now)) descriptor },
}

impl Table<'_> {
    /// How many segments there are.
    pub fn count(self) -> usize
        ensures { (result ≡ size_of self.entry.descriptor) × (result ≤ 4096) }
    {
        count(self.descriptor)
    }

    /// The cell of coordinate j of position i as an index: it is shown to be one of the table's.
    pub fn index(self, i: usize, j: usize) -> usize
        requires { (i < size_of self.descriptor) × (j < 4) }
        ensures { (pos result ≡ cell_of self.entry.descriptor i j) × (result ≡ to_nat (cell_of self.entry.descriptor i j)) × (result < length self.entry.cells.now) }
    {
        cell(self.descriptor, i, j) as usize
    }

    /// Coordinate j of position i.
    pub fn coordinate(self, i: usize, j: usize) -> i64
        requires { (i < size_of self.descriptor) × (j < 4) }
        ensures value { result ≡ get_or self.entry.cells.now (to_nat (cell_of self.entry.descriptor i j)) (pos 0) }
        ensures fits { SFits w64 result }
    {
        i64::from(self.cells[self.index(i, j)])
    }

    pub fn segment(self, i: usize) -> Segment
        requires { i < size_of self.descriptor }
        ensures { result ≡ segment_of self.entry.descriptor self.entry.cells.now i }
    {
        Segment {
            x1: self.coordinate(i, 0),
            y1: self.coordinate(i, 1),
            x2: self.coordinate(i, 2),
            y2: self.coordinate(i, 3),
        }
    }

    // Whether a segment has a fault. No branch in the loop: the common case is that none has.
    fn any_fault<F: Fn(Segment) -> bool>(self, fault: &F) -> bool
        requires { F.IsAlwaysCallable fault.now }
        ensures { (q : _ → Bool) → Tells (F.post fault.now) self.entry.descriptor self.entry.cells.now q → result ≡ any (λ p. q (segment_of self.entry.descriptor self.entry.cells.now p)) (positions (size_of self.entry.descriptor)) }
    {
        let mut bad = false;
        for i in 0..self.count() {
            bad |= fault(self.segment(i));
        }
        bad
    }

    // The first position whose segment has a fault. The positions are gone through one by one only where there is one.
    fn first_fault<F: Fn(Segment) -> bool>(self, fault: F) -> Option<usize>
        requires { F.IsAlwaysCallable fault }
        ensures { (q : _ → Bool) → Tells (F.post fault) self.entry.descriptor self.entry.cells.now q → Found (λ p. q (segment_of self.entry.descriptor self.entry.cells.now p)) (size_of self.entry.descriptor) result }
    {
        if !self.any_fault(&fault) {
            return None;
        }
        for i in 0..self.count() {
            if fault(self.segment(i)) {
                return Some(i);
            }
        }
        None
    }

    // Whether the cells stand among at most 8 cells to a position, of which none is beyond the limits. Then no coordinate is; otherwise one may be.
    fn all_near(self) -> bool
        requires { 0 < size_of self.descriptor }
        ensures { result ≡ true → any (λ p. far_off (segment_of self.entry.descriptor self.entry.cells.now p)) (positions (size_of self.entry.descriptor)) ≡ false }
    {
        let n = self.count();
        let last = n - 1;
        let i = low_end(self.descriptor.segment_stride, last);
        let j = low_end(self.descriptor.coordinate_stride, 3);
        let first = self.index(i, j);
        let end = self.index(last - i, 3 - j);
        let m = end - first + 1;
        if 8 * n < m {
            return false;
        }
        !any_beyond(&self.cells[first..first + m])
    }

    /// The first position with a coordinate beyond its limits.
    pub fn first_far(self) -> Option<usize>
        ensures answer { bad_coordinate (segments_of self.entry.descriptor self.entry.cells.now) ≡ sought 5 result }
        ensures found { Found (λ p. far_off (segment_of self.entry.descriptor self.entry.cells.now p)) (size_of self.entry.descriptor) result }
        ensures within { IfSome result (λ p. p < size_of self.entry.descriptor) }
    {
        if self.count() == 0 {
            return None;
        }
        // The common case: the cells stand close together, and all of them from the first to the last are within the limits.
        if self.all_near() {
            return None;
        }
        self.first_fault(far_off)
    }

    /// The first position whose segment is neither horizontal nor vertical.
    pub fn first_slanted(self) -> Option<usize>
        ensures answer { bad_slant (segments_of self.entry.descriptor self.entry.cells.now) ≡ sought 6 result }
        ensures found { Found (λ p. Slanted (segment_of self.entry.descriptor self.entry.cells.now p)) (size_of self.entry.descriptor) result }
        ensures within { IfSome result (λ p. p < size_of self.entry.descriptor) }
    {
        self.first_fault(slanted)
    }
}

// ---- words of an index

/// L(n): the count of binary digits.
pub fn digits(n: usize) -> usize
    ensures { result ≡ L n }
{
    (usize::BITS - n.leading_zeros()) as usize
}

/// W(n).
pub fn words(n: usize) -> usize
    requires { n ≤ 4096 }
    ensures { (result ≡ W n) × (result ≤ 155652) }
{
    if n == 0 {
        return 4;
    }
    let levels = digits(n - 1) + 1;
    4 + 4 * n + 2 * n * levels + 8 * n
}
