// Whether a segment meets a window: the box comparison first and apart, then the window's four corners weighed against the segment's line.
// A caller makes a `Frame` of the window (answer 8) and tests the segment's limits (answer 5) first.
#![tactic(auto)]

ghost use Rattle.std.specs.Prelude.{◌≡◌, true, false, ◌&&◌, ◌↔◌, pos, IsSome, IfSome};
ghost use Rattle.std.specs.Int.Signed.{le_z};
ghost use Rattle.paper.specs.Corners.{overlaps, weight as Weight, weighed};
ghost use Rattle.paper.specs.Meeting.{Meets};
ghost use Rattle.paper.specs.Answers.{bad_window, far_off};
ghost use Rattle.meeting.specs.Bounds.{Small, Near, SmallPoints, corners};
ghost use Rattle.meeting.specs.Sides.{both_sides};

use paper::{Segment, Window};
use table::coordinate_fits;

/// Answer 8.
pub fn bad_window(window: Window) -> bool
    ensures { result ≡ (bad_window window).given }
{
    let a = coordinate_fits(window.a);
    let b = coordinate_fits(window.b);
    let c = coordinate_fits(window.c);
    let d = coordinate_fits(window.d);
    (window.b < window.a) | (window.d < window.c) | !(a & b & c & d)
}

/// A window that answer 8 passes: its edges are within the limits and in their order.
#[derive(Clone, Copy)]
pub struct Frame {
    pub window: Window,
    pub ghost good: { (bad_window window).given ≡ false },
}

impl Frame {
    /// None where answer 8 is given.
    pub fn new(window: Window) -> Option<Frame>
        ensures some { IsSome result ↔ ((bad_window window).given ≡ false) }
        ensures value { IfSome result (λ frame. frame.window ≡ window) }
    {
        if bad_window(window) {
            return None;
        }
        Some(Frame { window })
    }
}

// ---- the boxes

// How far the edges lo..hi and the ends u1, u2 are from each other on one axis; 0 or less where they overlap.
fn gap(lo: i64, hi: i64, u1: i64, u2: i64) -> i64
    requires { Small lo × Small hi × Small u1 × Small u2 }
    ensures { le_z result (pos 0) ≡ overlaps lo hi u1 u2 }
{
    let after = u1.min(u2) - hi;
    let before = lo - u1.max(u2);
    after.max(before)
}

// Whether the boxes overlap on both axes. One number is compared once: comparisons joined by `&` would be as many branches.
fn boxes_overlap(segment: Segment, frame: Frame) -> bool
    requires { Near segment }
    ensures { let window = frame.window in result ≡ (overlaps window.a window.b segment.x1 segment.x2 && overlaps window.c window.d segment.y1 segment.y2) }
{
    let window = frame.window;
    let across = gap(window.a, window.b, segment.x1, segment.x2);
    let along = gap(window.c, window.d, segment.y1, segment.y2);
    across.max(along) <= 0
}

// ---- the corners

// The weight of the point (x, y) against the segment's line: its sign is the side.
fn weight(segment: Segment, x: i64, y: i64) -> i64
    requires { Near segment × Small x × Small y }
    ensures { result ≡ Weight segment x y }
{
    (segment.x2 - segment.x1) * (y - segment.y1) - (segment.y2 - segment.y1) * (x - segment.x1)
}

// low-left, low-right, high-left, high-right
fn corners(frame: Frame) -> [[i64; 2]; 4]
    ensures { let window = frame.window in result ≡ corners window.a window.b window.c window.d }
{
    let window = frame.window;
    [
        [window.a, window.c],
        [window.b, window.c],
        [window.a, window.d],
        [window.b, window.d],
    ]
}

// Whether the corners are not all strictly on one side of the segment's line.
fn both_sides(segment: Segment, corners: [[i64; 2]; 4]) -> bool
    requires { Near segment × SmallPoints corners }
    ensures { result ≡ both_sides segment corners 4 }
{
    let mut above = false;
    let mut below = false;
    for corner in corners {
        let side = weight(segment, corner[0], corner[1]);
        above |= 0 <= side;
        below |= side <= 0;
    }
    above & below
}

// ---- the whole

/// Whether a segment within the limits meets a window.
pub fn meets(segment: Segment, frame: Frame) -> bool
    requires { far_off segment ≡ false }
    ensures { (result ≡ weighed frame.window segment) × ((result ≡ true) ↔ Meets segment frame.window) }
{
    boxes_overlap(segment, frame) && both_sides(segment, corners(frame))
}
