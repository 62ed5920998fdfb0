// What the public calls share: why a call is refused, the tests of a table that stand first in every order over one, and the replies.
#![tactic(auto)]

ghost use Rattle.std.specs.Prelude.{◌≡◌, ◌<◌, pos, IfOk, [], ◌∷◌};
ghost use Rattle.paper.specs.Descriptor.{segments_of};
ghost use Rattle.paper.specs.Answers.{bad_extent, bad_strides, bad_cells, bad_coordinate, bad_window, refused, done as Done};
ghost use Rattle.refusals.specs.Orders.{answer_of, Carried, Decided, table_order};

use meeting::Frame;
use paper::{Descriptor, Reply, Window};
use table::{Place, Table};

/// Why a call is refused, with what its answer returns. README says what a caller does about each.
#[derive(Clone, Copy, Debug, PartialEq, Eq)]
pub enum Refusal {
    /// 1: kind is not 1 to 3.
    Kind,
    /// 2: a lower bound beyond its limits, or kind 3 with one that is not 0.
    Lower,
    /// 3: n beyond its limits.
    Extent,
    /// 4: a stride beyond its limits.
    Strides,
    /// 5: a coordinate beyond its limits, at this position first.
    Far(usize),
    /// 6: a segment neither horizontal nor vertical, at this position first.
    Slanted(usize),
    /// 7: a buffer too short, and how many numbers are due; 0 where a caller knows beforehand how much is asked.
    Room(usize),
    /// 8: a window that is none, and which of many is the first such; 0 where there is one.
    Window(usize),
    /// 9: words that are no index.
    Index,
    /// 10: the walk read a spoiled word, and in which of many windows first; 0 where there is one.
    Spoiled(usize),
    /// 11, C only: no such position or coordinate.
    Nowhere,
    /// 12: an addressed cell outside the table, here first.
    Cells(Place),
    /// 13: a text of another form, and the byte that shows it.
    Text(usize),
    /// 14: a slice that is not of whole windows, or of too many of them.
    Slice,
}

impl Refusal {
    /// The number of its answer.
    pub fn number(self) -> i64
        ensures { result ≡ pos (answer_of self).number }
    {
        match self {
            Refusal::Kind => 1,
            Refusal::Lower => 2,
            Refusal::Extent => 3,
            Refusal::Strides => 4,
            Refusal::Far(_) => 5,
            Refusal::Slanted(_) => 6,
            Refusal::Room(_) => 7,
            Refusal::Window(_) => 8,
            Refusal::Index => 9,
            Refusal::Spoiled(_) => 10,
            Refusal::Nowhere => 11,
            Refusal::Cells(_) => 12,
            Refusal::Text(_) => 13,
            Refusal::Slice => 14,
        }
    }

    /// What its answer returns as count, 0 where it returns none.
    pub fn count(self) -> usize
        ensures { result ≡ (answer_of self).count }
    {
        match self {
            Refusal::Room(due) => due,
            Refusal::Cells(place) => place.coordinate,
            _ => 0,
        }
    }

    /// What its answer returns as position, 0 where it returns none.
    pub fn position(self) -> usize
        ensures { result ≡ (answer_of self).position }
    {
        match self {
            Refusal::Far(position) => position,
            Refusal::Slanted(position) => position,
            Refusal::Window(window) => window,
            Refusal::Spoiled(window) => window,
            Refusal::Cells(first) => first.position,
            Refusal::Text(byte) => byte,
            _ => 0,
        }
    }
}

// A number as a reply carries it. No position, count or byte of lent memory is as great as the last case.
fn carried(n: usize) -> i64
    ensures { n < 9223372036854775808 → result ≡ pos n }
{
    i64::try_from(n).unwrap_or(i64::MAX)
}

impl From<Refusal> for Reply {
    ghost from_gives = { λ refusal reply. Carried refusal → reply ≡ refused (answer_of refusal) };

    fn from(refusal: Refusal) -> Reply {
        Reply {
            number: refusal.number(),
            count: carried(refusal.count()),
            visits: 0,
            position: carried(refusal.position()),
        }
    }
}

// The reply of a call that is done: position 0.
pub fn done(count: usize, visits: usize) -> Reply
    requires { (count < 9223372036854775808) × (visits < 9223372036854775808) }
    ensures { result ≡ Done count visits }
{
    Reply {
        number: 0,
        count: count as i64,
        visits: visits as i64,
        position: 0,
    }
}

// ---- tests along an order

// Answers 3, 4, 12: of a table of len cells.
pub fn of_cells(len: i64, descriptor: Descriptor) -> Result<(), Refusal>
    ensures { Decided (bad_extent descriptor.extent ∷ bad_strides descriptor ∷ bad_cells len descriptor ∷ []) result }
{
    if table::bad_extent(descriptor.extent) {
        return Err(Refusal::Extent);
    }
    if table::bad_strides(descriptor) {
        return Err(Refusal::Strides);
    }
    match table::first_outside(len, descriptor) {
        Some(place) => Err(Refusal::Cells(place)),
        None => Ok(()),
    }
}

// Answers 1, 2, 3, 4, 12: the cells as a table that may be read.
pub fn of_table(cells: &[i32], descriptor: Descriptor) -> Result<Table<'_>, Refusal>
    ensures decided { Decided (table_order cells.now descriptor) result }
    ensures table { IfOk result (λ table. (table.cells.now ≡ cells.now) × (table.descriptor ≡ descriptor)) }
{
    if table::bad_kind(descriptor) {
        return Err(Refusal::Kind);
    }
    if table::bad_lower(descriptor) {
        return Err(Refusal::Lower);
    }
    of_cells(cells.len() as i64, descriptor)?;
    Ok(Table { cells, descriptor })
}

// Answer 5.
pub fn of_coordinates(table: Table<'_>) -> Result<(), Refusal>
    ensures { Decided (bad_coordinate (segments_of table.entry.descriptor table.entry.cells.now) ∷ []) result }
{
    match table.first_far() {
        Some(position) => Err(Refusal::Far(position)),
        None => Ok(()),
    }
}

// Answer 8 of one window.
pub fn of_window(window: Window) -> Result<Frame, Refusal>
    ensures decided { Decided (bad_window window ∷ []) result }
    ensures frame { IfOk result (λ frame. frame.window ≡ window) }
{
    Frame::new(window).ok_or(Refusal::Window(0))
}
