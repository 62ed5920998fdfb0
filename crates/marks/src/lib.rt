// The public calls over lent buffers. No call asks anything of its input: bad input gets its answer number and leaves every cell as it was.
#![tactic(auto)]

ghost use Rattle.std.specs.Prelude.{◌≡◌, [], ◌∷◌, pos, IfOk, IfErr};
ghost use Rattle.paper.specs.Answers.{bad_coordinate, bad_slant};
ghost use Rattle.paper.specs.Descriptor.{first_number, segments_of};
ghost use Rattle.paper.specs.Results.{Scanned, built, queried};
ghost use Rattle.paper.specs.Demands.{ScanPromise, IndexOf, QueryPromises};
ghost use Rattle.refusals.specs.Orders.{reply_of, Carried, Decided};
ghost use Rattle.marks.specs.Scanning.{GivenScan};
ghost use Rattle.marks.specs.Building.{GivenBuild};
ghost use Rattle.marks.specs.Querying.{GivenQuery};

use paper::{Descriptor, Reply, Window};
use records::Straight;
use refusals::Refusal;
use table::Table;
use walk::IndexWords;

mod listing;

// The numbers of the segments that meet a window, ascending, into the first cells; order 1, 2, 3, 4, 12, 8, 5, 7.
// Answer 0 promises that the number of each meeting segment is listed once, that nothing else is, and that the numbers ascend.
// They are counted first only where the cells may not hold them, so that no refusal has changed a cell.
pub fn scan(table: &[i32], descriptor: Descriptor, window: Window, numbers: &mut [i32]) -> Reply
    ensures scanned { Scanned table.now descriptor window numbers.old (result, numbers.new) }
    ensures promise { result.number ≡ pos 0 → ScanPromise table.now descriptor window (result, numbers.new) }
{
    scanned(table, descriptor, window, numbers).unwrap_or_else(Reply::from)
}

fn scanned(
    cells: &[i32],
    descriptor: Descriptor,
    window: Window,
    numbers: &mut [i32],
) -> Result<Reply, Refusal>
    ensures given { GivenScan cells.now descriptor window numbers.old (reply_of result, numbers.new) }
    ensures carried { IfErr result Carried }
{
    let table = refusals::of_table(cells, descriptor)?;
    let frame = refusals::of_window(window)?;
    refusals::of_coordinates(table)?;
    listing::of_room(table, frame, numbers.len())?;
    let count = scan::list(table, frame, numbers);
    Ok(refusals::done(count, 0))
}

// Answers 5 and 6: the table as one of horizontal and vertical segments.
fn straight(table: Table<'_>) -> Result<Straight<'_>, Refusal>
    ensures decided { Decided (bad_coordinate (segments_of table.entry.descriptor table.entry.cells.now) ∷ bad_slant (segments_of table.entry.descriptor table.entry.cells.now) ∷ []) result }
    ensures marks { IfOk result (λ marks. (marks.cells.now ≡ table.entry.cells.now) × (marks.descriptor ≡ table.entry.descriptor)) }
{
    if let Some(far) = table.first_far() {
        return Err(Refusal::Far(far));
    }
    if let Some(slanted) = table.first_slanted() {
        return Err(Refusal::Slanted(slanted));
    }
    Ok(Straight {
        cells: table.cells,
        descriptor: table.descriptor,
    })
}

// The words of the index of a table of horizontal and vertical segments, into the first words; order 1, 2, 3, 4, 12, 7, 5, 6.
// Answer 0 promises that the words are the index of the table's segments, whatever stands after them: what a query asks.
pub fn build(table: &[i32], descriptor: Descriptor, index: &mut [i32]) -> Reply
    ensures index_after { (result, index.new) ≡ built table.now descriptor index.old }
    ensures promise { result.number ≡ pos 0 → IndexOf (first_number descriptor.kind descriptor.lower) (segments_of descriptor table.now) index.new }
{
    built(table, descriptor, index).unwrap_or_else(Reply::from)
}

fn built(cells: &[i32], descriptor: Descriptor, index: &mut [i32]) -> Result<Reply, Refusal>
    ensures given { GivenBuild cells.now descriptor index.old (reply_of result, index.new) }
    ensures carried { IfErr result Carried }
{
    let table = refusals::of_table(cells, descriptor)?;
    let n = table.count();
    let words = table::words(n);
    if index.len() < words {
        return Err(Refusal::Room(0));
    }
    let marks = straight(table)?;
    builder::build_words(marks, index);
    Ok(refusals::done(words, 0))
}

// The numbers that the walk of an index lists for a window, into the first cells; order 9, 8, 10, 7.
// Words that are an index of a table's segments and a good window promise each meeting segment's number once and no other, and few visits; where the cells
// do not hold them, answer 7 and how many they are. The walk lists into a room of its own first, so that no refusal has changed a cell.
pub fn query(words: &[i32], window: Window, numbers: &mut [i32]) -> Reply
    ensures numbers_after { (result, numbers.new) ≡ queried words.now window numbers.old }
    ensures promise { QueryPromises words.now window numbers.old (result, numbers.new) }
{
    queried(words, window, numbers).unwrap_or_else(Reply::from)
}

fn queried(words: &[i32], window: Window, numbers: &mut [i32]) -> Result<Reply, Refusal>
    ensures given { GivenQuery words.now window numbers.old (reply_of result, numbers.new) }
    ensures carried { IfErr result Carried }
{
    let Some(index) = IndexWords::new(words) else {
        return Err(Refusal::Index);
    };
    let frame = refusals::of_window(window)?;
    listing::answer(index, frame, numbers)
}
