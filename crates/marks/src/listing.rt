// Answer 7 of a scan; and the numbers of a walk, from where it listed them into the cells lent.
ghost use Rattle.std.specs.Prelude.{◌≡◌, [], ◌∷◌, false, ◌<◌, ◌≤◌, length, IfErr};
ghost use Rattle.paper.specs.Descriptor.{size_of};
ghost use Rattle.paper.specs.Answers.{bad_room};
ghost use Rattle.paper.specs.Results.{over, numbers_of, queried};
ghost use Rattle.paper.specs.Walk.{word, walk_of};
ghost use Rattle.promise.specs.Calls.{listed_in};
ghost use Rattle.refusals.specs.Orders.{reply_of, Carried, Decided};
ghost use Rattle.scan.specs.Listing.{Ready, met_positions};
ghost use Rattle.marks.specs.Querying.{Due};

use meeting::Frame;
use paper::Reply;
use refusals::Refusal;
use table::Table;
use walk::IndexWords;

// Answer 7 of a scan into so many cells. Where there is a cell for each segment they hold any numbers, and none need be counted.
pub fn of_room(table: Table<'_>, frame: Frame, lent: usize) -> Result<(), Refusal>
    requires { Ready table.cells.now table.descriptor }
    ensures { Decided (bad_room (length (met_positions table.entry.cells.now table.entry.descriptor frame.window)) lent ∷ []) result }
{
    if table.count() <= lent {
        return Ok(());
    }
    let due = scan::due(table, frame);
    if lent < due {
        return Err(Refusal::Room(due));
    }
    Ok(())
}

// The `due` numbers of a walk into the first cells: from the room that it was walked into where that holds them all, else by a second walk.
fn write(index: IndexWords<'_>, frame: Frame, room: &[i32], numbers: &mut [i32], due: usize)
    requires { Due index.words.now frame.window room.now due × (due ≤ length numbers.old) }
    ensures { numbers.new ≡ over (numbers_of (word index.entry.words.now 1) (listed_in (walk_of index.entry.words.now frame.window))) numbers.old }
{
    if due <= room.len() {
        numbers[..due].copy_from_slice(&room[..due]);
        return;
    }
    // This walk is not spoiled: the first was not.
    let _ = index.walk(frame.window, numbers);
}

// What a query over an index gives for a window, in a room of N cells of the call's own: the walk lists into the room, and what it lists is judged before a
// cell that was lent changes.
fn in_room<const N: usize>(
    index: IndexWords<'_>,
    frame: Frame,
    numbers: &mut [i32],
) -> Result<Reply, Refusal>
    requires { N ≤ 2048 }
    ensures given { (reply_of result, numbers.new) ≡ queried index.entry.words.now frame.window numbers.old }
    ensures carried { IfErr result Carried }
{
    let mut room = [0i32; N];
    let Ok(tally) = index.walk(frame.window, &mut room) else {
        return Err(Refusal::Spoiled(0));
    };
    let due = tally.listed;
    if numbers.len() < due {
        return Err(Refusal::Room(due));
    }
    write(index, frame, &room, numbers, due);
    Ok(refusals::done(due, tally.visits))
}

// The same in a room that suits. A small index or few cells lent have a small one, since clearing it takes time.
pub fn answer(index: IndexWords<'_>, frame: Frame, numbers: &mut [i32]) -> Result<Reply, Refusal>
    ensures given { (reply_of result, numbers.new) ≡ queried index.entry.words.now frame.window numbers.old }
    ensures carried { IfErr result Carried }
{
    let most = index.count().min(numbers.len());
    if most <= 256 {
        return in_room::<256>(index, frame, numbers);
    }
    if most <= 1024 {
        return in_room::<1024>(index, frame, numbers);
    }
    in_room::<2048>(index, frame, numbers)
}
