// Tables as well-known text (request E3), the public calls: `read` fills cells from a text, `write` spells a table. No call asks anything of its input: bad input
// gets its answer number and leaves every cell or byte as it was.
#![tactic(auto)]

ghost use Rattle.std.specs.Prelude.{◌≡◌, ◌<◌, pos, length, IfErr};
ghost use Rattle.paper.specs.Descriptor.{segments_of};
ghost use Rattle.paper.specs.Wkt.{Read, written, ReadsBack, new_text};
ghost use Rattle.refusals.specs.Orders.{reply_of, Carried};
ghost use Rattle.wkt_table.specs.Writing.{GivenText};

use paper::{Descriptor, Reply};
use refusals::Refusal;

// The cells from 0 become x1 y1 x2 y2 of each line; order 13, 3, 5, 7. Count is how many lines there are.
pub fn read(text: &[u8], cells: &mut [i32]) -> Reply
    ensures { Read text.now cells.old (result, cells.new) }
{
    tabled(text, cells).unwrap_or_else(Reply::from)
}

fn tabled(text: &[u8], cells: &mut [i32]) -> Result<Reply, Refusal>
    ensures read { Read text.now cells.old (reply_of result, cells.new) }
    ensures carried { IfErr result Carried }
{
    let tally = match wkt_read::judge(text) {
        Ok(tally) => tally,
        Err(place) => return Err(Refusal::Text(place)),
    };
    let n = tally.numbers / 4;
    if table::bad_extent(whole::count(n)) {
        return Err(Refusal::Extent);
    }
    let far = tally.fitting < tally.numbers;
    if far {
        return Err(Refusal::Far(tally.fitting / 4));
    }
    if cells.len() < tally.numbers {
        return Err(Refusal::Room(0));
    }
    wkt_read::fill(text, cells);
    Ok(refusals::done(n, 0))
}

// The first bytes become the table's one spelling; order 1, 2, 3, 4, 12, 5, 7. Count is how many bytes there are.
// Answer 0 promises that reading these bytes gives the table's coordinates.
pub fn write(table: &[i32], descriptor: Descriptor, text: &mut [u8]) -> Reply
    ensures text_after { (result, text.new) ≡ written table.now descriptor text.old }
    ensures promise { result.number ≡ pos 0 → ReadsBack (new_text (result, text.new)) (segments_of descriptor table.now) }
{
    spelled(table, descriptor, text).unwrap_or_else(Reply::from)
}

fn spelled(cells: &[i32], descriptor: Descriptor, text: &mut [u8]) -> Result<Reply, Refusal>
    ensures given { GivenText cells.now descriptor text.old (reply_of result, text.new) }
    ensures carried { IfErr result Carried }
{
    let table = refusals::of_table(cells, descriptor)?;
    refusals::of_coordinates(table)?;
    let width = wkt_write::text_width(table);
    if text.len() < width {
        return Err(Refusal::Room(0));
    }
    let count = wkt_write::put_text(text, table);
    Ok(refusals::done(count, 0))
}
