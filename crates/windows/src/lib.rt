// Many windows of one index in one call (request E5). Nothing is asked of the input: bad input gets its answer number and leaves every lent cell as it was.
#![tactic(auto)]

ghost use Rattle.std.specs.Prelude.{◌≡◌, false, ◌*◌, ◌+◌, ◌<◌, ◌≤◌, length, IfOk, IfErr, IsSome, IfSome, ◌↔◌};
ghost use Rattle.paper.specs.Answers.{bad_slice, bad_window, bad_windows};
ghost use Rattle.paper.specs.Results.{over, queried_many};
ghost use Rattle.paper.specs.Demands.{ManyPromises};
ghost use Rattle.paper.specs.Walk.{word, size_in, walk_of};
ghost use Rattle.paper.specs.Windows.{window_at, window_count};
ghost use Rattle.refusals.specs.Orders.{reply_of, Carried};
ghost use Rattle.windows.specs.Asking.{Onward, Sought, Found};
ghost use Rattle.windows.specs.Outcome.{Kept, counts_due, numbers_due, GivenMany};

use paper::{Reply, Window};
use refusals::Refusal;
use tally::{Spoiled, Tally};
use walk::IndexWords;

// Windows in one slice, four edges each: whole ones, and not too many.
#[derive(Clone, Copy)]
struct Windows<'a> {
    edges: &'a [i64],
    ghost few: { window_count edges.now ≤ 64 },
}

impl<'a> Windows<'a> {
    // None where answer 14 is given, for so many count cells.
    fn new(edges: &'a [i64], lent: usize) -> Option<Windows<'a>>
        ensures some { IsSome result ↔ ((bad_slice edges.now lent).given ≡ false) }
        ensures value { IfSome result (λ windows. windows.edges.now ≡ edges.now) }
    {
        let m = edges.len() / 4;
        if (4 * m != edges.len()) | (64 < m) | (lent < m) {
            return None;
        }
        Some(Windows { edges })
    }

    fn count(self) -> usize
        ensures { (result ≡ window_count self.entry.edges.now) × (result ≤ 64) }
    {
        self.edges.len() / 4
    }

    // The i-th window, from 0.
    fn at(self, i: usize) -> Window
        requires { i < window_count self.edges.now }
        ensures { result ≡ window_at self.entry.edges.now i }
    {
        let at = 4 * i;
        Window {
            a: self.edges[at],
            b: self.edges[at + 1],
            c: self.edges[at + 2],
            d: self.edges[at + 3],
        }
    }

    // The first that answer 8 refuses.
    fn first_bad(self) -> Option<usize>
        ensures { Sought (λ i. (bad_window (window_at self.entry.edges.now i)).given) (window_count self.entry.edges.now) result }
    {
        for i in 0..self.count() {
            if meeting::bad_window(self.at(i)) {
                return Some(i);
            }
        }
        None
    }
}

// The walk of a window into what is left of a room of which others have taken the first cells; where nothing is left it only counts.
fn walk_on(
    index: IndexWords<'_>,
    window: Window,
    room: &mut [i32],
    taken: usize,
) -> Result<Tally, Spoiled>
    ensures onward { Onward (size_in index.entry.words.now) (word index.entry.words.now 1) room.old taken (walk_of index.entry.words.now window) result room.new }
    ensures few { IfOk result (λ t. t.visits ≤ 6 * size_in index.entry.words.now) }
{
    let start = taken.min(room.len());
    index.walk(window, &mut room[start..])
}

// The windows in turn, each into what those before it have left of the room: how many numbers they list together and in how many visits. An error says
// which is the first whose walk is spoiled.
fn ask(
    index: IndexWords<'_>,
    windows: Windows<'_>,
    counts: &mut [i32],
    room: &mut [i32],
) -> Result<Tally, usize>
    requires counts_enough { window_count windows.edges.now ≤ length counts.old }
    ensures { Found index.entry.words.now windows.entry.edges.now (window_count windows.entry.edges.now) counts.old room.old result counts.new room.new }
{
    let mut all = Tally {
        listed: 0,
        visits: 0,
    };
    for i in 0..windows.count() {
        let Ok(tally) = walk_on(index, windows.at(i), room, all.listed) else {
            return Err(i);
        };
        counts[i] = records::as_word(tally.listed);
        all.listed += tally.listed;
        all.visits += tally.visits;
    }
    Ok(all)
}

// What was found, into the cells lent: copied where the room has held all the numbers, else by asking a second time.
fn write(
    index: IndexWords<'_>,
    windows: Windows<'_>,
    kept: &[i32],
    room: &[i32],
    due: usize,
    counts: &mut [i32],
    numbers: &mut [i32],
)
    requires kept { Kept index.words.now windows.edges.now (window_count windows.edges.now) kept.now room.now due }
    requires fits { (window_count windows.edges.now ≤ length counts.old) × (due ≤ length numbers.old) }
    ensures counts_after { counts.new ≡ over (counts_due index.entry.words.now windows.entry.edges.now (window_count windows.entry.edges.now)) counts.old }
    ensures numbers_after { numbers.new ≡ over (numbers_due index.entry.words.now windows.entry.edges.now (window_count windows.entry.edges.now)) numbers.old }
{
    if due <= room.len() {
        let m = windows.count();
        counts[..m].copy_from_slice(&kept[..m]);
        numbers[..due].copy_from_slice(&room[..due]);
        return;
    }
    // No walk is spoiled: it was asked before.
    let _ = ask(index, windows, counts, numbers);
}

// What the call gives where 9, 14 and 8 refuse nothing. The windows list into a room of its own first, so that no refusal has changed a cell.
fn answer(
    index: IndexWords<'_>,
    windows: Windows<'_>,
    counts: &mut [i32],
    numbers: &mut [i32],
) -> Result<Reply, Refusal>
    requires { ((bad_slice windows.edges.now (length counts.old)).given ≡ false) × ((bad_windows windows.edges.now).given ≡ false) }
    ensures given { (reply_of result, counts.new, numbers.new) ≡ queried_many index.entry.words.now windows.entry.edges.now counts.old numbers.old }
    ensures carried { IfErr result Carried }
{
    // No window is asked: the rooms need not be cleared, which would be all of the time.
    if windows.count() == 0 {
        return Ok(refusals::done(0, 0));
    }
    let mut kept = [0i32; 64];
    let mut room = [0i32; 8192];
    let asked = match ask(index, windows, &mut kept, &mut room) {
        Ok(asked) => asked,
        Err(window) => return Err(Refusal::Spoiled(window)),
    };
    let due = asked.listed;
    if numbers.len() < due {
        return Err(Refusal::Room(due));
    }
    write(index, windows, &kept, &room, due, counts, numbers);
    Ok(refusals::done(due, asked.visits))
}

// The single queries of the windows in a slice, joined: one count for each into the count cells, the numbers one after another into the number cells;
// order 9, 14, 8, 10, 7. Words that are an index of a table's segments promise each window what a single query does.
pub fn query(words: &[i32], edges: &[i64], counts: &mut [i32], numbers: &mut [i32]) -> Reply
    ensures numbers_after { (result, counts.new, numbers.new) ≡ queried_many words.now edges.now counts.old numbers.old }
    ensures promise { ManyPromises words.now edges.now counts.old numbers.old (result, counts.new, numbers.new) }
{
    queried(words, edges, counts, numbers).unwrap_or_else(Reply::from)
}

fn queried(
    words: &[i32],
    edges: &[i64],
    counts: &mut [i32],
    numbers: &mut [i32],
) -> Result<Reply, Refusal>
    ensures given { GivenMany words.now edges.now counts.old numbers.old (reply_of result, counts.new, numbers.new) }
    ensures carried { IfErr result Carried }
{
    let Some(index) = IndexWords::new(words) else {
        return Err(Refusal::Index);
    };
    let Some(windows) = Windows::new(edges, counts.len()) else {
        return Err(Refusal::Slice);
    };
    if let Some(bad) = windows.first_bad() {
        return Err(Refusal::Window(bad));
    }
    answer(index, windows, counts, numbers)
}
