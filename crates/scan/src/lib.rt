// The plain scan's listing: the numbers of the segments that meet a window, ascending, into lent cells.
// It asks for input that no answer refuses; the public call, with the refusals, is `marks::scan`.
#![tactic(auto)]

ghost use Rattle.std.specs.Prelude.{◌≡◌, false, ◌<◌, ◌≤◌, length, set};
ghost use Rattle.paper.specs.Descriptor.{first_number, number_of, size_of};
ghost use Rattle.paper.specs.Answers.{bad_lower};
ghost use Rattle.lists.specs.Filling.{filled};
ghost use Rattle.scan.specs.Listing.{Ready, met_positions, met_numbers};

use meeting::Frame;
use paper::Descriptor;
use table::Table;

// The number of position i.
fn number(descriptor: Descriptor, i: usize) -> i32
    requires { (i < 4096) × ((bad_lower descriptor.kind descriptor.lower).given ≡ false) }
    ensures { result ≡ number_of (first_number descriptor.kind descriptor.lower) i }
{
    (table::first_number(descriptor) + i as i64) as i32
}

// z into cell k where there is such a cell.
fn put(numbers: &mut [i32], k: usize, z: i32)
    ensures { numbers.new ≡ set numbers.old k z }
{
    if k < numbers.len() {
        numbers[k] = z;
    }
}

// Kept: `Ready` is a clause and no type: the one call of the scan has it of one table, between its tests and its list, so that a type would be made once and used once.
/// The numbers of the segments that meet the window into the first cells, as far as there are cells; those after keep their values. How many they are.
pub fn list(table: Table, frame: Frame, numbers: &mut [i32]) -> usize
    requires { Ready table.cells.now table.descriptor }
    ensures { (result ≡ length (met_positions table.entry.cells.now table.entry.descriptor frame.window)) × (result ≤ size_of table.entry.descriptor) × (numbers.new ≡ filled (met_numbers table.entry.cells.now table.entry.descriptor frame.window) numbers.old) }
{
    let mut k = 0;
    for i in 0..table.count() {
        let hit = meeting::meets(table.segment(i), frame);
        if hit {
            put(numbers, k, number(table.descriptor, i));
            k += 1;
        }
    }
    k
}

/// How many numbers are due.
pub fn due(table: Table, frame: Frame) -> usize
    requires { Ready table.cells.now table.descriptor }
    ensures { (result ≡ length (met_positions table.entry.cells.now table.entry.descriptor frame.window)) × (result ≤ size_of table.entry.descriptor) }
{
    list(table, frame, &mut [])
}
