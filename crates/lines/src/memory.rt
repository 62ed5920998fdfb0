// The memory of a reading, lent by the caller. The program has no heap: whoever reads decides where the memory lies.
#![tactic(auto)]

ghost use Rattle.std.specs.Prelude.{◌≡◌};
ghost use Rattle.lines.specs.Buffers.{Buffers};

/// What is lent to a reading: the table's cells, the words of its index, the numbers of an answer, and the bytes of a line carried over from the chunks before.
/// Of each there are as many as an input can need: four cells and a number for each of 256 segments, the words of their index, and the 80 bytes of a line.
#[derive(Drop)]
pub struct Desk<'a> {
    pub cells: &'a mut [i32],
    pub index: &'a mut [i32],
    pub numbers: &'a mut [i32],
    pub carry: &'a mut [u8],
    pub ghost lengths: { Buffers cells.now index.now numbers.now carry.now },
}

impl<'a> Desk<'a> {
    ghost use Rattle.lines.specs.States.{Blank};

    /// A desk over lent memory, with nothing on it.
    pub fn new(
        cells: &'a mut [i32],
        index: &'a mut [i32],
        numbers: &'a mut [i32],
        carry: &'a mut [u8],
    ) -> Desk<'a>
        requires { Buffers cells.old index.old numbers.old carry.old }
        ensures blank { Blank result }
        ensures lent { (result.cells.ghost_name ≡ cells.entry.ghost_name) × (result.index.ghost_name ≡ index.entry.ghost_name) × (result.numbers.ghost_name ≡ numbers.entry.ghost_name) × (result.carry.ghost_name ≡ carry.entry.ghost_name) }
    {
        cells.fill(0);
        index.fill(0);
        numbers.fill(0);
        carry.fill(0);
        Desk {
            cells,
            index,
            numbers,
            carry,
        }
    }
}
