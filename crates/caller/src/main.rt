// A caller's proof: from a build that is done to what a query of its words promises, by the contracts of `marks` alone. Nothing here opens a
// definition of `paper`; `check::expect` takes only what is proved to be true.
#![tactic(auto)]

use paper::{Descriptor, Window};

// Document 01's three marks, its window, and the most number cells that any table asks for.
fn main() {
    let table: [i32; 12] = [0, 2, 6, 2, 4, 0, 4, 5, 9, 9, 9, 9];
    let mut index: [i32; 58] = [0; 58];
    let mut numbers: [i32; 4096] = [0; 4096];
    let window = Window {
        a: 3,
        b: 5,
        c: 1,
        d: 3,
    };
    let built = marks::build(
        &table,
        Descriptor {
            kind: 2,
            base: 0,
            lower: 1,
            extent: 3,
            segment_stride: 4,
            coordinate_stride: 1,
        },
        &mut index,
    );
    if built.number != 0 {
        return;
    }
    if meeting::bad_window(window) {
        return;
    }
    let found = marks::query(&index, window, &mut numbers);
    check::expect(found.number == 0);
}
