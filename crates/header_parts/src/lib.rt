// Parts of a header's table, eight rows each, and eight values put into a header's list of values. FORMAT, "The record".
#![tactic(auto)]

ghost use Rattle.std.specs.Prelude.{◌≡◌, ◌≤◌, ℕ, List};
ghost use Rattle.fields.specs.declared.Field.{Field};
ghost use Rattle.header_parts.specs.Parts.{placed};

use fields::Field;

// A part: its rows, and the place of the first one's value, from which on a header's 48 values have room for eight.
// Users name the eight places: by `for`, `zip` or `map` a header took 360 to 600 ns to read, so 30; to write 530, so 126.
pub trait Part {
    const ROWS: [Field; 8];

    ghost ROWS: { List Field };

    const AT: u16;

    ghost AT: { ℕ };

    ghost within: { AT ≤ 40 };
}

// The values of a part go to the places from `at` on; one past the end of the list is dropped.
// By index: with `values.iter_mut().skip(at).zip(part)` a header took 286 ns to read, so 35.
pub fn place(values: &mut [u64], at: u16, part: [u64; 8])
    ensures { values.new ≡ placed 0 8 at part values.old }
{
    for (k, value) in part.iter().enumerate() {
        let place = at as usize + k;
        if place < values.len() {
            values[place] = *value;
        }
    }
}
