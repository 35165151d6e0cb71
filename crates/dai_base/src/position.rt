ghost use Rattle.std.specs.Prelude.{◌≤◌, length, take};
ghost use Rattle.dai_base.specs.Place.{IsPlaceAfter};

use crate::fault::Place;

/// The place of the byte with the index `at` in a file, or of its end. The line is 1 plus the number of line
/// feeds before it, and the column 1 plus the number of bytes since the last of them.
pub fn place(bytes: &[u8], at: u32) -> Place
    requires short { length bytes.now ≤ 1048576 }
    requires inside { at ≤ length bytes.now }
    ensures { IsPlaceAfter (take at bytes.now) result }
{
    let mut line = 1;
    let mut column = 1;
    for byte in &bytes[..at as usize] {
        if *byte == b'\n' {
            line += 1;
            column = 1;
        } else {
            column += 1;
        }
    }
    Place { line, column }
}
