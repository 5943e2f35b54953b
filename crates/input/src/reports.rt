// What the programs for policies do: read a text, and write a report of it.
ghost use Rattle.std.specs.Prelude.{◌≡◌, ◌≤◌, length};

use crate::read_full;
use std::convert::AsSlice;
use std::io;

// One byte past the longest text is enough to see that a text is too long.
const ROOM: usize = 16385;

// Writes the report of the text on standard input, which `report` puts at the start of a buffer.
pub fn write_report<R: Input + Print, B: AsSlice<u8> + Drop, F: FnOnce(&[u8], &mut B) -> usize>(
    rt: &R,
    mut out: B,
    report: F,
) -> io::Result<()>
    requires callable { F.IsAlwaysCallable report }

    // What the report answers is how many bytes it wrote, so they are there.
    requires fits { (text : _) (given : _) (n : _) (left : _) → given.now ≡ out → F.post report text given n left → n ≤ length (B.items left.now) }
{
    let mut text = [0u8; ROOM];
    let n = read_full(&mut rt.reader(), &mut text)?;
    let m = report(&text[..n], &mut out);
    rt.write_all(&out.as_slice()[..m])
}
