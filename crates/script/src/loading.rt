// A file read whole, as far as there is room.
ghost use Rattle.std.specs.Prelude.{◌≡◌, length, IfOk, OnErr};
ghost use Rattle.input.specs.Counts.{IsPrefixLen};

use std::rt::Files;
use std::{fs, io, str};

// Reads a file, and says so where there may be more of it than there is room for. A file has its name in text: any other
// name is an error, as one that names no file is.
pub fn load(rt: &(impl Files + Print), name: &[u8], out: &mut [u8]) -> io::Result<usize>
    ensures in_bounds { IfOk result (λ n. IsPrefixLen n out.new) }

    // Of the file, or of the line that is shown. The buffer keeps its length, and may hold some of what was read.
    ensures left { OnErr result (length out.new ≡ length out.old) }
{
    let Ok(path) = str::from_utf8(name) else {
        return Err(io::Error::from(io::ErrorKind::InvalidFilename));
    };
    let mut file = fs::open(rt, path)?;
    let n = input::read_full(&mut file, out)?;
    if n == out.len() {
        println!(rt; "too long: WRONG")?;
    }
    Ok(n)
}
