// Reads each text of the file `cases` and writes the case's name with the number and the line that reading it answers.
// A case is a name filled up with spaces to 40 bytes, a length in 7 digits, a line end, and then the text.
#![tactic(auto)]

use script::{FILE, Lines, load, number_in, word};
use std::io;

// So many cases are read at most.
const CASES: u32 = 1000;

// The number and the line that reading a text answers.
fn answer_to(text: &[u8]) -> (u32, u32) {
    match reader::read(text) {
        Ok(_) => (0, 0),
        Err(refusal) => (refusal.number(), refusal.line()),
    }
}

fn read_cases(rt: &impl Print, file: &[u8]) -> io::Result<()> {
    let mut lines = Lines { rest: file };
    for _ in 0..CASES {
        let Some(header) = lines.next() else {
            break;
        };
        let (number, line) = answer_to(lines.bytes(number_in(header, 1) as usize));
        rt.write_all(word(header, 0))?;
        println!(rt; "\t{number}\t{line}")?;
    }
    Ok(())
}

fn main(rt: HostRuntime) -> io::Result<()> {
    let mut space = vec![in rt.alloc(); 0; FILE]?;
    let n = load(&rt, b"cases", &mut space)?;
    read_cases(&rt, &space[..n])
}
