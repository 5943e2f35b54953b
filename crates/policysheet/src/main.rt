// Reads a policy text from standard input and writes its sheet.
#![tactic(auto)]

use std::io;

fn main(rt: HostRuntime) -> io::Result<()> {
    input::write_report(&rt, [0u8; 204], |text, out| sheeting::sheet_on(text, out))
}
