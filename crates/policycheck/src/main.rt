// Reads a policy text from standard input and writes the report on it.
#![tactic(auto)]

use std::io;

fn main(rt: HostRuntime) -> io::Result<()> {
    input::write_report(&rt, [0u8; 640], |text, out| checking::report_on(text, out))
}
