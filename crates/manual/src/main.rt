// Checks the examples of the manuals with the proved code: reads the manuals, finds their fenced blocks, and writes a
// line for each. A block that is wrong, unknown or not closed gets the word WRONG, so the stored output has only right
// ones.
#![tactic(auto)]

mod block;
mod page;
mod program;
mod reading;
mod row;
mod step;

use std::io;

fn main(rt: HostRuntime) -> io::Result<()> {
    for name in ["POLICY.md", "PROGRAMMING.md", "POLICIES.md"] {
        page::check_page(&rt, name)?;
    }
    Ok(())
}
