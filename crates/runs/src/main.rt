// Makes the calls of the file `scenarios` and writes what each answers, the bytes of memory that are asked for, and a
// number of all of memory at the end of each scenario. tests/scenarios.py says what form the file has.
#![tactic(auto)]

mod record;
mod scenario;
mod step;

use crate::scenario::Scenario;
use crate::step::{Call, Step};
use kernel::START;
use script::{FILE, Lines, load, number_in, word};
use std::io;

// The longest memory of a scenario.
const MEMORY: usize = 16400;

// So many scenarios are played at most, and so many lines of each.
const MOST: u32 = 1000;

// Names the call of a line with the numbers that it takes.
fn show_call(rt: &impl Print, name: &[u8], line: &[u8], call: Option<Call>) -> io::Result<()> {
    rt.write_all(name)?;
    print!(rt; "\t")?;
    rt.write_all(word(line, 0))?;
    match call {
        Some(Call::Run(x)) => print!(rt; " {x}"),
        Some(Call::Pend(x, y) | Call::Look(x, y) | Call::Query(x, y)) => print!(rt; " {x} {y}"),
        _ => Ok(()),
    }
}

// Plays the scenario of a header, up to the step that ends it.
fn play<R: Print + AllocGlobal>(rt: &R, header: &[u8], lines: &mut Lines) -> io::Result<()> {
    let alloc = rt.alloc();
    let name = word(header, 0);
    let size = (number_in(header, 1) as usize).min(MEMORY);
    let reading = answers::read(lines.bytes(number_in(header, 2) as usize));
    rt.write_all(name)?;
    println!(rt; "\tpolicy\t{}", reading.number)?;
    let mut scenario = Scenario {
        policy: reading.policy,
        memory: vec![in alloc; 0; size]?,
        place: START,
    };
    for _ in 0..MOST {
        let Some(line) = lines.next() else {
            break;
        };
        match Step::parse(line) {
            None => (),
            Some(Step::At(place)) => scenario.place = place,
            Some(Step::Write(at)) => {
                let next = Lines { rest: lines.rest }.next();
                scenario.write(alloc, at, next.unwrap_or_default())?;
            }
            Some(Step::Fill(k)) => scenario.fill(k),
            Some(Step::Change(change)) => change.apply(&mut scenario.policy),
            Some(Step::Call(call)) => {
                show_call(rt, name, line, Some(call))?;
                scenario.answer(rt, call)?;
            }
            Some(Step::End) => {
                show_call(rt, name, line, None)?;
                println!(rt; "\t{}", scenario.number())?;
                break;
            }
        }
    }
    Ok(())
}

fn main(rt: HostRuntime) -> io::Result<()> {
    let mut space = vec![in rt.alloc(); 0; FILE]?;
    let n = load(&rt, b"scenarios", &mut space)?;
    let mut lines = Lines { rest: &space[..n] };
    for _ in 0..MOST {
        let Some(header) = lines.next() else {
            break;
        };
        play(&rt, header, &mut lines)?;
    }
    Ok(())
}
