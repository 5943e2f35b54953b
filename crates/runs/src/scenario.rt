// A scenario, as it stands after some of its steps.
use crate::step::Call;
use machine::Place;
use octets::entry_or;
use policy::Policy;
use script::number_in;
use std::alloc::{AllocError, Global};
use std::fmt::Display;
use std::io;

#[derive(Drop)]
pub(crate) struct Scenario {
    pub policy: Policy,
    pub memory: Vec<u8>,
    pub place: Place,
}

// The bytes that the words of a line write, each by three digits. None where a word is no such byte, or where there are
// more than 512.
fn bytes_of(alloc: Global, line: &[u8]) -> Result<Vec<u8>, AllocError> {
    let mut bytes = Vec::new(alloc);
    for (k, word) in line.split(|b| *b == b' ').enumerate() {
        // Several spaces part words as one does.
        if (0 < k) & word.is_empty() {
            continue;
        }
        match u8::try_from(number_in(word, 0)) {
            Ok(byte) if (word.len() == 3) & (bytes.len() < 512) => bytes.push(byte)?,
            _ => return Ok(Vec::new(alloc)),
        }
    }
    Ok(bytes)
}

// A field of several values, which spaces part.
fn show_row<T: Display>(rt: &impl Print, row: &[T]) -> io::Result<()> {
    for (i, value) in row.iter().enumerate() {
        if i == 0 {
            print!(rt; "\t{value}")?;
        } else {
            print!(rt; " {value}")?;
        }
    }
    Ok(())
}

fn show_placed(rt: &impl Print, number: u32, place: Place) -> io::Result<()> {
    println!(rt; "\t{number}\t{} {} {}", place.slot, place.used, place.count)
}

impl Scenario {
    // Puts the bytes of a line into memory, as far as there is room.
    pub(crate) fn write(
        &mut self,
        alloc: Global,
        at: usize,
        line: &[u8],
    ) -> Result<(), AllocError> {
        let bytes = bytes_of(alloc, line)?;
        for (entry, byte) in self.memory.iter_mut().skip(at).zip(bytes.iter()) {
            *entry = *byte;
        }
        Ok(())
    }

    // No byte becomes 0.
    pub(crate) fn fill(&mut self, k: usize) {
        for (i, byte) in self.memory.iter_mut().enumerate() {
            *byte = (i.wrapping_add(k) % 251 + 1) as u8;
        }
    }

    // All of memory as one number of base 256, modulo a prime, so that a byte that differs shows.
    pub(crate) fn number(&self) -> u32 {
        self.memory.iter().fold(0u32, |n, byte| {
            ((u64::from(n) * 256 + u64::from(*byte)) % 4294967291) as u32
        })
    }

    // A line of the bytes from a place on, 0 for each that is past the end.
    fn look(&self, rt: &impl Print, at: u32, count: u32) -> io::Result<()> {
        for i in 0..count {
            let byte = entry_or(&self.memory, (at as usize).saturating_add(i as usize), 0);
            if i == 0 {
                print!(rt; "\t{byte}")?;
            } else {
                print!(rt; " {byte}")?;
            }
        }
        println!(rt)
    }

    // Makes a call, and shows what it answers.
    pub(crate) fn answer(&mut self, rt: &impl Print, call: Call) -> io::Result<()> {
        let policy = &self.policy;
        match call {
            Call::Start => {
                let answer = answers::start(policy, &mut self.memory);
                self.place = answer.place;
                show_placed(rt, answer.number, answer.place)
            }
            Call::Run(ticks) => {
                let answer = answers::run(policy, &mut self.memory, self.place, ticks);
                self.place = answer.place;
                show_placed(rt, answer.number, answer.place)
            }
            Call::Pend(partition, line) => {
                println!(rt;
                    "\t{}",
                    answers::pend(policy, &mut self.memory, partition, line)
                )
            }
            Call::Look(at, count) => self.look(rt, at, count),
            Call::Masks => {
                let answer = answers::masks(policy);
                print!(rt; "\t{}", answer.number)?;
                show_row(rt, &answer.sources)?;
                println!(rt)
            }
            Call::Query(from, to) => {
                let answer = answers::query(policy, from, to);
                println!(rt; "\t{}\t{}", answer.number, answer.yes)
            }
            Call::Sheet => {
                let answer = answers::silences(policy);
                print!(rt; "\t{}", answer.number)?;
                show_row(rt, &answer.ticks)?;
                show_row(rt, &answer.silence)?;
                println!(rt)
            }
        }
    }
}
