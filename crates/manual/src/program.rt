// A block of lines, obeyed one after another on a memory of zeros.
use crate::block::{Block, Verdict, words_of};
use crate::reading::read;
use crate::row::changed;
use crate::step::{Check, Step};
use kernel::START;
use machine::Place;
use policy::{MEMORY, Policy};
use script::Lines;
use std::alloc::{AllocError, Global};
use std::{io, str};

// So many lines are too many.
const TOO_MANY: u32 = 1000;

// What the lines so far have come to, under the policy of the text `base`: the schedule's place, the number that the last
// call answered, and how many lines were checks.
#[derive(Drop)]
struct Trial<'a> {
    base: &'a [u8],
    policy: Policy,
    memory: Vec<u8>,
    place: Place,
    number: u32,
    checks: u32,
}

// The byte that a word writes by two hexadecimal digits.
fn byte_of(word: &[u8]) -> Option<u8> {
    // std takes a sign and capitals, too.
    let is_hex = word.iter().all(|b| matches!(*b, b'0'..=b'9' | b'a'..=b'f'));
    if (word.len() != 2) | !is_hex {
        return None;
    }
    u8::from_str_radix(str::from_utf8(word).ok()?, 16).ok()
}

// The bytes that words write; none where a word is no byte, where there is no word, or over 64 of them.
fn bytes_of(alloc: Global, words: &[&[u8]]) -> Result<Option<Vec<u8>>, AllocError> {
    let mut bytes = Vec::new(alloc);
    for word in words {
        match byte_of(word) {
            Some(byte) if bytes.len() < 64 => bytes.push(byte)?,
            _ => return Ok(None),
        }
    }
    Ok(if bytes.is_empty() { None } else { Some(bytes) })
}

impl<'a> Trial<'a> {
    fn under(alloc: Global, base: &'a [u8]) -> Result<Trial<'a>, AllocError> {
        Ok(Trial {
            base,
            policy: answers::read(base).policy,
            memory: vec![in alloc; 0; MEMORY]?,
            place: START,
            number: 0,
            checks: 0,
        })
    }

    fn meets(&self, alloc: Global, check: Check) -> Result<bool, AllocError> {
        match check {
            Check::Memory(at, words) => {
                let bytes = bytes_of(alloc, words)?;
                Ok(bytes.is_some_and(|bytes| {
                    self.memory.get(at..at.saturating_add(bytes.len())) == Some(bytes.as_slice())
                }))
            }
            Check::Place(Place { slot, used, count }) => {
                let place = self.place;
                Ok((place.slot, place.used, place.count) == (slot, used, count))
            }
            Check::Number(number) => Ok(self.number == number),
            Check::Changed(line, change, answer) => {
                let text = changed(alloc, self.base, line, change)?;
                Ok(text.is_some_and(|text| read(&text) == answer))
            }
        }
    }

    // Puts bytes into memory, where there is room for them.
    fn put(&mut self, at: usize, bytes: &[u8]) -> bool {
        let end = at.saturating_add(bytes.len());
        match self.memory.as_mut_slice().get_mut(at..end) {
            Some(room) => {
                room.copy_from_slice(bytes);
                true
            }
            None => false,
        }
    }

    // Obeys a line, and answers whether it is right. One that says nothing counts as a check that is wrong.
    fn obey(&mut self, alloc: Global, step: Option<Step>) -> Result<bool, AllocError> {
        let policy = &self.policy;
        let Some(step) = step else {
            self.checks = self.checks.wrapping_add(1);
            return Ok(false);
        };
        match step {
            Step::Start => {
                let answer = answers::start(policy, &mut self.memory);
                self.number = answer.number;
                self.place = answer.place;
            }
            Step::Run(ticks) => {
                let answer = answers::run(policy, &mut self.memory, self.place, ticks);
                self.number = answer.number;
                self.place = answer.place;
            }
            Step::Pend(partition, line) => {
                self.number = answers::pend(policy, &mut self.memory, partition, line);
            }
            Step::From(place) => self.place = place,
            Step::Put(at, words) => {
                let bytes = bytes_of(alloc, words)?;
                return Ok(bytes.is_some_and(|bytes| self.put(at, &bytes)));
            }
            Step::Check(check) => {
                self.checks = self.checks.wrapping_add(1);
                return self.meets(alloc, check);
            }
        }
        Ok(true)
    }
}

// A line up to its comment, without the spaces at its end.
fn stripped(line: &[u8]) -> &[u8] {
    let code = line.split(|b| *b == b'#').next().unwrap_or_default();
    let end = code.iter().rposition(|b| *b != b' ');
    code.get(..end.map_or(0, |at| at.saturating_add(1)))
        .unwrap_or_default()
}

// Obeys the lines of a block under the policy of a text, that of zeros where it is refused.
pub(crate) fn try_lines<R: Print + AllocGlobal>(
    rt: &R,
    base: &[u8],
    block: &Block,
) -> io::Result<Verdict> {
    let alloc = rt.alloc();
    let mut trial = Trial::under(alloc, base)?;
    let mut lines = Lines { rest: block.text };
    let mut number = block.line;
    for _ in 0..TOO_MANY {
        number = number.wrapping_add(1);
        let Some(line) = lines.next() else {
            print!(rt; "checked {}, ", trial.checks)?;
            return Ok(Verdict::Right);
        };
        let line = stripped(line);
        let words = words_of(alloc, line)?;
        if !line.is_empty() && !trial.obey(alloc, Step::parse(line, &words))? {
            print!(rt; "checked {}, ", trial.checks)?;
            return Ok(Verdict::Wrong(number));
        }
    }
    Ok(Verdict::TooLong)
}
