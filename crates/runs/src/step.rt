// The steps of a scenario. A line's first letter says which it is; what number is not there is NONE.
use crate::record::Change;
use machine::Place;
use script::number_in;

// What is asked, and shown with its answer.
#[derive(Clone, Copy)]
pub(crate) enum Call {
    Start,
    Run(u32),
    Pend(u32, u32),
    Look(u32, u32),
    Masks,
    Query(u32, u32),
    Sheet,
}

#[derive(Clone, Copy)]
pub(crate) enum Step {
    At(Place),
    // Where the bytes of the next line go, if that has bytes.
    Write(usize),
    Fill(usize),
    Change(Change),
    Call(Call),
    End,
}

impl Step {
    // The step that a line says, where it says one.
    pub(crate) fn parse(line: &[u8]) -> Option<Step> {
        let x = number_in(line, 1);
        let y = number_in(line, 2);
        let z = number_in(line, 3);
        let step = match line.first()? {
            b's' => Step::Call(Call::Start),
            b'r' => Step::Call(Call::Run(x)),
            b'p' => Step::Call(Call::Pend(x, y)),
            b'l' => Step::Call(Call::Look(x, y)),
            b'm' => Step::Call(Call::Masks),
            b'q' => Step::Call(Call::Query(x, y)),
            b't' => Step::Call(Call::Sheet),
            b'a' => Step::At(Place {
                slot: x,
                used: y,
                count: z,
            }),
            b'w' => Step::Write(x as usize),
            b'f' => Step::Fill(x as usize),
            b'c' => Step::Change(Change {
                field: x,
                index: y as usize,
                value: z,
            }),
            b'e' => Step::End,
            _ => return None,
        };
        Some(step)
    }
}
