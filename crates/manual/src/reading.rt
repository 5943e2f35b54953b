// What reading a text answers: the number of the refusal, and the line that it names, 0 for none.
#[derive(Clone, Copy, PartialEq, Eq)]
pub(crate) struct Answer {
    pub number: u32,
    pub line: u32,
}

pub(crate) fn read(text: &[u8]) -> Answer {
    let reading = answers::read(text);
    Answer {
        number: reading.number,
        line: reading.line,
    }
}
