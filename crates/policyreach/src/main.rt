// Reads a policy text from standard input and writes who can reach whom in it; with two numbers as arguments, whether the first can
// reach the second.
#![tactic(auto)]

ghost use Rattle.input.specs.Counts.{IsPrefixLen};

use std::env::FillError;
use std::io;
use std::rt::Env;

// The bytes of the longest report.
const ROOM: usize = 3424;

// Nothing is read where no two numbers ask.
fn answer(rt: &(impl Input + Print), words: &[u8]) -> io::Result<()> {
    if reaching::words_in(words).is_some() {
        return input::write_report(rt, [0u8; ROOM], |text, out| {
            reaching::answer_on(text, words, out)
        });
    }
    let mut out = [0u8; ROOM];
    let n = reaching::answer_on(b"", words, &mut out);
    rt.write_all(&out[..n])
}

// Puts an argument at the buffer's start, and answers its length; 0 where there is none, or it is longer than the buffer.
fn arg(rt: &impl Env, i: usize, out: &mut [u8]) -> usize
    ensures { IsPrefixLen result out.new }
{
    rt.arg(i, out).unwrap_or(0)
}

// How many arguments there are with the program's name, 4 where there are more.
fn arg_count(rt: &impl Env) -> usize {
    let mut space = [0u8; 8];
    for i in 0..4 {
        if let Err(FillError::NotPresent) = rt.arg(i, &mut space) {
            return i;
        }
    }
    4
}

// The two arguments. One that is longer than any number is left out, so that no number stands there.
fn ask(rt: &(impl Input + Print + Env)) -> io::Result<()> {
    let mut first = [0u8; 8];
    let n = arg(rt, 1, &mut first);
    let mut second = [0u8; 8];
    let m = arg(rt, 2, &mut second);
    let mut words = [0u8; 18];
    let k = reaching::put_words(&mut words, &first[..n], &second[..m]);
    answer(rt, &words[..k])
}

fn main(rt: HostRuntime) -> io::Result<()> {
    match arg_count(&rt) {
        1 => input::write_report(&rt, [0u8; ROOM], |text, out| reaching::report_on(text, out)),
        3 => ask(&rt),
        _ => answer(&rt, b""),
    }
}
