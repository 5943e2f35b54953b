// The answer to a question: whether one segment can reach another.
ghost use Rattle.std.specs.Prelude.{◌+◌, ◌≤◌, ◌<◌, ◌≡◌, length};
ghost use Rattle.policy.specs.Limits.{single};
ghost use Rattle.policy.specs.Record.{tables_of};
ghost use Rattle.calls.specs.Under.{under_policy};
ghost use Rattle.reach.specs.Answers.{can_reach_answer};
ghost use Rattle.writing.specs.Writer.{Adds, Filled, room};
ghost use Rattle.reaching.specs.Question.{answer_line, question_of, reach_line};

use crate::words::words_in;
use policy::Policy;
use reach::can_reach;
use report::put_refused;
use writing::Writer;

// At most 16 bytes.
fn put_reach(out: &mut Writer<'_>, from: u32, to: u32, yes: bool)
    requires { (from < 32) × (to < 32) × (17 ≤ room out.old) }
    ensures { Adds out.old (reach_line from to yes) out.new }
{
    out.put_word(b"reach");
    out.put_field(from);
    out.put_field(to);
    if yes {
        out.put_word(b"\tyes\n");
    } else {
        out.put_word(b"\tno\n");
    }
}

fn put_answer(out: &mut Writer<'_>, policy: &Policy, from: u32, to: u32)
    requires { 17 ≤ room out.old }
    ensures { Adds out.old (answer_line from to (can_reach_answer (under_policy policy.now) from to)) out.new }
{
    match can_reach(policy, from, to) {
        Ok(yes) => put_reach(out, from, to, yes),
        Err(why) => out.put_row(b"refused", &[u32::from(why), 0]),
    }
}

// Writes the answer about a text to the question that words ask, as the fields of a line, whatever they are, from the buffer's start
// on, and answers how many bytes it has.
pub fn answer_on(text: &[u8], words: &[u8], out: &mut [u8; 3424]) -> usize
    ensures { Filled (question_of single text.now words.now) 3424 out.old out.new result }
{
    let Some(asked) = words_in(words) else {
        let mut writer = Writer::new(out);
        writer.put_word(b"usage: policyreach [FROM TO] < POLICY\n");
        return writer.len();
    };
    match reader::read(text) {
        Ok(policy) => {
            let mut writer = Writer::new(out);
            put_answer(&mut writer, &policy, asked.from, asked.to);
            writer.len()
        }
        Err(refusal) => put_refused(refusal, out),
    }
}
