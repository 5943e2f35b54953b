// The lines of a text, one after another, and the rules for the whole at the end.
ghost use Rattle.std.specs.Prelude.{◌≤◌, ◌≡◌, length};
ghost use Rattle.text.specs.Lines.{lines_of};
ghost use Rattle.policy.specs.Limits.{single};
ghost use Rattle.policy.specs.Record.{answer_of};
ghost use Rattle.policy.specs.Draft.{begun};
ghost use Rattle.policy.specs.Read.{read_lines};

use linerules::Draft;
use policy::{Policy, Refusal};
use text::Cursor;
use wholerules::record_refusal;

// The answer for a text that is not too long.
pub fn read_lines(text: &[u8]) -> Result<Policy, Refusal>
    requires { length text.now ≤ single.text }
    ensures { answer_of result ≡ read_lines single 1 (begun single) (lines_of text.now) }
{
    let mut draft = Draft::new();
    let mut c = Cursor { at: 0, line: 1 };
    // No `for`: the reader of a line says where the next one begins.
    while c.at < text.len() {
        let read = lexer::line_from(text, c.at, c.line);
        let line = read.line;
        draft.check(line, c.line)?;
        draft.add(line);
        c = read.next;
    }
    record_refusal(&draft.policy)?;
    Ok(draft.policy)
}
