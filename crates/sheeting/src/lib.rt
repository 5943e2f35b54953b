// What policysheet writes: the sheet of a text.
#![tactic(auto)]

ghost use Rattle.std.specs.Prelude.{◌≤◌, ◌≡◌, true, length};
ghost use Rattle.policy.specs.Limits.{single};
ghost use Rattle.policy.specs.Record.{tables_of};
ghost use Rattle.policy.specs.Sound.{sound_of};
ghost use Rattle.policy.specs.Tables.{view_of};
ghost use Rattle.writing.specs.Writer.{Filled};
ghost use Rattle.sheeting.specs.Lines.{sheet_of, sheet_report_of};

use policy::Policy;
use report::put_refused;
use schedule::round_ticks;
use sheet::sheet_of;
use writing::Writer;

// The sheet of a sound record, from the buffer's start on. The longest has 8 lines of 24 bytes, and 12 for the round.
fn put_sheet(policy: &Policy, out: &mut [u8; 204]) -> usize
    requires { sound_of single (tables_of policy.now) ≡ true }
    ensures { Filled (sheet_of (view_of (tables_of policy.now))) 204 out.old out.new result }
{
    let sheet = sheet_of(policy).unwrap();
    let mut writer = Writer::new(out);
    for p in 0..policy.partitions as usize {
        writer.put_row(b"partition", &[p as u32, sheet.ticks[p], sheet.silence[p]]);
    }
    writer.put_row(b"round", &[round_ticks(&policy.ticks, policy.slots)]);
    writer.len()
}

// Writes the sheet of a text, whatever it is, from the buffer's start on, and answers how many bytes it has.
pub fn sheet_on(text: &[u8], out: &mut [u8; 204]) -> usize
    ensures { Filled (sheet_report_of single text.now) 204 out.old out.new result }
{
    match reader::read(text) {
        Ok(policy) => put_sheet(&policy, out),
        Err(refusal) => put_refused(refusal, out),
    }
}
