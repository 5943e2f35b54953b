// The report: a line for each segment.
ghost use Rattle.std.specs.Prelude.{◌+◌, ◌≤◌, ◌<◌, ◌≡◌, true, get_or, length};
ghost use Rattle.bits.specs.Masks.{has};
ghost use Rattle.policy.specs.Below.{list_below};
ghost use Rattle.policy.specs.Limits.{single};
ghost use Rattle.policy.specs.Record.{tables_of};
ghost use Rattle.policy.specs.Sound.{sound_of};
ghost use Rattle.policy.specs.Tables.{view_of};
ghost use Rattle.reach.specs.Rows.{report_of, those_below};
ghost use Rattle.writing.specs.Writer.{Adds, Filled, room};
ghost use Rattle.reaching.specs.Report.{reach_report_of, segment_line, segment_lines};

use bits::has_bit;
use policy::Policy;
use reach::reach;
use report::put_refused;
use writing::Writer;

// A segment's line: the word, its own number, and each source that the row has. At most 107 bytes.
fn put_line(out: &mut Writer<'_>, t: u8, row: u32, segments: u8)
    requires { (segments ≤ 32) × (t < 32) × (107 ≤ room out.old) }
    ensures { Adds out.old (segment_line t (those_below segments (has row))) out.new }
{
    out.put_word(b"segment");
    out.put_field(t as u32);
    for s in 0..segments {
        if has_bit(row as u64, s as u32) {
            out.put_field(s as u32);
        }
    }
    out.put_byte(b'\n');
}

// The lines of a sound record, from the buffer's start on. The longest report has 32 lines of 107 bytes.
fn put_lines(policy: &Policy, out: &mut [u8; 3424]) -> usize
    requires { sound_of single (tables_of policy.now) ≡ true }
    ensures { Filled (segment_lines 0 (report_of (view_of (tables_of policy.now)))) 3424 out.old out.new result }
{
    let rows = reach(policy).unwrap();
    let mut writer = Writer::new(out);
    for t in 0..policy.segments {
        put_line(&mut writer, t, rows[t as usize], policy.segments);
    }
    writer.len()
}

// Writes the report on a text, whatever it is, from the buffer's start on, and answers how many bytes it has.
pub fn report_on(text: &[u8], out: &mut [u8; 3424]) -> usize
    ensures { Filled (reach_report_of single text.now) 3424 out.old out.new result }
{
    match reader::read(text) {
        Ok(policy) => put_lines(&policy, out),
        Err(refusal) => put_refused(refusal, out),
    }
}
