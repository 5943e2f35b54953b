// The whole report: of an accepted text its first row and a row for each segment, of a refused text one row.
ghost use Rattle.std.specs.Prelude.{◌≡◌, ◌≤◌, ◌<◌, length, Err};
ghost use Rattle.policy.specs.Tables.{view_of};
ghost use Rattle.policy.specs.Refusals.{line_number_of};
ghost use Rattle.policy.specs.Record.{tables_of, answer_of};
ghost use Rattle.report.specs.Report.{accepted_row, segment_rows, accepted_report, refused_row, report_of_reading};
ghost use Rattle.report.specs.Reportable.{Countable, Reportable};
ghost use Rattle.writing.specs.Writer.{Adds, Filled, room};

use crate::masks::users_of;
use policy::{Policy, Refusal};
use schedule::round_ticks;
use writing::Writer;

// At most 23 bytes.
fn put_counts(out: &mut Writer<'_>, policy: &Policy)
    requires { Countable (view_of (tables_of policy.now)) × (23 ≤ room out.old) }
    ensures { Adds out.old (accepted_row (view_of (tables_of policy.now))) out.new }
{
    let ticks = round_ticks(&policy.ticks, policy.slots);
    let row = [
        policy.partitions as u32,
        policy.segments as u32,
        policy.slots as u32,
        ticks,
    ];
    out.put_row(b"accepted", &row);
}

// At most 19 bytes a row.
fn put_segments(out: &mut Writer<'_>, policy: &Policy)
    requires { Countable (view_of (tables_of policy.now)) × (608 ≤ room out.old) }
    ensures { Adds out.old (segment_rows (view_of (tables_of policy.now)) policy.now.segments) out.new }
{
    for s in 0..policy.segments {
        let reads = users_of(&policy.save, &policy.reads, policy.partitions, s);
        let writes = users_of(&policy.save, &policy.writes, policy.partitions, s);
        out.put_row(b"segment", &[s as u32, reads, writes]);
    }
}

// The longest has 23 + 32 * 19 = 631 bytes.
fn put_accepted(policy: &Policy, out: &mut [u8; 640]) -> usize
    requires { Countable (view_of (tables_of policy.now)) }
    ensures { Filled (accepted_report (view_of (tables_of policy.now))) 640 out.old out.new result }
{
    let mut writer = Writer::new(out);
    put_counts(&mut writer, policy);
    put_segments(&mut writer, policy);
    writer.len()
}

// At most 17 bytes.
pub fn put_refused(refusal: Refusal, out: &mut [u8]) -> usize
    requires { (line_number_of (Err refusal) < 100000) × (17 ≤ length out.old) }
    ensures { Filled (refused_row (Err refusal)) 17 out.old out.new result }
{
    let mut writer = Writer::new(out);
    writer.put_row(b"refused", &[refusal.number(), refusal.line()]);
    writer.len()
}

// Into a lent buffer, which the longest report fits, since there is no heap (a).
pub fn write_report(reading: Result<Policy, Refusal>, out: &mut [u8; 640]) -> usize
    requires { Reportable (answer_of reading) }
    ensures { Filled (report_of_reading (answer_of reading)) 640 out.old out.new result }
{
    match reading {
        Ok(policy) => put_accepted(&policy, out),
        Err(refusal) => put_refused(refusal, out),
    }
}
