// The whole report of policycheck on a text.
#![tactic(auto)]

ghost use Rattle.policy.specs.Limits.{single};
ghost use Rattle.report.specs.Report.{report_of};
ghost use Rattle.writing.specs.Writer.{Filled};

// Writes the report on a text, whatever it is, from the buffer's start on, and answers how many bytes it has.
pub fn report_on(text: &[u8], out: &mut [u8; 640]) -> usize
    ensures { Filled (report_of single text.now) 640 out.old out.new result }
{
    let reading = reader::read(text);
    report::write_report(reading, out)
}
