// The report of an entry.
ghost use Rattle.std.specs.Prelude.{◌≡◌, ℕ, ◌+◌, ◌≤◌, List, length};
ghost use Rattle.std.proofs.lemmas.List.Edits.{sets};
ghost use Rattle.rules.specs.Calls.{Answer, overwrite, bytes32, report_bytes, reported};
ghost use Rattle.sort.specs.Answers.{numbers_of, Answered};
ghost use Rattle.sort.specs.Entries.{entry_of};

use super::{Numbers, Refusal};

// The bytes of a report.
const SIZE: usize = 20;

// A call that an entry makes.
pub trait Call {
    // The paper's answer, by the project's bytes, the length of the reply and the allowance.
    ghost answer: { List ℕ → ℕ → ℕ → Answer };

    fn make(project: &[u8], reply: &mut [u8], allowance: u32) -> Numbers
        ensures { Answered (answer project.now (length reply.old) allowance) reply.old reply.new result };
}

// Makes a call and writes its numbers to the report. Where the report is short, no call is made and nothing is touched.
pub fn enter<C: Call>(project: &[u8], reply: &mut [u8], report: &mut [u8], allowance: u32) -> u32
    ensures { entry_of result reply.new report.new
        ≡ reported (C.answer project.now (length reply.old) allowance) reply.old report.old }
{
    if report.len() < SIZE {
        return Refusal::ShortReport.into();
    }
    let numbers = C::make(project, reply, allowance);
    numbers.write(report);
    numbers.answer
}

impl Numbers {
    // Writes the five numbers to the front of a report, one line for each: a loop over them would be no shorter.
    fn write(self, report: &mut [u8])
        requires { 20 ≤ length report.old }
        ensures { (a : Answer) → self ≡ numbers_of a → report.new ≡ overwrite (report_bytes a) report.old }
    {
        write32(report, 0, self.answer);
        write32(report, 4, self.kept);
        write32(report, 8, self.groups);
        write32(report, 12, self.module_visits);
        write32(report, 16, self.item_visits);
    }
}

// Writes a number at a place, its lowest byte first.
fn write32(report: &mut [u8], at: usize, n: u32)
    requires { at + 4 ≤ length report.old }
    ensures { report.new ≡ sets report.old at (bytes32 n) }
{
    report[at..at + 4].copy_from_slice(&n.to_le_bytes());
}
