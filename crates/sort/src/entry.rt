// The entry of the assembler: an order call that also writes the five numbers to a report.
ghost use Rattle.std.specs.Prelude.{◌≡◌};
ghost use Rattle.rules.specs.Calls.{order_call, order_entry};
ghost use Rattle.sort.specs.Entries.{entry_of};
ghost use Rattle.sort.specs.Guarantees.{OrderEntryGuaranteed};

use super::Numbers;
use super::report::{Call, enter};

struct OrderCall;

impl Call for OrderCall {
    ghost answer = { order_call };

    fn make(project: &[u8], reply: &mut [u8], allowance: u32) -> Numbers {
        super::order(project, reply, allowance)
    }
}

// The number of the answer, which is 13 where the report is short; then nothing is touched.
pub fn escarpim_order(project: &[u8], reply: &mut [u8], report: &mut [u8], allowance: u32) -> u32
    ensures answer { entry_of result reply.new report.new ≡ order_entry project.now reply.old report.old allowance }
    ensures guarantees { OrderEntryGuaranteed project.now report.old allowance (entry_of result reply.new report.new) }
{
    enter::<OrderCall>(project, reply, report, allowance)
}
