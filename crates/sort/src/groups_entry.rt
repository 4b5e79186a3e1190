// The same entry over a groups call.
ghost use Rattle.std.specs.Prelude.{◌≡◌};
ghost use Rattle.rules.specs.Calls.{groups_call, groups_entry};
ghost use Rattle.sort.specs.Entries.{entry_of};
ghost use Rattle.sort.specs.Guarantees.{GroupsEntryGuaranteed};

use super::Numbers;
use super::report::{Call, enter};

struct GroupsCall;

impl Call for GroupsCall {
    ghost answer = { groups_call };

    fn make(project: &[u8], reply: &mut [u8], allowance: u32) -> Numbers {
        super::groups(project, reply, allowance)
    }
}

// The number of the answer, which is 13 where the report is short; then nothing is touched.
pub fn escarpim_groups(project: &[u8], reply: &mut [u8], report: &mut [u8], allowance: u32) -> u32
    ensures answer { entry_of result reply.new report.new ≡ groups_entry project.now reply.old report.old allowance }
    ensures guarantees { GroupsEntryGuaranteed project.now reply.old report.old allowance
        (entry_of result reply.new report.new) }
{
    enter::<GroupsCall>(project, reply, report, allowance)
}
