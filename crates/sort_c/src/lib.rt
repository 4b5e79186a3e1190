// The archive that a host links: the two entries of crates/sort, exported to C. A crate is a library or an archive today and not both, so this one
// stands above it and says what its functions say.
#![tactic(auto)]

ghost use Rattle.std.specs.Prelude.{◌≡◌};
ghost use Rattle.rules.specs.Calls.{groups_entry, order_entry};
ghost use Rattle.sort.specs.Entries.{entry_of};
ghost use Rattle.sort.specs.Guarantees.{GroupsEntryGuaranteed, OrderEntryGuaranteed};

use sort::{entry, groups_entry};

// An order call that also writes the five numbers to a report. The number of the answer, which is 13 where the report is short; then nothing is touched.
#[unsafe(no_mangle)]
pub extern "C" fn escarpim_order(
    project: &[u8],
    reply: &mut [u8],
    report: &mut [u8],
    allowance: u32,
) -> u32
    ensures answer { entry_of result reply.new report.new ≡ order_entry project.now reply.old report.old allowance }
    ensures guarantees { OrderEntryGuaranteed project.now report.old allowance (entry_of result reply.new report.new) }
{
    entry::escarpim_order(project, reply, report, allowance)
}

// A groups call, likewise.
#[unsafe(no_mangle)]
pub extern "C" fn escarpim_groups(
    project: &[u8],
    reply: &mut [u8],
    report: &mut [u8],
    allowance: u32,
) -> u32
    ensures answer { entry_of result reply.new report.new ≡ groups_entry project.now reply.old report.old allowance }
    ensures guarantees { GroupsEntryGuaranteed project.now reply.old report.old allowance
        (entry_of result reply.new report.new) }
{
    groups_entry::escarpim_groups(project, reply, report, allowance)
}
