// What the module walk writes.
ghost use Rattle.std.specs.Prelude.{◌+◌, ◌*◌, ◌≡◌, length};
ghost use Rattle.rules.specs.Project.{module_limit};
ghost use Rattle.rules.specs.Calls.{module_list_limit};
ghost use Rattle.lists.specs.Arrays.{Zeros};

use crate::walk::ModuleWalk;

// Its list, and the groups: one behind the other, each a count and its members.
#[derive(Drop)]
pub struct Arrays {
    pub list: [u8; ModuleWalk::LIST],
    pub groups: [u8; ModuleWalk::GROUPS],
    pub ghost sizes: { (length list ≡ module_list_limit) × (length groups ≡ module_limit * (module_limit + 1)) },
}

impl Arrays {
    pub fn new() -> Self
        ensures list { Zeros module_list_limit result.list }
        ensures groups { Zeros (module_limit * (module_limit + 1)) result.groups }
    {
        Self {
            list: [0; ModuleWalk::LIST],
            groups: [0; ModuleWalk::GROUPS],
        }
    }
}
