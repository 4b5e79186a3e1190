// The item walk of a group (iter).
#![tactic(auto)]

pub mod arrays;
pub mod slices;
mod steps;
pub mod walk;

#[cfg(test)]
mod tests {
    use crate::arrays::Arrays;
    use crate::walk::ItemWalk;
    use layout::Group;
    use split::Split;
    use std::test::Fail;
    use walks::Outcome;

    // The only item of a group, which is injected, is placed by the first visit.
    #[test]
    fn first_visit() -> Result<(), Fail> {
        let mut split = Split::new();
        split.kinds[0] = 4;
        split.count = 1;
        let mut group: Group<1, 1> = Group::new();
        group.split = split;
        group.graph.lay_out_none(1);
        let mut arrays: Arrays<1, 4> = Arrays::new();
        let start = ItemWalk::new(&group, &mut arrays);
        let outcome = arrays.visit(&group, start);
        let Outcome::Placed(after) = outcome else {
            return Err("placed")?;
        };
        (after.placed == 1)
            .then_some(())
            .ok_or("how many are placed")?;
        (after.end == 0).then_some(()).ok_or("how many are left")?;
        (arrays.order[0] == 0)
            .then_some(())
            .ok_or("the item placed")?;
        Ok(())
    }
}
