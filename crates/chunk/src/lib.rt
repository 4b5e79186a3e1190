// Groups of modules: cycles_for and toposort_real_module_ids.
#![tactic(auto)]

pub mod arrays;
mod circles;
mod gathered;
pub mod imports;
pub mod open;
pub mod walk;
