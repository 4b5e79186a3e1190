// The rows of a project's sections: numbers 6 to 9 of the paper's table. Each check gets its section as a part of the project's bytes. Tests are
// joined by `|`, as in their definitions.
ghost use Rattle.std.specs.Prelude.{◌≡◌};
ghost use Rattle.rules.specs.Lists.{any};
ghost use Rattle.rules.specs.Project.{item_row, import_row, pair_rows, need_rows, bad_item, bad_import, bad_circles, bad_need};
ghost use Rattle.project.specs.Decoded.{item_in, import_in, need_in};

use super::reader::Reader;
use super::sections::{ImportRow, ItemRow, NeedRow};

// 6, of one row.
fn bad_item(row: ItemRow, modules: u8) -> bool
    ensures { result ≡ bad_item modules (item_in row) }
{
    (modules <= row.in_module.0) | row.kind.kind().is_none()
}

// 7, of one row.
#[tactic(auto, unfolding(rules::specs::Project::bad_import))]
fn bad_import(row: ImportRow, modules: u8) -> bool
    ensures { result ≡ bad_import modules (import_in row) }
{
    let importer = row.importer.0;
    let imported = row.imported.0;
    (modules <= importer) | (modules <= imported) | (importer == imported)
}

// 9, of one row. A trait of rows with two ends would be longer than this and 7.
#[tactic(auto, unfolding(rules::specs::Project::bad_need))]
fn bad_need(row: NeedRow, items: u16) -> bool
    ensures { result ≡ bad_need items (need_in row) }
{
    let dependant = row.dependant.0;
    let dependency = row.dependency.0;
    (items <= dependant) | (items <= dependency) | (dependant == dependency) | row.weight.is_none()
}

// 6, "module not below M, or kind above 5".
pub fn bad_items(section: &[u8], modules: u8) -> bool
    ensures { result ≡ any (bad_item modules) (pair_rows item_row section.now) }
{
    Reader::<ItemRow>::new(section).any(|row| bad_item(row, modules))
}

// 7, "an end not below M, or equal ends".
pub fn bad_imports(section: &[u8], modules: u8) -> bool
    ensures { result ≡ any (bad_import modules) (pair_rows import_row section.now) }
{
    Reader::<ImportRow>::new(section).any(|row| bad_import(row, modules))
}

// 8, "a list passes the section's end, or a member not below M". `left` counts the members that the present list still lacks. The last list
// may be cut short, so that `Lists` can't take them apart.
pub fn bad_circles(section: &[u8], modules: u8) -> bool
    ensures { result ≡ bad_circles modules 0 section.now }
{
    let mut left: u8 = 0;
    for b in section {
        if left == 0 {
            left = *b;
        } else {
            if modules <= *b {
                return true;
            }
            left -= 1;
        }
    }
    left != 0
}

// 9, "an end not an item, equal ends, or weight above 1".
pub fn bad_needs(section: &[u8], items: u16) -> bool
    ensures { result ≡ any (bad_need items) (need_rows section.now) }
{
    Reader::<NeedRow>::new(section).any(|row| bad_need(row, items))
}
