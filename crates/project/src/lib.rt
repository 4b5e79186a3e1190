// Reading a project's bytes: numbers 1 to 9 of the paper's table, and where the sections stand.
#![tactic(auto)]

mod header;
pub mod kinds;
pub mod reader;
mod rows;
pub mod sections;

ghost use Rattle.std.specs.Prelude.{◌≡◌, MatchResult};
ghost use Rattle.rules.specs.Project.{refused, accepted, project_of, read};
ghost use Rattle.project.specs.Answers.{number_of, numbered, answer_of};
ghost use Rattle.project.specs.Passed.{Measured};

use header::Header;
use sections::{ItemRow, Row};

// The number of a module. Modules and items are counted separately. It has no bound: the bytes of a project that is turned down may name any.
#[derive(Clone, Copy, PartialEq, Eq)]
pub struct ModuleId(pub u8);

// The number of an item: the position of its row.
#[derive(Clone, Copy, PartialEq, Eq)]
pub struct ItemId(pub u16);

// The number that an item has within its group, as a node of the group's graph.
#[derive(Clone, Copy, PartialEq, Eq)]
pub struct NodeId(pub u16);

impl From<ModuleId> for usize {
    ghost from_gives = { λ m r. r ≡ m.0 };

    fn from(m: ModuleId) -> usize {
        usize::from(m.0)
    }
}

impl From<ItemId> for usize {
    ghost from_gives = { λ i r. r ≡ i.0 };

    fn from(i: ItemId) -> usize {
        usize::from(i.0)
    }
}

impl From<NodeId> for usize {
    ghost from_gives = { λ n r. r ≡ n.0 };

    fn from(n: NodeId) -> usize {
        usize::from(n.0)
    }
}

// What the header of a project says. The items start at byte 36, each other section starts where the one before it ends, and the needs end
// with the input.
#[derive(Clone, Copy)]
pub struct Layout {
    pub modules: u8,
    pub entry: ModuleId,
    pub items_end: usize,
    pub imports_end: usize,
    pub circles_end: usize,
}

impl Layout {
    // Where the items start.
    pub const START: usize = 36;

    // The most modules.
    pub const MODULES: u8 = 64;

    // The most items.
    pub const ITEMS: u32 = 256;

    // The most imports, by rows.
    pub const IMPORTS: u32 = 512;

    // The most bytes of circles.
    pub const CIRCLE_BYTES: u32 = 512;

    // The most needs.
    pub const NEEDS: u32 = 2048;

    // The limits as sizes of arrays.
    pub const MODULE_ROOM: usize = Self::MODULES as usize;

    pub const ITEM_ROOM: usize = Self::ITEMS as usize;

    pub const IMPORT_ROOM: usize = Self::IMPORTS as usize;

    pub const NEED_ROOM: usize = Self::NEEDS as usize;
}

// Why bytes are turned down, by the numbers of the table.
#[derive(Clone, Copy, PartialEq, Eq, Debug)]
pub enum Refusal {
    Stub = 1,
    Foreign,
    Misplaced,
    Ragged,
    Outsize,
    BadItem,
    BadImport,
    BadCircle,
    BadNeed,
}

impl From<Refusal> for u32 {
    ghost from_gives = { λ r n. n ≡ number_of r };

    fn from(r: Refusal) -> u32 {
        r as u32
    }
}

// Reads a project. Which of several faults is answered goes by the table's order.
pub fn read(bytes: &[u8]) -> Result<Layout, Refusal>
    ensures { numbered result ≡ answer_of bytes.now (read bytes.now) }
{
    let l = Header::of(bytes)?.layout()?;
    check_rows(bytes, l)?;
    Ok(l)
}

// Numbers 6 to 9: each section is handed on as that part of the bytes.
fn check_rows(bytes: &[u8], l: Layout) -> Result<(), Refusal>
    requires { Measured bytes.now l }
    ensures { MatchResult result (λ _. read bytes.now ≡ accepted (project_of bytes.now)) (λ r. read bytes.now ≡ refused (number_of r)) }
{
    if rows::bad_items(&bytes[Layout::START..l.items_end], l.modules) {
        return Err(Refusal::BadItem);
    }
    if rows::bad_imports(&bytes[l.items_end..l.imports_end], l.modules) {
        return Err(Refusal::BadImport);
    }
    if rows::bad_circles(&bytes[l.imports_end..l.circles_end], l.modules) {
        return Err(Refusal::BadCircle);
    }
    let items = ((l.items_end - Layout::START) / ItemRow::BYTES) as u16;
    if rows::bad_needs(&bytes[l.circles_end..], items) {
        return Err(Refusal::BadNeed);
    }
    Ok(())
}
