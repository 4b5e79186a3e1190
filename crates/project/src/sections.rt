// The rows and lists of a project's sections, decoded.
ghost use Rattle.std.specs.Prelude.{◌≡◌, ℕ, ◌+◌, ◌*◌, ◌≤◌, ◌<◌, List, [], ◌∷◌, length, get_or, drop};
ghost use Rattle.std.proofs.Common.{rules};
ghost use Rattle.rules.specs.Project.{Item, Import, Need, need_bytes, item_row, import_row, pair_rows, need_rows};
ghost use Rattle.project.specs.Decoded.{item_row_at, import_row_at, need_row_at, item_in, import_in, need_in, list_at};
ghost use Rattle.project.specs.DecodedLaws.{item_within, import_within, need_within};
ghost use Rattle.project.specs.RowLaws.{pairs_first, pairs_none, needs_first, needs_none};

use super::kinds::{KindByte, WeightByte};
use super::{ItemId, ModuleId};

// What each kind of row is decoded by.
pub trait Row: Copy {
    // The bytes of a row.
    const BYTES: usize;

    ghost BYTES: { ℕ };

    // The row at a position of a section.
    ghost row_at: { List ℕ → ℕ → Self };

    // What a row is to the paper, and all rows of a section as the paper has them.
    ghost Paper: { Type 0 };

    ghost paper: { Self → Paper };

    ghost rows: { List ℕ → List Paper };

    // The row that bytes begin with. Each kind of row decodes fields of its own.
    fn decode(bytes: &[u8]) -> Self
        requires { BYTES ≤ length bytes.now }
        ensures { result ≡ row_at bytes.now 0 };

    ghost has_bytes: { 1 ≤ BYTES };

    ghost within: { (l : List ℕ) (i : ℕ) → row_at (drop i l) 0 ≡ row_at l i };

    ghost first: { (l : List ℕ) (i : ℕ) → i + BYTES ≤ length l → rows (drop i l) ≡ paper (row_at l i) ∷ rows (drop (i + BYTES) l) };

    ghost none: { (l : List ℕ) (i : ℕ) → length l < i + BYTES → rows (drop i l) ≡ [] };

    // The row of a number.
    final fn nth(section: &[u8], i: usize) -> Self
        requires { BYTES * i + BYTES ≤ length section.now }
        ensures { result ≡ row_at section.now (BYTES * i) }
    {
        Self::decode(&section[Self::BYTES * i..])
    }
}

// A row of the items.
#[derive(Clone, Copy)]
pub struct ItemRow {
    pub in_module: ModuleId,
    pub kind: KindByte,
}

impl Row for ItemRow {
    const BYTES: usize = 2;

    ghost BYTES = { 2 };

    ghost row_at = { item_row_at };

    ghost Paper = { Item };

    ghost paper = { item_in };

    ghost rows = { pair_rows item_row };

    ghost has_bytes = { Prim.search rules };

    ghost within = { item_within };

    ghost first = { pairs_first item_row };

    ghost none = { pairs_none item_row };

    fn decode(bytes: &[u8]) -> ItemRow {
        ItemRow {
            in_module: ModuleId(bytes[0]),
            kind: KindByte(bytes[1]),
        }
    }
}

// A row of the imports.
#[derive(Clone, Copy)]
pub struct ImportRow {
    pub importer: ModuleId,
    pub imported: ModuleId,
}

impl Row for ImportRow {
    const BYTES: usize = 2;

    ghost BYTES = { 2 };

    ghost row_at = { import_row_at };

    ghost Paper = { Import };

    ghost paper = { import_in };

    ghost rows = { pair_rows import_row };

    ghost has_bytes = { Prim.search rules };

    ghost within = { import_within };

    ghost first = { pairs_first import_row };

    ghost none = { pairs_none import_row };

    fn decode(bytes: &[u8]) -> ImportRow {
        ImportRow {
            importer: ModuleId(bytes[0]),
            imported: ModuleId(bytes[1]),
        }
    }
}

// A row of the needs.
#[derive(Clone, Copy)]
pub struct NeedRow {
    pub dependant: ItemId,
    pub dependency: ItemId,
    pub weight: WeightByte,
}

impl Row for NeedRow {
    const BYTES: usize = 3;

    ghost BYTES = { need_bytes };

    ghost row_at = { need_row_at };

    ghost Paper = { Need };

    ghost paper = { need_in };

    ghost rows = { need_rows };

    ghost has_bytes = { Prim.search rules };

    ghost within = { need_within };

    ghost first = { needs_first };

    ghost none = { needs_none };

    fn decode(bytes: &[u8]) -> NeedRow {
        NeedRow {
            dependant: ItemId(u16::from(bytes[0])),
            dependency: ItemId(u16::from(bytes[1])),
            weight: WeightByte(bytes[2]),
        }
    }
}

// The members of the list at a position of its section: the bytes behind the count.
pub fn list_at(section: &[u8], at: usize) -> &[u8]
    requires { (at < length section.now) × (at + 1 + get_or section.now at 0 ≤ length section.now) }
    ensures { result.now ≡ list_at section.now at }
{
    let start = at + 1;
    &section[start..start + usize::from(section[at])]
}
