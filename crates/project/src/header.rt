// The header of a project: numbers 1 to 5 of the paper's table, and the layout. Tests are joined by `|`, as in their definitions.
ghost use Rattle.std.specs.Prelude.{◌≡◌, not, ◌+◌, ◌*◌, ◌≤◌, eqb, length, MatchResult};
ghost use Rattle.rules.specs.Project.{number32, offset_of, length_of, end_of, refused, foreign, misplaced, ragged, outsize, read};
ghost use Rattle.project.specs.Answers.{layout_of, place_of, number_of};
ghost use Rattle.project.specs.Passed.{Measured};

use super::sections::{ImportRow, ItemRow, NeedRow, Row};
use super::{Layout, ModuleId, Refusal};

// Where the first section starts, and the bytes of a row, as numbers of the header.
const START: u32 = Layout::START as u32;

const ITEM_BYTES: u32 = ItemRow::BYTES as u32;

const IMPORT_BYTES: u32 = ImportRow::BYTES as u32;

const NEED_BYTES: u32 = NeedRow::BYTES as u32;

// The sections, in their order.
#[derive(Clone, Copy, PartialEq, Eq)]
pub enum Section {
    Items,
    Imports,
    Circles,
    Needs,
}

impl Section {
    // The place of a section among the four.
    fn place(self) -> usize
        ensures { result ≡ place_of self }
    {
        self as usize
    }
}

// The bytes of a project, long enough for a header.
#[derive(Clone, Copy)]
pub struct Header<'a> {
    bytes: &'a [u8],
    ghost whole: { 36 ≤ length bytes.now },
}

impl<'a> Header<'a> {
    // The header of bytes that 1, "under 36 bytes", doesn't turn down.
    #[tactic(auto, using(crate::specs::ReadLaws::read_stub))]
    pub fn of(bytes: &'a [u8]) -> Result<Header<'a>, Refusal>
        ensures { MatchResult result (λ h. h.bytes.now ≡ bytes.now) (λ r. read bytes.now ≡ refused (number_of r)) }
    {
        if bytes.len() < Layout::START {
            return Err(Refusal::Stub);
        }
        Ok(Header { bytes })
    }

    // The layout, where none of 2 to 5 turns the bytes down.
    #[tactic(auto, using(crate::specs::ReadLaws::read_foreign, crate::specs::ReadLaws::read_misplaced, crate::specs::ReadLaws::read_ragged, crate::specs::ReadLaws::read_outsize, crate::specs::ReadLaws::measures))]
    pub fn layout(self) -> Result<Layout, Refusal>
        ensures { MatchResult result (Measured self.entry.bytes.now) (λ r. read self.entry.bytes.now ≡ refused (number_of r)) }
    {
        if self.is_foreign() {
            return Err(Refusal::Foreign);
        }
        if self.is_misplaced() {
            return Err(Refusal::Misplaced);
        }
        if self.is_ragged() {
            return Err(Refusal::Ragged);
        }
        if self.is_outsize() {
            return Err(Refusal::Outsize);
        }
        Ok(self.said())
    }

    // The number at a byte.
    #[tactic(auto, unfolding(rules::specs::Project::number32))]
    fn number32(self, at: usize) -> u32
        requires { at + 4 ≤ 36 }
        ensures { result ≡ number32 self.entry.bytes.now at }
    {
        let b = self.bytes;
        u32::from_le_bytes([b[at], b[at + 1], b[at + 2], b[at + 3]])
    }

    // Where a section starts.
    #[tactic(auto, unfolding(rules::specs::Project::offset_of))]
    fn offset_of(self, s: Section) -> u32
        ensures { result ≡ offset_of self.entry.bytes.now (place_of s) }
    {
        self.number32(4 + 8 * s.place())
    }

    // How many bytes a section has.
    #[tactic(auto, unfolding(rules::specs::Project::length_of))]
    fn length_of(self, s: Section) -> u32
        ensures { result ≡ length_of self.entry.bytes.now (place_of s) }
    {
        self.number32(8 + 8 * s.place())
    }

    // Where a section ends. The sum does not wrap: it is taken in 64 bits.
    #[tactic(auto, unfolding(rules::specs::Project::end_of))]
    fn end_of(self, s: Section) -> u64
        ensures { result ≡ end_of self.entry.bytes.now (place_of s) }
    {
        u64::from(self.offset_of(s)) + u64::from(self.length_of(s))
    }

    // Whether a section starts elsewhere than another ends.
    fn starts_apart(self, s: Section, before: Section) -> bool
        ensures { result ≡ not (eqb (offset_of self.entry.bytes.now (place_of s)) (end_of self.entry.bytes.now (place_of before))) }
    {
        u64::from(self.offset_of(s)) != self.end_of(before)
    }

    // 2, "edition not 1, or byte 3 not 0".
    #[tactic(auto, unfolding(rules::specs::Project::foreign))]
    fn is_foreign(self) -> bool
        ensures { result ≡ foreign self.entry.bytes.now }
    {
        (self.bytes[0] != 1) | (self.bytes[3] != 0)
    }

    // 3, "a pair breaks the rule above".
    #[tactic(auto, unfolding(rules::specs::Project::misplaced))]
    fn is_misplaced(self) -> bool
        ensures { result ≡ misplaced self.entry.bytes.now }
    {
        (self.offset_of(Section::Items) != START)
            | self.starts_apart(Section::Imports, Section::Items)
            | self.starts_apart(Section::Circles, Section::Imports)
            | self.starts_apart(Section::Needs, Section::Circles)
            | (self.bytes.len() as u64 != self.end_of(Section::Needs))
    }

    // 4, "items or imports odd in length, needs not a multiple of 3".
    #[tactic(auto, unfolding(rules::specs::Project::ragged))]
    fn is_ragged(self) -> bool
        ensures { result ≡ ragged self.entry.bytes.now }
    {
        (self.length_of(Section::Items) % ITEM_BYTES != 0)
            | (self.length_of(Section::Imports) % IMPORT_BYTES != 0)
            | (self.length_of(Section::Needs) % NEED_BYTES != 0)
    }

    // 5, "M, entry or a section outside its limit".
    #[tactic(auto, unfolding(rules::specs::Project::outsize))]
    fn is_outsize(self) -> bool
        ensures { result ≡ outsize self.entry.bytes.now }
    {
        let modules = self.bytes[1];
        (modules == 0)
            | (Layout::MODULES < modules)
            | (modules <= self.bytes[2])
            | (ITEM_BYTES * Layout::ITEMS < self.length_of(Section::Items))
            | (IMPORT_BYTES * Layout::IMPORTS < self.length_of(Section::Imports))
            | (Layout::CIRCLE_BYTES < self.length_of(Section::Circles))
            | (NEED_BYTES * Layout::NEEDS < self.length_of(Section::Needs))
    }

    // What the header says, whether or not the tests let it pass.
    #[tactic(auto, unfolding(crate::specs::Answers::layout_of))]
    fn said(self) -> Layout
        ensures { result ≡ layout_of self.entry.bytes.now }
    {
        Layout {
            modules: self.bytes[1],
            entry: ModuleId(self.bytes[2]),
            items_end: self.end_of(Section::Items) as usize,
            imports_end: self.end_of(Section::Imports) as usize,
            circles_end: self.end_of(Section::Circles) as usize,
        }
    }
}
