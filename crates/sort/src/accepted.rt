// A project that was read and not turned down.
ghost use Rattle.std.specs.Prelude.{◌≡◌, MatchResult};
ghost use Rattle.rules.specs.Project.{refused, section, read};
ghost use Rattle.project.specs.Answers.{number_of};
ghost use Rattle.project.specs.Sections.{Accepts};

use project::{Layout, Refusal};

// Its bytes, and the layout that reading them gave.
#[derive(Clone, Copy)]
pub struct AcceptedProject<'a> {
    bytes: &'a [u8],
    pub l: Layout,
    pub ghost accepts: { Accepts bytes.now l },
}

impl<'a> AcceptedProject<'a> {
    pub fn read(bytes: &'a [u8]) -> Result<Self, Refusal>
        ensures { MatchResult result (λ a. a.bytes.now ≡ bytes.now) (λ r. read bytes.now ≡ refused (number_of r)) }
    {
        let l = project::read(bytes)?;
        Ok(Self { bytes, l })
    }

    pub fn items(self) -> &'a [u8]
        ensures { result.now ≡ section self.entry.bytes.now 0 }
    {
        &self.bytes[Layout::START..self.l.items_end]
    }

    pub fn imports(self) -> &'a [u8]
        ensures { result.now ≡ section self.entry.bytes.now 1 }
    {
        &self.bytes[self.l.items_end..self.l.imports_end]
    }

    pub fn circles(self) -> &'a [u8]
        ensures { result.now ≡ section self.entry.bytes.now 2 }
    {
        &self.bytes[self.l.imports_end..self.l.circles_end]
    }

    pub fn needs(self) -> &'a [u8]
        ensures { result.now ≡ section self.entry.bytes.now 3 }
    {
        &self.bytes[self.l.circles_end..]
    }
}
