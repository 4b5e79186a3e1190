// The key of a project: the text that crates/key prints.
#![tactic(auto)]

mod text;

ghost use Rattle.std.specs.Prelude.{◌≤◌, length};
ghost use Rattle.rules.specs.Project.{item_limit};
ghost use Rattle.rules.specs.Keys.{key_of, key_text};
ghost use Rattle.keys.specs.Texts.{key_text_limit, answer_of, Renders};

use sort::Numbers;
use text::Text;

// The bytes of a reply: one for each item that there can be.
const REPLY: usize = 256;

// The visits that the sort of a project may take.
const ALLOWANCE: u32 = 100000;

// No key is longer.
pub const TEXT_LIMIT: usize = 1072;

// A slice has not the length that the text asks for.
#[derive(Clone, Copy, Debug)]
pub struct TooShort {
    pub length: usize,
}

// Renders the key of a project into a slice; how long it is. Where the slice is too short, nothing is written.
pub fn render(project: &[u8], out: &mut [u8]) -> Result<usize, TooShort>
    ensures key { Renders (key_text project.now) out.old out.new result }
    ensures most { length (key_text project.now) ≤ key_text_limit }
{
    let mut reply = [0u8; REPLY];
    let numbers = sort::order(project, &mut reply, ALLOWANCE);
    let kept = numbers.kept as usize;
    render_answer(numbers, &reply[..kept], out)
}

// Renders the text of an answer: makes it in memory of its own, and copies it where the slice is long enough.
fn render_answer(numbers: Numbers, rows: &[u8], out: &mut [u8]) -> Result<usize, TooShort>
    requires { length rows.now ≤ item_limit }
    ensures key { Renders (key_of (answer_of numbers rows.now)) out.old out.new result }
    ensures most { length (key_of (answer_of numbers rows.now)) ≤ key_text_limit }
{
    let text = Text::of(numbers, rows);
    let length = text.len();
    if out.len() < length {
        return Err(TooShort { length });
    }
    out[..length].copy_from_slice(text.as_bytes());
    Ok(length)
}
