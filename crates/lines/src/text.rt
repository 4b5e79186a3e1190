// Reading texts that a byte parts into pieces: an input's lines, a line's words.
ghost use Rattle.std.specs.Prelude.{◌≡◌, ◌<◌, [], length, MatchOption};
ghost use Rattle.std.specs.Iterator.{at_most};

// The pieces of a text, each ended by a byte or by the text's end. (`split` would give one more behind the last byte.)
#[derive(Clone, Copy)]
pub struct Pieces<'a> {
    // What was not read yet.
    pub rest: &'a [u8],
    end: u8,
}

impl<'a> Pieces<'a> {
    pub fn new(text: &'a [u8], end: u8) -> Self
        ensures whole { result.rest.now ≡ text.now }
        ensures by { result.end ≡ end }
    {
        Pieces { rest: text, end }
    }
}

impl<'a> Iterator for Pieces<'a> {
    ghost use Rattle.lines.specs.Pieces.{PieceTaken};

    type Item = &'a [u8];

    // None comes only where nothing is left.
    ghost next_gives = { λ s r t. MatchOption r ((s.rest.now ≡ []) × (t ≡ s)) (λ piece. PieceTaken piece.now s t) };

    ghost remaining = { λ s. at_most (length s.rest.now) };

    fn next(&mut self) -> Option<&'a [u8]> {
        if self.rest.is_empty() {
            return None;
        }
        let end = self.end;
        let at = self.rest.iter().position(|byte| *byte == end);
        let (piece, behind) = self.rest.split_at(at.unwrap_or(self.rest.len()));
        self.rest = behind.get(1..).unwrap_or(b"");
        Some(piece)
    }
}

// The value of a digit in base 16. Any other byte counts as 0, also a capital letter, which `to_digit` would read.
pub fn digit(byte: u8) -> u8
    ensures { result < 16 }
{
    match byte {
        b'0'..=b'9' => byte - b'0',
        b'a'..=b'f' => byte - b'a' + 10,
        _ => 0,
    }
}

// The value of a word in base 16. From the digit on that would take it past 32 bits the rest is passed over.
pub fn value_of(word: &[u8]) -> u32 {
    let mut value = 0u32;
    for byte in word {
        let Some(higher) = value.checked_mul(16) else {
            return value;
        };
        value = higher + u32::from(digit(*byte));
    }
    value
}
