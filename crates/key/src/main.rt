// The key of a project on standard input, of which at most 8,229 bytes are read: `ok`, the numbers of kept items, groups, module visits and item
// visits, and a second line with the load order; or `no` and the number by which it is turned down.
#![tactic(auto)]

ghost use Rattle.std.specs.Prelude.{◌≤◌, ◌≡◌, length, IfSome, OnOk};
ghost use Rattle.std.specs.Io.KnownBytes.{Appends};
ghost use Rattle.rules.specs.Keys.{key_input_limit, printed};
ghost use Rattle.keys.specs.Texts.{key_text_limit};
ghost use Rattle.key.specs.Prints.{Prints};

use input::read_full;
use std::io;
use std::io::{Read, Write};

// The bytes that are read at most.
const INPUT_LIMIT: usize = 8229;

// Writes what is to be printed for the bytes read; how many bytes that are.
fn text_of(read: &[u8], text: &mut [u8]) -> usize
    requires { key_text_limit ≤ length text.old }
    ensures { Prints read.now text.new result }
{
    // It is never too short.
    keys::render(read, text).unwrap()
}

// Reads at most 8,229 bytes and writes their key. Where it is known which bytes are to come, these are those that the paper prints for that input; which
// bytes standard input gives no contract can say, so `main` says nothing.
fn print_key<R: Read, W: Write>(input: &mut R, output: &mut W) -> io::Result<()>
    ensures { OnOk result (IfSome (R.remaining input.old)
        (λ all. Appends (W.contents output.old) (W.contents output.new) (printed all))) }
{
    let mut read = [0u8; INPUT_LIMIT];
    let mut text = [0u8; keys::TEXT_LIMIT];
    let n = read_full(input, &mut read)?;
    let end = text_of(&read[..n], &mut text);
    output.write_all(&text[..end])
}

fn main(rt: HostRuntime) -> io::Result<()> {
    print_key(&mut rt.stdin(), &mut rt.stdout())
}
