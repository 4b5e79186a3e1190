// Runs the entries on the calls that stand on standard input, a line each, and prints what they return and write. A line that starts with '#' is
// copied. A call is a line of crates/lines: printed are the number, the reply and the report, these two with the bytes that stand before and
// behind them. Any other line is copied behind a question mark, and no call is made. No contract says what is printed: the file stdout has it, and a
// test of compare/ holds that file to the plain rendering.
#![tactic(auto)]

ghost use Rattle.std.specs.Prelude.{◌^◌, ◌<◌};

use input::read_full;
use lines::text::Pieces;
use lines::{Arrays, Call, PROJECT_ROOM, REPLY_ROOM, REPORT_ROOM};
use std::io;
use std::io::Read;

fn print_bytes(rt: &impl Print, bytes: &[u8]) -> io::Result<()> {
    for byte in bytes {
        print!(rt; " {byte}")?;
    }
    Ok(())
}

// Makes a call and prints its number, the reply and the report.
fn run_call(
    rt: &impl Print,
    call: Call<'_>,
    project: &mut [u8],
    arrays: &mut Arrays<REPLY_ROOM, REPORT_ROOM>,
) -> io::Result<()> {
    let answer = arrays.run(call, project);
    print!(rt; " {} :", answer.number)?;
    print_bytes(rt, answer.reply)?;
    rt.write_all(b" :")?;
    print_bytes(rt, answer.report)?;
    rt.write_all(b"\n")
}

fn print_line(rt: &impl Print, line: &[u8]) -> io::Result<()> {
    rt.write_all(line)?;
    rt.write_all(b"\n")
}

// Copies a remark, makes a call, or marks what is neither.
fn run_line(
    rt: &impl Print,
    line: &[u8],
    project: &mut [u8],
    arrays: &mut Arrays<REPLY_ROOM, REPORT_ROOM>,
) -> io::Result<()> {
    match line {
        [] => Ok(()),
        [b'#', ..] => print_line(rt, line),
        _ => match Call::read(line) {
            Some(call) => run_call(rt, call, project, arrays),
            None => {
                rt.write_all(b"? ")?;
                print_line(rt, line)
            }
        },
    }
}

// Runs the lines of the first `LIMIT` bytes of the input. The limit is a parameter, so that no proof has to spell out so long an array.
fn run_input<const LIMIT: usize>(rt: &impl Print, input: &mut impl Read) -> io::Result<()>
    requires { LIMIT < 2 ^ 63 }
{
    let mut read = [0u8; LIMIT];
    let n = read_full(input, &mut read)?;
    let mut project = [0u8; PROJECT_ROOM];
    let mut arrays = Arrays::new();
    for line in Pieces::new(&read[..n], b'\n') {
        run_line(rt, line, &mut project, &mut arrays)?;
    }
    Ok(())
}

fn main(rt: HostRuntime) -> io::Result<()> {
    run_input::<131072>(&rt, &mut rt.stdin())
}
