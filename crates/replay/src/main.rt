// Replays the stored answers that stand on standard input: makes the call of each line and compares the number, the reply and the report with what
// the line says. A line is a call as crates/lines has it, then, each behind a colon, the number, the bytes that the reply gets and those that
// the report gets, in base 16; all other bytes of both, and those around them, have to stay 170. The number is the word that begins behind the first
// colon and ends at the next blank or at the line's end; a colon in it counts as the digit 0. A line that starts with '#' is passed over. Prints each
// line that differs, and how many calls were made and how many differ. No contract says what is compared or printed.
#![tactic(auto)]

ghost use Rattle.std.specs.Prelude.{◌≡◌, ◌+◌, ◌^◌, ◌<◌, if◌then◌else◌};

use input::read_full;
use lines::text::{Pieces, value_of};
use lines::{Arrays, Call, PROJECT_ROOM, REPLY_ROOM, REPORT_ROOM};
use std::io;
use std::io::Read;

// What calls are made with: the bytes of a project, the arrays, and what these have to become. It is made once, since it is long.
#[derive(Drop)]
struct Memory {
    project: [u8; PROJECT_ROOM],
    arrays: Arrays<REPLY_ROOM, REPORT_ROOM>,
    due: Arrays<REPLY_ROOM, REPORT_ROOM>,
}

// A call and what has to come of it: the number that it returns, and the words written to the reply and to the report.
#[derive(Clone, Copy)]
struct Stored<'a> {
    call: Call<'a>,
    number: u32,
    reply: &'a [u8],
    report: &'a [u8],
}

impl<'a> Stored<'a> {
    // None where the line names no entry.
    fn read(line: &'a [u8]) -> Option<Self> {
        let mut parts = Pieces::new(line, b':');
        let call = Call::read(parts.next()?)?;
        let mut number = Pieces::new(parts.rest, b' ');
        parts.next();
        let reply = parts.next().unwrap_or(b"");
        Some(Stored {
            call,
            number: number.next().map_or(0, value_of),
            reply,
            report: parts.rest,
        })
    }

    // Whether the call returns and leaves what it has to.
    fn holds(&self, memory: &mut Memory) -> bool {
        let number = memory.arrays.run(self.call, &mut memory.project).number;
        if number != self.number {
            return false;
        }
        memory.due.write(self.reply, self.report);
        memory.arrays == memory.due
    }
}

// How many calls there were, and how many of them differ.
#[derive(Clone, Copy, Default)]
struct Count {
    calls: usize,
    differ: usize,
}

impl Count {
    // Counts a call, which holds or differs.
    fn add_call(&mut self, holds: bool)
        requires calls { self.old.calls < usize.MAX }
        requires differ { self.old.differ < usize.MAX }
        ensures calls { self.new.calls ≡ self.old.calls + 1 }
        ensures differ { self.new.differ ≡ (if holds then self.old.differ else self.old.differ + 1) }
    {
        self.calls += 1;
        self.differ += usize::from(!holds);
    }
}

// Replays a line: whether it holds, or None for a remark. One that is neither a remark nor a call does not hold.
fn replay_line(line: &[u8], memory: &mut Memory) -> Option<bool> {
    match line {
        [] | [b'#', ..] => None,
        _ => Some(Stored::read(line).is_some_and(|stored| stored.holds(memory))),
    }
}

fn replay_lines(rt: &impl Print, lines: Pieces<'_>) -> io::Result<Count> {
    let mut count = Count::default();
    let mut memory = Memory {
        project: [0; PROJECT_ROOM],
        arrays: Arrays::new(),
        due: Arrays::new(),
    };
    for line in lines {
        let Some(holds) = replay_line(line, &mut memory) else {
            continue;
        };
        count.add_call(holds);
        if !holds {
            rt.write_all(b"differs: ")?;
            rt.write_all(line)?;
            rt.write_all(b"\n")?;
        }
    }
    Ok(count)
}

// Replays the lines of the first `LIMIT` bytes of the input. The limit is a parameter, so that no proof has to spell out so long an array.
fn replay_input<const LIMIT: usize>(rt: &impl Print, input: &mut impl Read) -> io::Result<()>
    requires { LIMIT < 2 ^ 63 }
{
    let mut read = [0u8; LIMIT];
    let n = read_full(input, &mut read)?;
    let count = replay_lines(rt, Pieces::new(&read[..n], b'\n'))?;
    println!(rt; "{} calls, {} differ", count.calls, count.differ)
}

fn main(rt: HostRuntime) -> io::Result<()> {
    replay_input::<524288>(&rt, &mut rt.stdin())
}
