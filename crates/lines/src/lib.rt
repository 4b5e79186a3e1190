// Calls of the entries that are written as lines of text. A line is the word `groups` or `order`, the length of the reply, that of the report, the
// allowance and the project's bytes, all in base 16. Reply and report are parts of larger arrays, whose bytes all start as 170. Of these functions only
// bounds are proved; that they read a line so is seen in what the programs print.
#![tactic(auto)]

pub mod text;

ghost use Rattle.std.specs.Prelude.{◌≡◌, ◌+◌, ◌≤◌, ◌↔◌, ◌⊎◌, length, take, replicate, slice_get, IsSome};

use sort::{entry, groups_entry};
use text::{Pieces, value_of};

// The bytes that stand before a reply or a report, and behind it.
pub const AROUND: usize = 2;

// What every byte of the arrays is before a call.
const UNTOUCHED: u8 = 170;

// The bytes of the arrays that the programs make.
pub const PROJECT_ROOM: usize = 8300;

pub const REPLY_ROOM: usize = 4200;

pub const REPORT_ROOM: usize = 40;

// The bytes of the words; how many. Which bytes they are is left free: what a test program reads is seen in what it prints.
pub fn bytes_of(words: Pieces<'_>, out: &mut [u8]) -> usize
    ensures { result ≤ length out.new }
{
    let mut n = 0;
    for (place, word) in out.iter_mut().zip(words) {
        *place = (value_of(word) % 256) as u8;
        n += 1;
    }
    n
}

// The length of a reply or a report, as a line asks for it. Proved is that the array has room for it and the bytes around it.
fn length_of(value: u32, array: &[u8]) -> usize
    requires { 4 ≤ length array.now }
    ensures { result + 4 ≤ length array.now }
{
    let most = array.len() - 2 * AROUND;
    most.min(value as usize)
}

// The two entries.
#[derive(Clone, Copy)]
enum Entry {
    Groups,
    Order,
}

impl Entry {
    // The entry that a line's first letter names.
    fn named(letter: u8) -> Option<Self>
        ensures { IsSome result ↔ ((letter ≡ 103) ⊎ (letter ≡ 111)) }
    {
        match letter {
            b'g' => Some(Entry::Groups),
            b'o' => Some(Entry::Order),
            _ => None,
        }
    }

    fn enter(self, project: &[u8], reply: &mut [u8], report: &mut [u8], allowance: u32) -> u32 {
        match self {
            Entry::Groups => groups_entry::escarpim_groups(project, reply, report, allowance),
            Entry::Order => entry::escarpim_order(project, reply, report, allowance),
        }
    }
}

// A call, as a line writes it: the entry, the lengths of reply and report, the allowance, and the words of the project.
#[derive(Clone, Copy)]
pub struct Call<'a> {
    entry: Entry,
    reply: u32,
    report: u32,
    allowance: u32,
    project: Pieces<'a>,
}

impl<'a> Call<'a> {
    // None where the line names no entry: its first letter is neither a `g` nor an `o`.
    pub fn read(line: &'a [u8]) -> Option<Self>
        ensures { IsSome result ↔ ((slice_get line.now 0 ≡ Some 103) ⊎ (slice_get line.now 0 ≡ Some 111)) }
    {
        let entry = Entry::named(*line.first()?)?;
        let mut words = Pieces::new(line, b' ');
        words.next();
        let reply = words.next().map_or(0, value_of);
        let report = words.next().map_or(0, value_of);
        let allowance = words.next().map_or(0, value_of);
        Some(Call {
            entry,
            reply,
            report,
            allowance,
            project: words,
        })
    }
}

// What a call has returned, and the bytes that it was given, with those around them.
#[derive(Clone, Copy)]
pub struct Returned<'a> {
    pub number: u32,
    pub reply: &'a [u8],
    pub report: &'a [u8],
}

// The arrays that reply and report are parts of.
#[derive(PartialEq, Drop)]
pub struct Arrays<const REPLY: usize, const REPORT: usize> {
    reply: [u8; REPLY],
    report: [u8; REPORT],
}

impl<const REPLY: usize, const REPORT: usize> Arrays<REPLY, REPORT> {
    pub fn new() -> Self
        ensures { (result.reply ≡ replicate REPLY 170) × (result.report ≡ replicate REPORT 170) }
    {
        Arrays {
            reply: [UNTOUCHED; REPLY],
            report: [UNTOUCHED; REPORT],
        }
    }

    // The arrays after a call that has written these words to the reply and to the report.
    pub fn written(reply: &[u8], report: &[u8]) -> Self
        requires { (AROUND ≤ REPLY) × (AROUND ≤ REPORT) }
        ensures { (take AROUND result.reply ≡ replicate AROUND 170) × (take AROUND result.report ≡ replicate AROUND 170) }
    {
        let mut arrays = Arrays::new();
        arrays.write(reply, report);
        arrays
    }

    // Makes the arrays what they are after a call that has written these words to the reply and to the report.
    pub fn write(&mut self, reply: &[u8], report: &[u8])
        requires { (AROUND ≤ REPLY) × (AROUND ≤ REPORT) }
        ensures { (take AROUND self.new.reply ≡ replicate AROUND 170) × (take AROUND self.new.report ≡ replicate AROUND 170) }
    {
        let reply_due = &mut self.reply[..];
        let report_due = &mut self.report[..];
        reply_due.fill(UNTOUCHED);
        report_due.fill(UNTOUCHED);
        bytes_of(Pieces::new(reply, b' '), &mut reply_due[AROUND..]);
        bytes_of(Pieces::new(report, b' '), &mut report_due[AROUND..]);
    }

    // Makes a call, whose project's bytes are written to `project`. What project, reply and report hold then is left free.
    pub fn run(&mut self, call: Call<'_>, project: &mut [u8]) -> Returned<'_>
        requires { (4 ≤ REPLY) × (4 ≤ REPORT) }
        ensures { (length result.reply.now ≤ REPLY) × (length result.report.now ≤ REPORT) }
    {
        let reply = &mut self.reply[..];
        let report = &mut self.report[..];
        reply.fill(UNTOUCHED);
        report.fill(UNTOUCHED);
        let n = bytes_of(call.project, project);
        let reply_end = AROUND + length_of(call.reply, reply);
        let report_end = AROUND + length_of(call.report, report);
        let number = call.entry.enter(
            &project[..n],
            &mut reply[AROUND..reply_end],
            &mut report[AROUND..report_end],
            call.allowance,
        );
        Returned {
            number,
            reply: &reply[..reply_end + AROUND],
            report: &report[..report_end + AROUND],
        }
    }
}
