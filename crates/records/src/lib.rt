// A list of records on standard input: a record a line, in hexadecimal digits with blanks between them as you like.
// A line that begins with # only says something. For the programs that run lists of known answers.
#![tactic(auto)]

pub mod parts;
pub mod reading;

ghost use Rattle.std.specs.Prelude.{◌≡◌, ◌≤◌, true, false};
ghost use Rattle.modbus.specs.Step.{choose, ◌≟◌};
ghost use Rattle.records.specs.Counted.{tallied};

use reading::{Reading, next};
use std::io::{Stdin, Stdout, Write};

// How many records were run, and how many of them were answered otherwise.
#[derive(Clone, Copy, Default)]
pub struct Tally {
    pub records: u64,
    pub wrong: u64,
}

impl Tally {
    // One record more; where it was not right, it is named by its number.
    pub fn judge(&mut self, out: Stdout, right: bool)
        ensures { self.new ≡ tallied self.old right }
    {
        self.records = std::num::wrapping_add_u64(self.records, 1);
        if right {
            return;
        }
        say(out, b"differs: record ", self.records);
        self.wrong = std::num::wrapping_add_u64(self.wrong, 1);
    }
}

// A program that runs a list. A trait and no closure: of a closure `run` would have to require that it may be called.
pub trait Program {
    // Whether what the record says came out.
    fn agrees(&mut self, record: &[u8]) -> bool;
}

// Runs the list, record by record. A proved loop has to end, and nothing says that the list does: so the loop counts its turns, up to a
// number that no list reaches.
pub fn run<P: Program>(input: Stdin, out: Stdout, most: u32, program: &mut P) -> Tally
    ensures { (result.wrong ≤ result.records) × (result.records ≤ most) }
{
    let mut text = [0; 4096];
    let mut record = [0; 4096];
    let mut reading = Reading::new();
    let mut tally = Tally::default();
    for turn in 0..most {
        let Some(len) = next(&mut reading, input, &mut text, &mut record) else {
            return tally;
        };
        tally.judge(out, program.agrees(&record[..len]));
    }
    tally
}

// A line on standard output. What cannot be written is let go.
fn say(out: Stdout, what: &[u8], n: u64) {
    let mut out = out;
    let _ = out.write_all(what);
    let _ = writeln!(out, "{n}");
}

// Says how many records were run, and how many of them were answered otherwise; whether none was.
pub fn report(out: Stdout, t: Tally, run: &[u8], differ: &[u8]) -> bool
    ensures { result ≡ choose (t.wrong ≟ 0) true false }
{
    say(out, run, t.records);
    say(out, differ, t.wrong);
    if t.wrong != 0 {
        return false;
    }
    true
}
