// What is printed: the totals or the fault on standard output, and how far the count is on a terminal.
use crate::reading::Failure;
use logs::{Fault, Total};
use std::io::IsTerminal;
use std::time::Clock;

fn line(rt: &HostRuntime, what: &str, n: u64) {
    let _ = println!(rt; "{what} {n}");
}

// What cannot be written is let go: the status is 0, whatever comes. The totals are a print each, and no `Display` of all: a line that fails must
// not stop the next.
pub(crate) fn say(rt: &HostRuntime, outcome: Result<Total, Failure>) {
    match outcome {
        Ok(total) => {
            line(rt, "records", total.records);
            line(rt, "frames", total.frames);
            line(rt, "frame bytes", total.inside);
            line(rt, "other bytes", total.other);
        }
        Err(Failure::Refused(Fault::BadMark(at))) => line(rt, "bad mark at", at),
        Err(Failure::Refused(Fault::BadRecord(at))) => line(rt, "bad record at", at),
        Err(Failure::Refused(Fault::TooLong)) => {
            let _ = println!(rt; "too long");
        }
        Err(Failure::CannotRead) => {
            let _ = eprintln!(rt; "linecount: cannot read");
        }
    }
}

// A clock that cannot be read stands still.
fn second(rt: &HostRuntime) -> u64 {
    rt.since_1970().map_or(0, |t| t.as_secs())
}

// How the telling goes: not a whole second has begun yet, one has, a line stands on the terminal.
#[derive(Clone, Copy)]
enum Step {
    First,
    Begun,
    Told,
}

// Tells on a terminal how far the count is. `second` is the one in which it last looked.
#[derive(Clone, Copy)]
pub(crate) struct Watch {
    second: u64,
    step: Step,
}

impl Watch {
    // None where standard error is no terminal.
    pub(crate) fn begin(rt: &HostRuntime) -> Option<Watch> {
        if !rt.stderr().is_terminal() {
            return None;
        }
        Some(Watch {
            second: second(rt),
            step: Step::First,
        })
    }

    // Once a second, from the second second on: how far the log is counted. The line is written over.
    pub(crate) fn tell(&mut self, rt: &HostRuntime, total: Total) {
        let now = second(rt);
        if now == self.second {
            return;
        }
        self.second = now;
        if let Step::First = self.step {
            self.step = Step::Begun;
            return;
        }
        let at = total.at;
        let frames = total.frames;
        let _ = eprint!(rt; "\rlinecount: {at} bytes, {frames} frames");
        self.step = Step::Told;
    }

    pub(crate) fn end(self, rt: &HostRuntime) {
        if let Step::Told = self.step {
            let _ = eprintln!(rt;);
        }
    }
}
