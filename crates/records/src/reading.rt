// A list as standard input brings it: text, lines, and the bytes of a record.
ghost use Rattle.std.specs.Prelude.{◌≡◌, ◌≤◌, length, IfSome};
ghost use Rattle.records.specs.Counted.{opening};

use std::io::{Read, Stdin};

// What a line is, as far as it was read: a record, a remark, or one that should be a record and is none.
#[derive(Clone, Copy, PartialEq, Eq)]
enum Line {
    Record,
    Remark,
    Broken,
}

// Where the reading stands: in the text that was read last, and in the line, of which so many bytes are read and maybe the high half of one more.
#[derive(Clone, Copy)]
pub struct Reading {
    at: usize,
    have: usize,
    ended: bool,
    line: Line,
    len: usize,
    high: Option<u8>,
}

impl Reading {
    // Before anything is read.
    pub fn new() -> Reading
        ensures { result ≡ opening }
    {
        Reading {
            at: 0,
            have: 0,
            ended: false,
            line: Line::Record,
            len: 0,
            high: None,
        }
    }

    // At the same place in the text a line begins.
    fn begin_line(&mut self)
        ensures { self.new.len ≡ 0 }
    {
        self.line = Line::Record;
        self.len = 0;
        self.high = None;
    }

    // A line has ended, and the next begins. Answers how many bytes its record has, if it has one: what is no record although it should be one
    // is a record of no bytes.
    fn close(&mut self) -> Option<usize>
        ensures ended { self.new.len ≡ 0 }
        ensures bounded { IfSome result (λ n. n ≤ self.old.len) }
    {
        let line = self.line;
        let len = self.len;
        let half = self.high.is_some();
        self.begin_line();
        match line {
            Line::Broken => Some(0),
            Line::Remark => None,
            Line::Record if half => Some(0),
            Line::Record if len == 0 => None,
            Line::Record => Some(len),
        }
    }

    // One digit more. What is no digit, or stands beyond the longest record, breaks the line.
    fn digit(&mut self, record: &mut [u8], c: u8)
        requires { self.old.len ≤ length «record».old }
        ensures { self.new.len ≤ length «record».new }
    {
        let len = self.len;
        let Ok(v) = checks::digit_under(c, 0) else {
            self.line = Line::Broken;
            return;
        };
        if record.len() <= len {
            self.line = Line::Broken;
            return;
        }
        let Some(high) = self.high else {
            self.high = Some(v % 16);
            return;
        };
        record[len] = (high % 16) * 16 + v % 16;
        self.len = len + 1;
        self.high = None;
    }

    // One character of the list; a record, where it ends one.
    fn take(&mut self, record: &mut [u8], c: u8) -> Option<usize>
        requires { self.old.len ≤ length «record».old }
        ensures bounded { self.new.len ≤ length «record».new }
        ensures found { IfSome result (λ n. n ≤ length «record».new) }
    {
        if c == b'\n' {
            return self.close();
        }
        if self.line != Line::Record || c == b' ' {
            return None;
        }
        if c == b'#' && self.len == 0 && self.high.is_none() {
            self.line = Line::Remark;
            return None;
        }
        self.digit(record, c);
        None
    }
}

// Reads until the text is full, the input ends or a read fails. Answers how many bytes stand at its front then: `read_exact` would not say that at the end.
fn fill(mut input: Stdin, text: &mut [u8]) -> usize
    ensures { result ≤ length text.new }
{
    let mut done = 0;
    while done < text.len() {
        match input.read(&mut text[done..]) {
            Ok(0) | Err(_) => break,
            Ok(n) => done += n,
        }
    }
    done
}

// One character more, or more text where there is none left. The end of the input ends its last line.
fn step(s: &mut Reading, input: Stdin, text: &mut [u8], record: &mut [u8]) -> Option<usize>
    requires { s.old.len ≤ length «record».old }
    ensures bounded { s.new.len ≤ length «record».new }
    ensures found { IfSome result (λ n. n ≤ length «record».new) }
{
    let at = s.at;
    if at < s.have && at < text.len() {
        s.at = at + 1;
        return s.take(record, text[at]);
    }
    s.at = 0;
    s.have = fill(input, text);
    if s.have != 0 {
        return None;
    }
    s.ended = true;
    s.close()
}

// The next record at the front of `record`: how many bytes it has, or none where the list has ended. A proved loop has to end, and nothing says
// that the input does: so the loop counts its turns, up to a number that no line reaches.
pub fn next(s: &mut Reading, input: Stdin, text: &mut [u8], record: &mut [u8]) -> Option<usize>
    ensures bounded { s.new.len ≤ length «record».new }
    ensures found { IfSome result (λ n. n ≤ length «record».new) }
{
    s.begin_line();
    for _ in 0..1000000000u32 {
        if s.ended {
            return None;
        }
        if let Some(len) = step(s, input, text, record) {
            return Some(len);
        }
    }
    None
}
