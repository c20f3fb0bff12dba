// Whether a call answered and left what is expected, in numbers.
use crate::fields::part;
use crate::state::same_state;
use external::{Data, Failure, Read, Write};
use frame::ModbusFrame;
use frame::changes::Changes;
use modbus::{Answer, ErrorKind};
use octets::{byte, word};

// What is reported to a call. By hand: a kind has no way back from its number in the library, where nobody needs one.
pub(crate) fn reported(number: u8) -> Result<(), Failure> {
    match number {
        1 => Err(Failure::IllegalFunction),
        2 => Err(Failure::IllegalDataAddress),
        21 => Err(Failure::Refused(ErrorKind::OOB)),
        22 => Err(Failure::Refused(ErrorKind::OOBContext)),
        23 => Err(Failure::Refused(ErrorKind::FrameBroken)),
        24 => Err(Failure::Refused(ErrorKind::FrameCRCError)),
        25 => Err(Failure::Refused(ErrorKind::IllegalDataValue)),
        26 => Err(Failure::Refused(ErrorKind::ReadCallOnWriteFrame)),
        27 => Err(Failure::Refused(ErrorKind::WriteCallOnReadFrame)),
        _ => Ok(()),
    }
}

// The kind and the state.
fn kind_and_state(record: &[u8], kind: u8, s: &ModbusFrame) -> bool {
    kind == byte(record, 29) && same_state(record, s)
}

// The same, and no values.
pub(crate) fn bare(record: &[u8], kind: u8, s: &ModbusFrame) -> bool {
    part(record, 4).len() == 0 && kind_and_state(record, kind, s)
}

pub(crate) fn left(record: &[u8], answer: Result<(), ErrorKind>, s: &ModbusFrame) -> bool {
    bare(record, Answer::from(answer).kind, s)
}

// How many values there are, and the first three: a table's kind, its first cell, how many.
fn cells(record: &[u8], values: usize, of: u16, address: u16, count: u16) -> bool {
    let want = part(record, 4);
    want.len() / 2 == values
        && word(want, 0) == of
        && word(want, 2) == address
        && word(want, 4) == count
}

// The values behind them, 0 behind the last.
fn others(record: &[u8], a: usize, b: usize, c: usize) -> bool {
    let want = part(record, 4);
    word(want, 6) as usize == a && word(want, 8) as usize == b && word(want, 10) as usize == c
}

pub(crate) fn read_left(record: &[u8], answer: Result<Read, ErrorKind>, s: &ModbusFrame) -> bool {
    match answer {
        Err(k) => bare(record, u8::from(k), s),
        Ok(r) => kind_and_state(record, 0, s) && read(record, r),
    }
}

fn read(record: &[u8], r: Read) -> bool {
    let (of, c) = match r {
        Read::Bits(c) => (0, c),
        Read::Words(c) => (1, c),
    };
    cells(record, 5, of, c.address, c.count) && others(record, c.at, c.len, 0)
}

pub(crate) fn write_left(record: &[u8], answer: Result<Write, ErrorKind>, s: &ModbusFrame) -> bool {
    match answer {
        Err(k) => bare(record, u8::from(k), s),
        Ok(w) => kind_and_state(record, 0, s) && write(record, w),
    }
}

// The cells of a write, and where its data are.
fn write(record: &[u8], w: Write) -> bool {
    let (of, c) = match w {
        Write::Bits(c) => (0, c),
        Write::Words(c) => (1, c),
    };
    match c.data {
        Data::Value(v) => cells(record, 5, of, c.address, c.count)
            && others(record, 0, v as usize, 0),
        Data::Place(at, len) => cells(record, 6, of, c.address, c.count)
            && others(record, 1, at, len),
    }
}

pub(crate) fn changes(record: &[u8], s: &ModbusFrame) -> bool {
    match s.changes() {
        Some(Changes::Coils { reg, count }) => kind_and_state(record, 0, s)
            && cells(record, 3, 0, reg, count),
        Some(Changes::Holdings { reg, count }) => kind_and_state(record, 0, s)
            && cells(record, 3, 1, reg, count),
        None => bare(record, 0, s),
    }
}
