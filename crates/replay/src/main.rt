// Replays a fixed list of the crate's answers, read from standard input: one record a line, in hexadecimal digits, as the head of the list
// says. No Rust is needed for it.
#![tactic(auto)]

use lengths::Side;
use modbus::{Answer, ModbusProto};
use records::Program;

// The bytes of a record before its input.
const HEAD: usize = 11;

// What the port answers to a guess, strict. The C library has the same with its switch; this program is not built on that.
fn guess(side: Side, input: &[u8], proto: u8) -> Answer {
    match ModbusProto::try_from(proto) {
        Ok(p) => Answer::from(lengths::guess_frame_len(side, input, p, 0)),
        Err(e) => Answer::from(e),
    }
}

// What the port answers to a call, strict, as the crate reads; the calls that are lent a buffer leave it changed.
fn answer(call: u8, small: u8, size: usize, input: &[u8], lent: &mut [u8]) -> Answer {
    match call {
        1 => Answer::from(Ok(checks::calc_crc16(input, small))),
        2 => Answer::from(checks::calc_lrc(input, small)),
        3 => Answer::from(checks::digit_under(small, 0)),
        4 => Answer::from(checks::hex_to_chr(small)),
        5 => Answer::from(ascii::parse_ascii_frame(input, size, lent, small, 0)),
        6 => Answer::from(ascii::generate_ascii_frame(input, lent)),
        7 => guess(Side::Request, input, small),
        _ => guess(Side::Response, input, small),
    }
}

// The data_len of a record, where 65,535 stands for the largest there is.
fn size_of(record: &[u8]) -> usize {
    let size = octets::word(record, 2);
    if size == 65535 {
        return usize::MAX;
    }
    size as usize
}

// Whether the port answers as the record says, and leaves the lent buffer so.
fn agrees(record: &[u8], input: &[u8], after: &[u8], lent: &mut [u8]) -> bool {
    if record.len() < HEAD {
        return false;
    }
    records::parts::lay_counted(lent, &[]);
    let size = size_of(record);
    let got = answer(record[0], record[1], size, input, lent);
    if got.kind != record[8] {
        return false;
    }
    if got.value != octets::word(record, 9) as usize {
        return false;
    }
    &*lent == after
}

// A record taken apart: its head, the input, and the lent buffer as it is afterwards.
fn replayed(record: &[u8], lent: &mut [u8]) -> bool {
    let n = octets::word(record, 4) as usize;
    let m = octets::word(record, 6) as usize;
    let from = HEAD + n;
    if record.len() != from + m {
        return false;
    }
    if lent.len() < m {
        return false;
    }
    agrees(record, &record[HEAD..from], &record[from..], &mut lent[..m])
}

// Room for the lent buffer of every record.
#[derive(Drop)]
struct Replay {
    lent: [u8; 4096],
}

impl Program for Replay {
    fn agrees(&mut self, record: &[u8]) -> bool {
        replayed(record, &mut self.lent)
    }
}

// No list has so many records.
const MOST: u32 = 1000000;

fn main(rt: HostRuntime) {
    let mut replay = Replay { lent: [0; 4096] };
    let tally = records::run(rt.stdin(), rt.stdout(), MOST, &mut replay);
    records::report(
        rt.stdout(),
        tally,
        b"answers of the crate replayed: ",
        b"answers that differ: ",
    );
}
