// ASCII frames: text into bytes, and bytes into text.
#![tactic(auto)]

mod reading;
mod writing;

ghost use Rattle.std.specs.Prelude.{◌≡◌, ◌%◌};
ghost use Rattle.modbus.specs.Step.{choose};
ghost use Rattle.modbus.specs.Paper.{paper};
ghost use Rattle.modbus.specs.Hex.{spelt, digit};
ghost use Rattle.ascii.specs.Reading.{parsed_into, parsed_under, put_text, generated_into};
ghost use Rattle.ascii.specs.Plain.{digit?};

use modbus::ErrorKind;
use reading::{colon, decode_pairs, parse_by_pairs, plain};
use std::num::wrapping_sub_u8;
use writing::{fits, lay_text, write_line, write_while_room};

// 0 for a digit 0-9 or A-F, 1 for any other character. By two differences that wrap: so the compiler tests sixteen at a time.
pub fn other(c: u8) -> u8
    ensures { result ≡ choose (digit? c) 0 1 }
{
    if wrapping_sub_u8(c, b'0') < 10 || wrapping_sub_u8(c, b'A') < 6 {
        0
    } else {
        1
    }
}

// Decodes the first `data_len` bytes of the data into the frame buffer from `frame_pos` on, and answers how many bytes that gave. Digits a-f
// are read where `hex` is not 0.
pub fn parse_text(
    data: &[u8],
    data_len: usize,
    frame_buf: &mut [u8],
    frame_pos: u8,
    hex: u8,
) -> Result<u8, ErrorKind>
    ensures { (paper result, frame_buf.new) ≡ parsed_into (spelt hex «data».now) data_len frame_buf.old frame_pos }
{
    let at = frame_pos as usize;
    if !plain(data, data_len, frame_buf.len(), at) {
        return parse_by_pairs(data, data_len, frame_buf, frame_pos, hex);
    }
    let from = colon(data[0]);
    let n = (data_len - from) / 2;
    decode_pairs(&data[from..data_len], &mut frame_buf[at..at + n]);
    Ok(n as u8)
}

// The crate's call, under a switch: 0 strict, 1 lenient. C hands over `data_len`, which may be more than the data has.
pub fn parse_ascii_frame(
    data: &[u8],
    data_len: usize,
    frame_buf: &mut [u8],
    frame_pos: u8,
    hex: u8,
) -> Result<u8, ErrorKind>
    ensures { (paper result, frame_buf.new) ≡ parsed_under hex «data».now data_len frame_buf.old frame_pos }
{
    if 1 < hex {
        return Err(ErrorKind::OOB);
    }
    parse_text(data, data_len, frame_buf, frame_pos, hex)
}

// The character of a byte's lower half. By a table: so one character takes one look.
pub fn low_digit(b: u8) -> u8
    ensures { result ≡ digit (b % 16) }
{
    b"0123456789ABCDEF"[(b % 16) as usize]
}

// Puts the bytes as text to the places from `at` on, and says whether there was room for it, as `octets::put_byte` does; else nothing is put.
pub fn put_text(dst: &mut [u8], at: usize, bytes: &[u8]) -> bool
    ensures { (result, dst.new) ≡ put_text dst.old at bytes.now }
{
    if dst.len() < at || (dst.len() - at) / 2 < bytes.len() {
        return false;
    }
    lay_text(dst, at, bytes);
    true
}

// Writes the data as a line of text into the result, and answers how long the line is.
pub fn generate_ascii_frame(data: &[u8], res: &mut [u8]) -> Result<usize, ErrorKind>
    ensures { (paper result, res.new) ≡ generated_into «data».now res.old }
{
    if !fits(data.len(), res.len()) {
        return write_while_room(data, res);
    }
    write_line(data, res);
    Ok(2 * data.len() + 3)
}
