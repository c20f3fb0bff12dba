// The checks of MODBUS over serial lines, and the hexadecimal digits of its ASCII form.
#![tactic(auto)]

ghost use Rattle.std.specs.Prelude.{◌≡◌, ◌*◌, ◌/◌, ◌≤◌, length, take, drop};
ghost use Rattle.modbus.specs.Paper.{told, told_kind, paper, hex_paper};
ghost use Rattle.modbus.specs.Check.{shift, crc_byte, crc_from, crc};
ghost use Rattle.modbus.specs.Hex.{undigit, kinded, spell, character};
ghost use Rattle.checks.specs.Within.{lrc_within};

use modbus::{Digit, ErrorKind};
use std::num::wrapping_sub_u8;

// The register after one bit.
pub fn crc_shift(crc: u32) -> u32
    ensures { result ≡ shift «crc» }
{
    if (crc & 0x0001) == 0 {
        crc >> 1
    } else {
        (crc >> 1) ^ 0xA001
    }
}

// The register after one byte. The compiler turns this loop into a table of 256 entries; eight shifts written out lose that.
pub fn crc_byte(crc: u32, b: u8) -> u32
    ensures { result ≡ crc_byte «crc» b }
{
    let mut c = crc ^ (b as u32);
    for _ in 0..8u8 {
        c = crc_shift(c);
    }
    c
}

// The register after two bytes, taken as one number: the one that is not shifted out yet waits in the register's upper part.
fn crc_two(crc: u32, first: u8, second: u8) -> u32
    ensures { result ≡ crc_byte (crc_byte «crc» first) second }
{
    let mut c = crc ^ ((second as u32) * 256 + first as u32);
    for _ in 0..16u8 {
        c = crc_shift(c);
    }
    c
}

// The same for four.
fn crc_four(crc: u32, first: u8, second: u8, third: u8, fourth: u8) -> u32
    ensures { result ≡ crc_byte (crc_byte (crc_byte (crc_byte «crc» first) second) third) fourth }
{
    let high = (fourth as u32) * 256 + third as u32;
    let low = (second as u32) * 256 + first as u32;
    let mut c = crc ^ (high * 65536 + low);
    for _ in 0..32u8 {
        c = crc_shift(c);
    }
    c
}

// The register after as many fours as n bytes have. By `chunks_exact`, with a match on what it leaves, 253 bytes take 6 per cent more, and 6 bytes 4.
fn crc_fours(frame: &[u8], n: usize) -> u32
    requires { n ≤ length frame.now }
    ensures { crc_from result (drop (4 * (n / 4)) (take n frame.now)) ≡ crc (take n frame.now) }
{
    let mut c: u32 = 0xffff;
    for k in 0..n / 4 {
        let i = 4 * k;
        c = crc_four(c, frame[i], frame[i + 1], frame[i + 2], frame[i + 3]);
    }
    c
}

// The register after the two bytes that come after the fours, if n bytes have these.
fn crc_pair(crc: u32, frame: &[u8], n: usize) -> u32
    requires { n ≤ length frame.now }
    ensures { crc_from result (drop (2 * (n / 2)) (take n frame.now)) ≡ crc_from «crc» (drop (4 * (n / 4)) (take n frame.now)) }
{
    if n % 4 < 2 {
        return crc;
    }
    let i = 4 * (n / 4);
    crc_two(crc, frame[i], frame[i + 1])
}

// The register after the last byte, if n is odd.
fn crc_last(crc: u32, frame: &[u8], n: usize) -> u32
    requires { n ≤ length frame.now }
    ensures { result ≡ crc_from «crc» (drop (2 * (n / 2)) (take n frame.now)) }
{
    if n % 2 == 0 {
        return crc;
    }
    crc_byte(crc, frame[n - 1])
}

// The CRC of the first `data_length` bytes of the frame, or of all where it has fewer: so C and the crate hand them over.
pub fn calc_crc16(frame: &[u8], data_length: u8) -> u16
    ensures { result ≡ crc (take data_length frame.now) }
{
    let n = frame.len().min(data_length as usize);
    let fours = crc_fours(frame, n);
    let pairs = crc_pair(fours, frame, n);
    let c = crc_last(pairs, frame, n);
    (c % 65536) as u16
}

// The LRC of the first `data_length` bytes of the frame: a running byte, from which each is taken off, wrapping at 256. Where the frame
// has fewer, FrameBroken.
pub fn calc_lrc(frame: &[u8], data_length: u8) -> Result<u8, ErrorKind>
    ensures { paper result ≡ told (lrc_within frame.now data_length) }
{
    let n = data_length as usize;
    if frame.len() < n {
        return Err(ErrorKind::FrameBroken);
    }
    let mut lrc: u8 = 0;
    for b in &frame[..n] {
        lrc = wrapping_sub_u8(lrc, *b);
    }
    Ok(lrc)
}

// What a character 0-9, A-F or a-f stands for, and which kind it is.
#[tactic(auto, using(modbus::proofs::HexLaws::kinded_figure, modbus::proofs::HexLaws::kinded_capital, modbus::proofs::HexLaws::kinded_small, modbus::proofs::HexLaws::kinded_none))]
pub fn chr_to_hex(c: u8) -> Result<Digit, ErrorKind>
    ensures { hex_paper result ≡ told_kind (kinded c) }
{
    match c {
        b'0'..=b'9' => Ok(Digit::Number(c - b'0')),
        b'A'..=b'F' => Ok(Digit::Capital(c - b'A' + 10)),
        b'a'..=b'f' => Ok(Digit::Small(c - b'a' + 10)),
        _ => Err(ErrorKind::FrameBroken),
    }
}

// The switch under which small letters are no digits. It is C's number: each call that takes it promises an answer for every one.
const STRICT: u8 = 0;

// What a character stands for under a switch: where it is 0, a-f are no digits.
#[tactic(auto, using(crate::proofs::DigitLaws::refused_under, modbus::proofs::PaperLaws::handed_on))]
pub fn digit_under(c: u8, hex: u8) -> Result<u8, ErrorKind>
    ensures { paper result ≡ told (undigit (spell hex c)) }
{
    match chr_to_hex(c)? {
        Digit::Small(_) if hex == STRICT => Err(ErrorKind::FrameBroken),
        Digit::Number(v) | Digit::Capital(v) | Digit::Small(v) => Ok(v),
    }
}

// The character of a digit, or the crate's sum where `h` is none; where that does not fit a byte, OOB.
pub fn hex_to_chr(h: u8) -> Result<u8, ErrorKind>
    ensures { paper result ≡ told (character h) }
{
    match h {
        0..=9 => Ok(h + b'0'),
        10..=200 => Ok(h - 10 + b'A'),
        _ => Err(ErrorKind::OOB),
    }
}
