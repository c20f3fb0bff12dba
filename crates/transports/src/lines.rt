// ASCII frames: a colon, the text of a body and its LRC, CR and LF.
ghost use Rattle.std.specs.Prelude.{◌≡◌, ◌+◌, ◌*◌, ◌<◌, ◌≤◌, true, false, [], length, take, drop};
ghost use Rattle.std.proofs.lemmas.List.Edits.{sets};
ghost use Rattle.modbus.specs.Step.{choose};
ghost use Rattle.modbus.specs.Check.{lrc};
ghost use Rattle.modbus.specs.Hex.{spelt, text};
ghost use Rattle.modbus.specs.Decode.{unwrap};
ghost use Rattle.modbus.specs.declared.ModbusProto.TheVariants.{Ascii};
ghost use Rattle.ascii.specs.Plain.{Digit, value, pair_values};
ghost use Rattle.transports.specs.Opened.{opened, Fronted};
ghost use Rattle.transports.specs.Checked.{checked, lrc_byte};
ghost use Rattle.transports.specs.Lines.{lined?, Digits, ShortLine};
ghost use Rattle.transports.specs.Sealed.{sealed};

use crate::Fault;
use ascii::{low_digit, other, parse_text, put_text};
use checks::calc_lrc;
use response::extend;

// Whether a frame is a line of text within the bounds.
fn is_line(frame: &[u8]) -> bool
    ensures { result ≡ choose (lined? frame.now) true false }
{
    if frame.len() < 9 || 511 < frame.len() {
        return false;
    }
    let n = frame.len() - 2;
    frame[0] == b':' && frame[n] == b'\r' && frame[n + 1] == b'\n'
}

// The bytes are a body and then its LRC, if the last is that.
fn check_lrc(bytes: &[u8]) -> Result<usize, Fault>
    requires { (1 ≤ length bytes.now) × (length bytes.now ≤ 256) }
    ensures { result ≡ opened (checked lrc_byte 1 bytes.now) }
{
    let k = bytes.len() - 1;
    let lrc = calc_lrc(bytes, k as u8).unwrap();
    if bytes[k] != lrc {
        return Err(Fault::WrongCheck);
    }
    Ok(k)
}

// 0 if the eight characters from `at` on are digits.
fn others_in_eight(line: &[u8], at: usize) -> u8
    requires { at + 8 ≤ length line.now }
    ensures { result ≡ 0 → Digits line.now at 8 }
{
    let mut others: u8 = 0;
    for c in &line[at..at + 8] {
        others |= other(*c);
    }
    others
}

// Whether a line has the 14 digits of seven bytes and nothing else, as those of reads and of writes of one cell. The first eight and the
// last eight characters of the text are tested at once, before the length is asked: so the compiler tests sixteen at a time.
fn is_short(line: &[u8]) -> bool
    ensures { result ≡ true → ShortLine line.now }
{
    if line.len() < 11 {
        return false;
    }
    let others = others_in_eight(line, 1) | others_in_eight(line, line.len() - 10);
    if others != 0 {
        return false;
    }
    line.len() == 17
}

// What a digit stands for, and a half byte for any other character.
fn half(c: u8) -> u8
    ensures { (result < 16) × (Digit c → result ≡ value c) }
{
    let more: u8 = if c <= 57 { 0 } else { 9 };
    (c % 16 + more) % 16
}

// Decodes such a line to the front of `raw`. The end of the line is decoded with it, to an eighth byte that means nothing: so the compiler
// decodes eight at a time.
fn decode_eight(line: &[u8], raw: &mut [u8])
    requires { ShortLine line.now × (8 ≤ length raw.old) }
    ensures raw_after { take 7 raw.new ≡ pair_values (drop 1 (take 15 line.now)) }
    ensures raw_len_unchanged { length raw.new ≡ length raw.old }
{
    for (i, byte) in raw[..8].iter_mut().enumerate() {
        *byte = half(line[2 * i + 1]) * 16 + half(line[2 * i + 2]);
    }
}

// The body is decoded to the front of `raw`. A line of seven bytes in capitals means the same under every switch.
pub fn open_ascii(hex: u8, frame: &[u8], raw: &mut [u8; 256]) -> Result<usize, Fault>
    ensures value { result ≡ opened (unwrap Ascii (spelt hex frame.now)) }
    ensures fronted { Fronted (unwrap Ascii (spelt hex frame.now)) raw.new }
    ensures raw_len_unchanged { length raw.new ≡ length raw.old }
{
    if !is_line(frame) {
        return Err(Fault::Broken);
    }
    if is_short(frame) {
        decode_eight(frame, raw);
        return check_lrc(&raw[..7]);
    }
    let Ok(n) = parse_text(frame, frame.len() - 2, raw, 0, hex) else {
        return Err(Fault::Broken);
    };
    if 2 * (n as usize) + 3 != frame.len() {
        return Err(Fault::Broken);
    }
    check_lrc(&raw[..n as usize])
}

// Lays the text of the bytes behind the first place, and answers their LRC. One loop for both: without it a short frame costs 100
// instructions more (docs/COST.md).
fn lay_few(dst: &mut [u8], bytes: &[u8]) -> u8
    requires { 2 * length bytes.now + 1 ≤ length dst.old }
    ensures { (result ≡ lrc bytes.now) × (dst.new ≡ sets dst.old 1 (text bytes.now)) }
{
    let mut check: u8 = 0;
    for (i, b) in bytes.iter().enumerate() {
        check = check.wrapping_sub(*b);
        dst[2 * i + 1] = low_digit(*b / 16);
        dst[2 * i + 2] = low_digit(*b);
    }
    check
}

// The same for any number of bytes below 256.
fn lay_many(dst: &mut [u8], bytes: &[u8]) -> u8
    requires { (2 * length bytes.now + 1 ≤ length dst.old) × (length bytes.now < 256) }
    ensures { (result ≡ lrc bytes.now) × (dst.new ≡ sets dst.old 1 (text bytes.now)) }
{
    put_text(dst, 1, bytes);
    calc_lrc(bytes, bytes.len() as u8).unwrap()
}

// The same for the first n bytes of the reply itself, which are copied before their text is laid over them.
fn lay_front(reply: &mut [u8], n: usize) -> u8
    requires { (n ≤ 253) × (511 ≤ length reply.old) }
    ensures { (result ≡ lrc (take n reply.old)) × (reply.new ≡ sets reply.old 1 (text (take n reply.old))) }
{
    if n < 16 {
        let few: [u8; 16] = *reply.first_chunk().unwrap();
        return lay_few(reply, &few[..n]);
    }
    // By `extend` and not by `first_chunk`: of so many bytes the compiler would make a call of `memcpy`.
    let mut many = [0u8; 256];
    let _ = extend(&mut many, 0, &reply[..256]);
    lay_many(reply, &many[..n])
}

// The text of the body and of its LRC goes between a colon and the end of the line.
pub(crate) fn seal_ascii(n: u8, reply: &mut [u8]) -> Option<usize>
    requires { n ≤ 253 }
    ensures { (result, reply.new) ≡ sealed Ascii [] n reply.old }
{
    if reply.len() < 511 {
        return None;
    }
    let m = n as usize;
    let check = lay_front(reply, m);
    reply[0] = 58;
    reply[2 * m + 1] = low_digit(check / 16);
    reply[2 * m + 2] = low_digit(check);
    reply[2 * m + 3] = 13;
    reply[2 * m + 4] = 10;
    Some(2 * m + 5)
}
