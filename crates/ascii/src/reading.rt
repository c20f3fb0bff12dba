// Text into bytes.
ghost use Rattle.std.specs.Prelude.{◌≡◌, ◌+◌, ◌-◌, ◌*◌, ◌/◌, ◌<◌, ◌≤◌, false, ◌⊎◌, ◌↔◌, IsTrue, MatchOption, length, take, drop, slice_index_or};
ghost use Rattle.std.proofs.lemmas.List.Edits.{sets};
ghost use Rattle.modbus.specs.Step.{choose, ◌≟◌};
ghost use Rattle.modbus.specs.Paper.{paper};
ghost use Rattle.modbus.specs.Bytes.{All};
ghost use Rattle.modbus.specs.Hex.{spell, spelt};
ghost use Rattle.ascii.specs.Reading.{StopByte, pair, parsed_into};
ghost use Rattle.ascii.specs.Plain.{Digit, value, pair_values, Plain};
ghost use Rattle.ascii.specs.Said.{said};

use crate::other;
use checks::digit_under;
use modbus::ErrorKind;
use octets::put_byte;

// LF, CR and NUL end a text.
fn stop_byte(ch: u8) -> bool
    ensures { IsTrue result ↔ StopByte ch }
{
    matches!(ch, b'\n' | b'\r' | 0)
}

// The byte of the two digits at `at` of the text, the first `end` bytes of the data, where no stop byte stands.
fn pair_at(data: &[u8], end: usize, at: usize, hex: u8) -> Result<u8, ErrorKind>
    requires { (at < end) × (end ≤ length «data».now) × ¬ StopByte (slice_index_or «data».now at 0) }
    ensures { said result ≡ pair (spell hex (slice_index_or «data».now at 0)) (drop (at + 1) (take end (spelt hex «data».now))) }
{
    let high = digit_under(data[at], hex)?;
    if end <= at + 1 {
        return Err(ErrorKind::OOB);
    }
    let low = digit_under(data[at + 1], hex)?;
    Ok(high * 16 + low)
}

// How many bytes of the text to skip: a colon that it starts with.
pub(crate) fn colon(c: u8) -> usize
    ensures value { result ≡ choose (c ≟ 58) 1 0 }
    ensures small { result ≤ 1 }
{
    if c == b':' { 1 } else { 0 }
}

// Whether the characters are all digits. There is no way out on the way, for the same reason as in `other`. Promised one way alone, as by
// `plain`: where these answer false the text is read pair by pair, with the same result.
fn all_digits(text: &[u8]) -> bool
    ensures { IsTrue result → All Digit text.now }
{
    let mut others: u8 = 0;
    for c in text {
        others |= other(*c);
    }
    others == 0
}

// What a digit stands for.
fn half(c: u8) -> u8
    requires { Digit c }
    ensures { (result ≡ value c) × (result < 16) }
{
    if c <= b'9' { c - b'0' } else { c - b'A' + 10 }
}

// Decodes pairs of digits, one to each byte.
pub(crate) fn decode_pairs(text: &[u8], bytes: &mut [u8])
    requires { (length text.now ≡ 2 * length bytes.old) × All Digit text.now }
    ensures { bytes.new ≡ sets bytes.old 0 (pair_values text.now) }
{
    for (i, pair) in text.chunks_exact(2).enumerate() {
        bytes[i] = half(pair[0]) * 16 + half(pair[1]);
    }
}

// Whether a reading can only decode pairs of digits to the end of the text: nothing else is in it, and there is room. A short text is
// not worth the look.
pub(crate) fn plain(data: &[u8], data_len: usize, room: usize, at: usize) -> bool
    requires { at < 256 }
    ensures { IsTrue result → Plain «data».now data_len room at }
{
    if data_len < 32 || data.len() < data_len {
        return false;
    }
    let from = colon(data[0]);
    let n = (data_len - from) / 2;
    if from + 2 * n != data_len || 254 < at + n || room < at + n {
        return false;
    }
    all_digits(&data[from..data_len])
}

// What a digit 0-9 or A-F stands for: every switch reads these alike, and to ask for no other costs less.
fn strict_digit(c: u8) -> Option<u8>
    ensures { MatchOption result (¬ Digit c) (λ v. Digit c × (v ≡ value c) × (v < 16)) }
{
    match c {
        b'0'..=b'9' => Some(c - b'0'),
        b'A'..=b'F' => Some(c - b'A' + 10),
        _ => None,
    }
}

// The byte of two such digits.
fn strict_pair(high: u8, low: u8) -> Option<u8>
    ensures { MatchOption result (¬ (Digit high × Digit low)) (λ b. Digit high × Digit low × (b ≡ value high * 16 + value low)) }
{
    Some(strict_digit(high)? * 16 + strict_digit(low)?)
}

// How many pairs may be decoded with no question of room: all of the text, or none. Which of the two is not promised: what is not decoded at once is
// decoded pair by pair.
fn quick_pairs(end: usize, from: usize, room: usize, at: usize) -> usize
    requires { at < 256 }
    ensures { (result ≡ 0) ⊎ ((from + 2 * result ≤ end) × (at + result ≤ 254) × (at + result ≤ room)) }
{
    let n = end.saturating_sub(from) / 2;
    if at + n <= 254 && at + n <= room {
        n
    } else {
        0
    }
}

// Decodes pairs of digits from `from` on to the places of `buf` from `at` on, n of them or up to the first that is none; how many. By places: over
// chunks of two slices, as `decode_pairs`, a short line takes 5 instructions more, and one in small letters 26.
fn decode_digits(data: &[u8], from: usize, n: usize, buf: &mut [u8], at: usize) -> usize
    requires { (from + 2 * n ≤ length «data».now) × (n ≤ length buf.old - at) }
    ensures { (result ≤ n) × All Digit (drop from (take (from + 2 * result) «data».now)) × (buf.new ≡ sets buf.old at (pair_values (drop from (take (from + 2 * result) «data».now)))) }
{
    for i in 0..n {
        let k = from + 2 * i;
        let Some(b) = strict_pair(data[k], data[k + 1]) else {
            return i;
        };
        buf[at + i] = b;
    }
    n
}

// Decodes pair by pair, and ends where something else stands. The digits that come first are decoded with no other question. Two places move, the
// text's and the buffer's: a `for` over the one would count the other by hand as well.
pub(crate) fn parse_by_pairs(
    data: &[u8],
    data_len: usize,
    frame_buf: &mut [u8],
    frame_pos: u8,
    hex: u8,
) -> Result<u8, ErrorKind>
    ensures { (paper result, frame_buf.new) ≡ parsed_into (spelt hex «data».now) data_len frame_buf.old frame_pos }
{
    if data.is_empty() {
        return Err(ErrorKind::OOB);
    }
    let end = data_len.min(data.len());
    let from = colon(data[0]);
    let quick = quick_pairs(end, from, frame_buf.len(), frame_pos as usize);
    let done = decode_digits(data, from, quick, frame_buf, frame_pos as usize);
    let mut data_pos = from + 2 * done;
    let mut cpos = frame_pos + done as u8;
    while data_pos < end {
        if cpos == 255 {
            return Err(ErrorKind::OOB);
        }
        if stop_byte(data[data_pos]) {
            return Ok(cpos - frame_pos);
        }
        let b = pair_at(data, end, data_pos, hex)?;
        if !put_byte(frame_buf, cpos as usize, b) {
            return Err(ErrorKind::OOB);
        }
        data_pos += 2;
        cpos += 1;
    }
    if data.len() < data_len {
        return Err(ErrorKind::OOB);
    }
    Ok(cpos - frame_pos)
}
