// Bytes into text.
ghost use Rattle.std.specs.Prelude.{◌≡◌, ◌+◌, ◌*◌, ◌<◌, ◌≤◌, ◌↔◌, IsTrue, length};
ghost use Rattle.std.proofs.lemmas.List.Edits.{sets};
ghost use Rattle.modbus.specs.Paper.{paper};
ghost use Rattle.modbus.specs.Hex.{digit, text};
ghost use Rattle.modbus.specs.Frame.{line};
ghost use Rattle.ascii.specs.Reading.{generated_into};
ghost use Rattle.ascii.specs.PutTwo.{put_two};

use modbus::ErrorKind;
use octets::put_byte;

// The character of a half byte. By a sum: so the compiler writes sixteen at a time.
fn character(h: u8) -> u8
    requires { h < 16 }
    ensures { result ≡ digit h }
{
    let more: u8 = if h < 10 { 0 } else { 7 };
    h + b'0' + more
}

// Puts two bytes, and says whether there was room for both, as `octets::put_byte` does.
fn put_two(dst: &mut [u8], at: usize, first: u8, second: u8) -> bool
    ensures { (result, dst.new) ≡ put_two dst.old at first second }
{
    put_byte(dst, at, first) && put_byte(dst, at + 1, second)
}

// Whether a line of n bytes fits.
pub(crate) fn fits(n: usize, room: usize) -> bool
    ensures { IsTrue result ↔ 2 * n + 3 ≤ room }
{
    3 <= room && n <= (room - 3) / 2
}

// Lays the bytes as text, two characters each, to the places from `at` on.
pub(crate) fn lay_text(dst: &mut [u8], at: usize, bytes: &[u8])
    requires { at + 2 * length bytes.now ≤ length dst.old }
    ensures { dst.new ≡ sets dst.old at (text bytes.now) }
{
    for (i, b) in bytes.iter().enumerate() {
        dst[at + 2 * i] = character(b >> 4);
        dst[at + 2 * i + 1] = character(b & 0xf);
    }
}

// Writes the data as a line of text into a result that has room for it.
pub(crate) fn write_line(data: &[u8], res: &mut [u8])
    requires { 2 * length «data».now + 3 ≤ length res.old }
    ensures { res.new ≡ sets res.old 0 (line «data».now) }
{
    res[0] = b':';
    lay_text(res, 1, data);
    res[2 * data.len() + 1] = b'\r';
    res[2 * data.len() + 2] = b'\n';
}

// The same as far as there is room, character by character.
pub(crate) fn write_while_room(data: &[u8], res: &mut [u8]) -> Result<usize, ErrorKind>
    ensures { (paper result, res.new) ≡ generated_into «data».now res.old }
{
    if !put_byte(res, 0, b':') {
        return Err(ErrorKind::OOB);
    }
    let mut at: usize = 1;
    for d in data {
        if !put_two(res, at, character(d >> 4), character(d & 0xf)) {
            return Err(ErrorKind::OOB);
        }
        at += 2;
    }
    if !put_two(res, at, b'\r', b'\n') {
        return Err(ErrorKind::OOB);
    }
    Ok(at + 2)
}
