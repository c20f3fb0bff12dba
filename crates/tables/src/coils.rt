// Tables of bits: cell n is bit n mod 8, lowest first, of byte n / 8. A run of cells moves by bytes: whole bytes by shifts, and what
// fills only a part of a byte by masks.
ghost use Rattle.std.specs.Prelude.{◌≡◌, ◌+◌, ◌-◌, ◌*◌, ◌/◌, ◌%◌, ◌^◌, ◌≤◌, ◌<◌, min, length};
ghost use Rattle.std.proofs.lemmas.List.Edits.{sets};
ghost use Rattle.modbus.specs.Bytes.{pack};
ghost use Rattle.modbus.specs.Table.{bit, part};
ghost use Rattle.modbus.specs.Request.{shown};
ghost use Rattle.modbus.specs.Paper.{told, told_with, bit_paper, done_paper, paper, digit_of};
ghost use Rattle.modbus.specs.Storage.{coil_at, with_bit, packed, store, size};
ghost use Rattle.tables.specs.Calls.{got, changed, added, stored};
ghost use Rattle.tables.specs.Runs.{binary};

use crate::size;
use modbus::{CellKind, ErrorKind};

fn bit_of(byte: u8, n: u8) -> bool
    requires { n < 8 }
    ensures { digit_of result ≡ byte / 2 ^ n % 2 }
{
    (byte >> n) & 1 == 1
}

// The byte with its bit n made `on`, and its seven other bits as they were.
fn with_bit(byte: u8, n: u8, on: bool) -> u8
    requires { n < 8 }
    ensures { result ≡ with_bit byte n (digit_of on) }
{
    let mask = 1u8 << n;
    if on { byte | mask } else { byte & !mask }
}

pub fn get_coil(table: &[u8], cells: usize, reg: u16) -> Result<bool, ErrorKind>
    ensures { bit_paper result ≡ told (got packed table.now cells reg) }
{
    let n = reg as usize;
    if n >= size(CellKind::Bits, table, cells) {
        return Err(ErrorKind::OOBContext);
    }
    Ok(bit_of(table[n / 8], (n % 8) as u8))
}

pub fn set_coil(table: &mut [u8], cells: usize, reg: u16, value: bool) -> Result<(), ErrorKind>
    ensures { (done_paper result, table.new) ≡ told_with table.old (changed packed table.old cells reg (digit_of value)) }
{
    let n = reg as usize;
    if n >= size(CellKind::Bits, table, cells) {
        return Err(ErrorKind::OOBContext);
    }
    table[n / 8] = with_bit(table[n / 8], (n % 8) as u8, value);
    Ok(())
}

// Eight bits of two bytes side by side, from bit `shift` of the low one on.
fn window(low: u8, high: u8, shift: u8) -> u8
    requires { shift < 8 }
    ensures { result ≡ (high * 256 + low) / 2 ^ shift % 256 }
{
    let both = u16::from_le_bytes([low, high]);
    ((both >> shift) & 0xff) as u8
}

// n bytes of dst from `at` on become the cells of src from `from` on, eight a byte. `first` and `last` are the bytes of the first and
// of the last of eight cells: the same byte where the shift is 0, so that no byte after the cells is read. Three slices go on by one place: an
// iterator over them, zipped and counted, names no less.
fn copy_whole(dst: &mut [u8], at: usize, src: &[u8], from: usize, n: usize)
    requires { (at + n ≤ length dst.old) × (from + 8 * n ≤ 8 * length src.now) × (from + 8 * n ≤ 65536) }
    ensures { dst.new ≡ sets dst.old at (pack (part (coil_at src.now) from (8 * n))) }
{
    let first = from / 8;
    let last = (from + 7) / 8;
    let shift = (from % 8) as u8;
    for i in 0..n {
        dst[at + i] = window(src[first + i], src[last + i], shift);
    }
}

// The n cells of src from `from` on, 1 to 8, as a number.
fn run_at(src: &[u8], from: usize, n: usize) -> u8
    requires { (0 < n) × (n ≤ 8) × (from + n ≤ 8 * length src.now) × (from + n ≤ 65536) }
    ensures { result ≡ binary (part (coil_at src.now) from n) }
{
    let bits = window(src[from / 8], src[(from + n - 1) / 8], (from % 8) as u8);
    bits & (0xffu8 >> (8 - n))
}

// n cells of dst from `at` on, all in one byte, become those of src from `from` on.
fn put_run(dst: &mut [u8], at: usize, src: &[u8], from: usize, n: usize)
    requires { (at % 8 + n ≤ 8) × (at + n ≤ 8 * length dst.old) × (from + n ≤ 8 * length src.now) × (from + n ≤ 65536) }
    ensures { dst.new ≡ store packed dst.old at (part (coil_at src.now) from n) }
{
    if n == 0 {
        return;
    }
    let shift = at % 8;
    let mask = (0xffu8 >> (8 - n)) << shift;
    let bits = run_at(src, from, n) << shift;
    dst[at / 8] = (dst[at / 8] & !mask) | bits;
}

// The bytes of dst from `at` on show n cells of src from `from` on, pad bits zero. One cell alone is asked for often, and costs less so.
fn show(dst: &mut [u8], at: usize, src: &[u8], from: usize, n: usize)
    requires { (at + (n + 7) / 8 ≤ length dst.old) × (from + n ≤ 8 * length src.now) × (from + n ≤ 65536) }
    ensures { dst.new ≡ sets dst.old at (shown bit (part (coil_at src.now) from n)) }
{
    if n == 1 {
        dst[at] = run_at(src, from, 1);
        return;
    }
    let whole = n / 8;
    copy_whole(dst, at, src, from, whole);
    if n % 8 > 0 {
        dst[at + whole] = run_at(src, from + 8 * whole, n % 8);
    }
}

// How many of n cells from `at` on come before the first that begins a byte.
fn head_of(at: usize, n: usize) -> usize
    ensures { result ≡ min n ((8 - at % 8) % 8) }
{
    n.min((8 - at % 8) % 8)
}

// Cell `at` of dst becomes the first of src.
fn put_one(dst: &mut [u8], at: usize, src: &[u8])
    requires { (at < 8 * length dst.old) × (0 < length src.now) }
    ensures { dst.new ≡ store packed dst.old at (part (coil_at src.now) 0 1) }
{
    dst[at / 8] = with_bit(dst[at / 8], (at % 8) as u8, bit_of(src[0], 0));
}

// n cells of dst from `at` on become the first n of src: up to the end of a byte, whole bytes, and what is left.
fn put_all(dst: &mut [u8], at: usize, src: &[u8], n: usize)
    requires { (at + n ≤ 8 * length dst.old) × (n ≤ 8 * length src.now) × (at + n ≤ 65536) }
    ensures { dst.new ≡ store packed dst.old at (part (coil_at src.now) 0 n) }
{
    if n == 1 {
        put_one(dst, at, src);
        return;
    }
    let head = head_of(at, n);
    let whole = (n - head) / 8;
    let done = head + 8 * whole;
    put_run(dst, at, src, 0, head);
    copy_whole(dst, (at + head) / 8, src, head, whole);
    put_run(dst, at + done, src, done, n - done);
}

// Reads coils or discretes, which are laid out alike; each has a call of its own for C.
fn add_cells(
    table: &[u8],
    cells: usize,
    reg: u16,
    count: u16,
    response: &mut [u8],
    len: usize,
) -> Result<usize, ErrorKind>
    ensures { (paper result, response.new) ≡ told_with response.old (added packed table.now cells reg count response.old len) }
{
    if len > response.len() {
        return Err(ErrorKind::OOB);
    }
    let from = reg as usize;
    let n = count as usize;
    if from + n > size(CellKind::Bits, table, cells) {
        return Err(ErrorKind::OOBContext);
    }
    let end = len + (n + 7) / 8;
    if end > response.len() {
        return Err(ErrorKind::OOB);
    }
    show(response, len, table, from, n);
    Ok(end)
}

pub fn get_coils_as_u8(
    table: &[u8],
    cells: usize,
    reg: u16,
    count: u16,
    response: &mut [u8],
    len: usize,
) -> Result<usize, ErrorKind>
    ensures { (paper result, response.new) ≡ told_with response.old (added packed table.now cells reg count response.old len) }
{
    add_cells(table, cells, reg, count, response, len)
}

pub fn get_discretes_as_u8(
    table: &[u8],
    cells: usize,
    reg: u16,
    count: u16,
    response: &mut [u8],
    len: usize,
) -> Result<usize, ErrorKind>
    ensures { (paper result, response.new) ≡ told_with response.old (added packed table.now cells reg count response.old len) }
{
    add_cells(table, cells, reg, count, response, len)
}

pub fn set_coils_from_u8(
    table: &mut [u8],
    cells: usize,
    reg: u16,
    count: u16,
    values: &[u8],
) -> Result<(), ErrorKind>
    ensures { (done_paper result, table.new) ≡ told_with table.old (stored packed table.old cells reg count values.now) }
{
    let at = reg as usize;
    let n = count as usize;
    if at + n > size(CellKind::Bits, table, cells) || values.len() != (n + 7) / 8 {
        return Err(ErrorKind::OOBContext);
    }
    put_all(table, at, values, n);
    Ok(())
}
