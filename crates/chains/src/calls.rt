// Modules 5 to 7: one call on a state, with what it answers, the state, the lent response and the tables afterwards.
// A record, numbers high byte first:
//   byte 0       call: 31 parse, 32 process_read, 33 process_write, 34 finalize_response, 35 get_external_read,
//                36 get_external_write, 37 process_external_read, 38 process_external_write,
//                39 set_modbus_error_if_unset, 40 changes, 41 new
//   byte 1       what is reported (37 to 39): 0 done, 1 IllegalFunction, 2 IllegalDataAddress, 21 to 27 the kinds
//   bytes 2-28   the state before the call: unit_id, proto, flags (1 processing_required, 2 response_required,
//                4 readonly), responding_to_fn, frame_start (8), func, reg (2), count (2), whether an error is set, its
//                code, response_len (8)
//   byte 29      the kind expected: 0 or document 01's number of the refusal
//   bytes 30-56  the state expected
//   byte 57      the table expected to change: 0 coils, 2 holdings, 255 none
//   bytes 58-61  the byte from which on it changes
//   bytes 62-83  the lengths (2 each) of the eleven parts that follow: buf; the list; the front of the lent response
//                before the call; the lent response expected; the values expected (2 bytes each, as the specs of
//                the crate frame list them); the changed bytes of the table; for calls 32 and 33 the four tables,
//                coils, discretes, holdings and inputs: of each length (4), cells (8) and the byte that fills it
//                behind its front; the front of each
//   Before the call byte i of the lent response behind its front is (0x5A + i) % 256.
ghost use Rattle.std.specs.Prelude.{◌≤◌, ◌<◌};

use crate::fields::{LAYOUT, part};
use crate::said::{bare, changes, left, read_left, reported, write_left};
use crate::state::state;
use frame::ModbusFrame;
use modbus::ErrorKind;
use octets::byte;
use records::parts::{cut, eight, lay, lay_counted, stands, wide};

// Room for a table of 65,536 bits or words, and behind it for one of 2,048 bits or 128 words.
pub(crate) const BITS: usize = 8500;

pub(crate) const WORDS: usize = 131400;

// A call to which no table is lent.
fn called(record: &[u8], lent: &mut [u8]) -> bool {
    let mut s = state(record);
    let buf = part(record, 0);
    let report = reported(byte(record, 1));
    match byte(record, 0) {
        35 => {
            let answer = external::get_external_read(&mut s, buf, lent);
            read_left(record, answer, &s)
        }
        36 => {
            let answer = external::get_external_write(&mut s, buf, lent);
            write_left(record, answer, &s)
        }
        40 => changes(record, &s),
        41 => bare(record, 0, &ModbusFrame::new(s.unit_id, s.proto)),
        call => {
            let answer = match call {
                31 => s.parse(buf, part(record, 1), lent),
                34 => process::finalize_response(&mut s, lent),
                37 => external::process_external_read(&mut s, report, lent),
                38 => external::process_external_write(&mut s, report, buf, lent),
                39 => external::set_modbus_error_if_unset(&mut s, report, lent),
                _ => return false,
            };
            left(record, answer, &s)
        }
    }
}

// What is told of the table t: its length (4 bytes), its cells (8), and the byte behind its front. A table goes by its number here: that is in
// the record, and places are counted by it.
fn table_len(record: &[u8], t: u8) -> usize
    requires { t ≤ 3 }
    ensures { result < 4294967296 }
{
    wide(part(record, 6), 13 * (t as usize))
}

fn table_cells(record: &[u8], t: u8) -> usize
    requires { t ≤ 3 }
{
    eight(part(record, 6), 13 * (t as usize) + 4)
}

fn filler(record: &[u8], t: u8) -> u8
    requires { t ≤ 3 }
{
    byte(part(record, 6), 13 * (t as usize) + 12)
}

// The table t, laid in a buffer from a place on, where there is room for it.
fn lay_table(record: &[u8], t: u8, buffer: &mut [u8], from: usize)
    requires { (t ≤ 3) × (from < 4294967296) }
{
    let to = from + table_len(record, t);
    if buffer.len() < to {
        return;
    }
    lay(
        &mut buffer[from..to],
        part(record, 7 + t),
        filler(record, t),
    );
}

// The table t, and the next behind it.
fn lay_two(record: &[u8], t: u8, buffer: &mut [u8])
    requires { t ≤ 2 }
{
    lay_table(record, t, buffer, 0);
    lay_table(record, t + 1, buffer, table_len(record, t));
}

// Whether the table t is afterwards what the record says.
fn kept(record: &[u8], t: u8, table: &[u8]) -> bool
    requires { t ≤ 3 }
{
    let front = part(record, 7 + t);
    if byte(record, 57) == t {
        return stands(
            table,
            front,
            filler(record, t),
            wide(record, 58),
            part(record, 5),
        );
    }
    stands(table, front, filler(record, t), 0, &record[0..0])
}

// Coils and discretes stand in `bits`, holdings and inputs in `words`, one behind the other.
fn read_called(
    record: &[u8],
    s: &mut ModbusFrame,
    bits: &[u8],
    words: &[u8],
    lent: &mut [u8],
) -> Result<(), ErrorKind> {
    process::process_read(
        s,
        part(record, 0),
        cut(bits, 0, table_len(record, 0)),
        table_cells(record, 0),
        cut(bits, table_len(record, 0), table_len(record, 1)),
        table_cells(record, 1),
        cut(words, 0, table_len(record, 2)),
        table_cells(record, 2),
        cut(words, table_len(record, 2), table_len(record, 3)),
        table_cells(record, 3),
        lent,
    )
}

fn read(record: &[u8], bits: &mut [u8], words: &mut [u8], lent: &mut [u8]) -> bool {
    if bits.len() < table_len(record, 0) + table_len(record, 1) {
        return false;
    }
    if words.len() < table_len(record, 2) + table_len(record, 3) {
        return false;
    }
    lay_two(record, 0, bits);
    lay_two(record, 2, words);
    let mut s = state(record);
    let answer = read_called(record, &mut s, bits, words, lent);
    left(record, answer, &s)
}

fn written(record: &[u8], coils: &mut [u8], holdings: &mut [u8], lent: &mut [u8]) -> bool {
    lay_table(record, 0, coils, 0);
    lay_table(record, 2, holdings, 0);
    let mut s = state(record);
    let answer = process::process_write(
        &mut s,
        part(record, 0),
        coils,
        table_cells(record, 0),
        holdings,
        table_cells(record, 2),
        lent,
    );
    left(record, answer, &s) && kept(record, 0, coils) && kept(record, 2, holdings)
}

fn write(record: &[u8], bits: &mut [u8], words: &mut [u8], lent: &mut [u8]) -> bool {
    let coils = table_len(record, 0);
    let holdings = table_len(record, 2);
    if bits.len() < coils {
        return false;
    }
    if words.len() < holdings {
        return false;
    }
    written(record, &mut bits[..coils], &mut words[..holdings], lent)
}

fn served(record: &[u8], bits: &mut [u8], words: &mut [u8], lent: &mut [u8]) -> bool {
    lay_counted(lent, part(record, 2));
    match byte(record, 0) {
        32 => read(record, bits, words, lent),
        33 => write(record, bits, words, lent),
        _ => called(record, lent),
    }
}

// Whether all comes out as the record says.
pub(crate) fn agrees(record: &[u8], bits: &mut [u8], words: &mut [u8], lent: &mut [u8]) -> bool {
    if !LAYOUT.is_whole(record) {
        return false;
    }
    let m = part(record, 3).len();
    if lent.len() < m {
        return false;
    }
    if !served(record, bits, words, &mut lent[..m]) {
        return false;
    }
    &lent[..m] == part(record, 3)
}
