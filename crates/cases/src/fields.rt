// A record of the list: where each number stands, by its name in tests/record.h, and what it says of a call. bin/driver-runs
// holds the constants against those that `kat layout` prints.
ghost use Rattle.std.specs.Prelude.{◌≤◌};

use driver::{Driven, Setup};
use octets::{byte, word};
use records::parts::{Layout, eight, stands, wide};

// The setup.
const TRANSPORT: usize = 0;

const UNIT: usize = 1;

const HEX: usize = 2;

// The result that is expected.
const OUTCOME: usize = 3;

const CODE: usize = 4;

const TABLE: usize = 5;

const FIRST: usize = 6;

const COUNT: usize = 8;

// The length of the reply buffer, the table that changes, and the byte from which on.
const ROOM: usize = 10;

const CHANGING: usize = 12;

const FROM: usize = 13;

// The first of the tables; in each its length, its cells and the byte that fills it; how many bytes each has here.
const LENT: usize = 17;

const LEN: usize = 0;

const CELLS: usize = 4;

const FILL: usize = 12;

const LENT_BYTES: usize = 13;

// The lengths of the parts, and the parts.
const LENGTHS: u16 = 69;

const PARTS: u16 = 85;

const PART_LIST: u8 = 0;

const PART_FRAME: u8 = 1;

const PART_REPLY: u8 = 2;

const PART_CHANGED: u8 = 3;

const PART_FRONTS: u8 = 4;

const PART_COUNT: u8 = 8;

pub(crate) const LAYOUT: Layout = Layout {
    lengths: LENGTHS,
    parts: PARTS,
    count: PART_COUNT,
};

fn part(record: &[u8], k: u8) -> &[u8] {
    LAYOUT.part(record, k)
}

// The broadcast list, the frame, and the reply that is expected.
pub(crate) fn list(record: &[u8]) -> &[u8] {
    part(record, PART_LIST)
}

pub(crate) fn frame(record: &[u8]) -> &[u8] {
    part(record, PART_FRAME)
}

pub(crate) fn reply(record: &[u8]) -> &[u8] {
    part(record, PART_REPLY)
}

// The length of the reply buffer.
pub(crate) fn room(record: &[u8]) -> usize {
    word(record, ROOM) as usize
}

// Where the numbers of the table t stand. A table goes by its number here: that is in the record, and places are counted by it.
fn lent(t: u8) -> usize
    ensures { result ≤ 4000 }
{
    LENT + LENT_BYTES * (t as usize)
}

pub(crate) fn len(record: &[u8], t: u8) -> usize {
    wide(record, lent(t) + LEN)
}

// How many cells the table t is said to have, a number of eight bytes: document 01's limits are tried from above too.
fn cells(record: &[u8], t: u8) -> usize {
    eight(record, lent(t) + CELLS)
}

// What the table t holds before the call: its front, and then this byte.
pub(crate) fn front(record: &[u8], t: u8) -> &[u8]
    requires { t ≤ 3 }
{
    part(record, PART_FRONTS + t)
}

pub(crate) fn filler(record: &[u8], t: u8) -> u8 {
    byte(record, lent(t) + FILL)
}

// Whether the table t is afterwards what the record says.
pub(crate) fn kept(record: &[u8], t: u8, table: &[u8]) -> bool
    requires { t ≤ 3 }
{
    let before = front(record, t);
    let behind = filler(record, t);
    if byte(record, CHANGING) == t {
        return stands(
            table,
            before,
            behind,
            wide(record, FROM),
            part(record, PART_CHANGED),
        );
    }
    stands(table, before, behind, 0, &record[0..0])
}

pub(crate) fn setup(record: &[u8]) -> Setup {
    Setup {
        transport: byte(record, TRANSPORT),
        unit: byte(record, UNIT),
        hex: byte(record, HEX),
        coil_cells: cells(record, 0),
        discrete_cells: cells(record, 1),
        holding_cells: cells(record, 2),
        input_cells: cells(record, 3),
    }
}

// Whether a result tells what the record says.
pub(crate) fn told(record: &[u8], got: Driven) -> bool {
    got == Driven {
        length: reply(record).len(),
        outcome: byte(record, OUTCOME),
        code: byte(record, CODE),
        table: byte(record, TABLE),
        first: word(record, FIRST),
        count: word(record, COUNT),
    }
}
