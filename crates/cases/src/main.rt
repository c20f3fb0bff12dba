// Runs document 01's cases and both sides of its numbers through the driver. They are read from standard input, one
// record a line, as the head of the list says. Every case lays its tables afresh, and compares outcome, code, the cells
// named, the whole reply buffer and all four tables.
#![tactic(auto)]

mod fields;

ghost use Rattle.std.specs.Prelude.{◌≤◌};

use records::Program;
use records::parts::{lay, stands};

// Room for tables of one cell more than there may be, and for every reply buffer of the list.
const BITS: usize = 8193;

const WORDS: usize = 131074;

const ROOM: usize = 1024;

fn lay_table(record: &[u8], t: u8, table: &mut [u8])
    requires { t ≤ 3 }
{
    lay(table, fields::front(record, t), fields::filler(record, t));
}

// The call itself, and whether it tells what the record says.
fn called(
    record: &[u8],
    coils: &mut [u8],
    discretes: &[u8],
    holdings: &mut [u8],
    inputs: &[u8],
    reply: &mut [u8],
) -> bool {
    let got = dalonjang::dalonjang_drive(
        fields::setup(record),
        fields::list(record),
        coils,
        discretes,
        holdings,
        inputs,
        fields::frame(record),
        reply,
    );
    fields::told(record, got)
}

// Whether every lent buffer is afterwards what the record says.
fn left(
    record: &[u8],
    coils: &[u8],
    discretes: &[u8],
    holdings: &[u8],
    inputs: &[u8],
    reply: &[u8],
    filler: u8,
) -> bool {
    if !stands(reply, &record[0..0], filler, 0, fields::reply(record)) {
        return false;
    }
    if !fields::kept(record, 0, coils) {
        return false;
    }
    if !fields::kept(record, 1, discretes) {
        return false;
    }
    if !fields::kept(record, 2, holdings) {
        return false;
    }
    fields::kept(record, 3, inputs)
}

// The case over buffers as long as the record says. Of the reply buffer every byte is `filler` before the call.
fn served(
    record: &[u8],
    coils: &mut [u8],
    discretes: &[u8],
    holdings: &mut [u8],
    inputs: &[u8],
    reply: &mut [u8],
    filler: u8,
) -> bool {
    lay_table(record, 0, coils);
    lay_table(record, 2, holdings);
    lay(reply, &record[0..0], filler);
    let right = called(record, coils, discretes, holdings, inputs, reply);
    left(record, coils, discretes, holdings, inputs, reply, filler) && right
}

// The tables that requests write, and the reply buffer, cut to their lengths.
fn cut_written(
    record: &[u8],
    coils: &mut [u8],
    discretes: &[u8],
    holdings: &mut [u8],
    inputs: &[u8],
    reply: &mut [u8],
    filler: u8,
) -> bool {
    let c = fields::len(record, 0);
    let h = fields::len(record, 2);
    let room = fields::room(record);
    if coils.len() < c {
        return false;
    }
    if holdings.len() < h {
        return false;
    }
    if reply.len() < room {
        return false;
    }
    served(
        record,
        &mut coils[..c],
        discretes,
        &mut holdings[..h],
        inputs,
        &mut reply[..room],
        filler,
    )
}

fn with_written(record: &[u8], discretes: &[u8], inputs: &[u8], filler: u8) -> bool {
    let mut coils = [0; BITS];
    let mut holdings = [0; WORDS];
    let mut reply = [0; ROOM];
    cut_written(
        record,
        &mut coils,
        discretes,
        &mut holdings,
        inputs,
        &mut reply,
        filler,
    )
}

// The tables that requests only read, cut to their lengths and laid.
fn cut_read(record: &[u8], discretes: &mut [u8], inputs: &mut [u8], filler: u8) -> bool {
    let d = fields::len(record, 1);
    let i = fields::len(record, 3);
    if discretes.len() < d {
        return false;
    }
    if inputs.len() < i {
        return false;
    }
    lay_table(record, 1, &mut discretes[..d]);
    lay_table(record, 3, &mut inputs[..i]);
    with_written(record, &discretes[..d], &inputs[..i], filler)
}

fn with_read(record: &[u8], filler: u8) -> bool {
    let mut discretes = [0; BITS];
    let mut inputs = [0; WORDS];
    cut_read(record, &mut discretes, &mut inputs, filler)
}

// Each case lays its own tables.
#[derive(Drop)]
struct Cases;

impl Program for Cases {
    // Whether all comes out as the record says. It runs twice, with two fillers: a byte written behind the reply cannot be
    // equal to both.
    fn agrees(&mut self, record: &[u8]) -> bool {
        if !fields::LAYOUT.is_whole(record) {
            return false;
        }
        if !with_read(record, 0) {
            return false;
        }
        with_read(record, 255)
    }
}

// No list has so many records.
const MOST: u32 = 1000000;

fn main(rt: HostRuntime) {
    let tally = records::run(rt.stdin(), rt.stdout(), MOST, &mut Cases);
    records::report(
        rt.stdout(),
        tally,
        b"cases of document 01 run: ",
        b"cases that differ: ",
    );
}
