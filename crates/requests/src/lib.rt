// What the body of a frame asks, from its function on: document 01's faults from the function to the address, and the request as the driver
// keeps it. No table is looked at: of each table only the number of its cells counts.
#![tactic(auto)]

mod holdings;

ghost use Rattle.std.specs.Prelude.{true, false, ◌≡◌, ◌+◌, ◌≤◌, length, get_or};
ghost use Rattle.modbus.specs.Step.{choose, ◌≤?◌, ◌≟◌, ◌and?◌, ◌or?◌};
ghost use Rattle.modbus.specs.Table.{Tab, coils, discretes, holdings, inputs, kind_of, target};
ghost use Rattle.modbus.specs.Request.{reads, one, many, code, most_read, most_written, octets};
ghost use Rattle.modbus.specs.Paper.{kind_in};
ghost use Rattle.modbus.specs.Setup.{Setup};
ghost use Rattle.modbus.specs.Decode.{valued?};
ghost use Rattle.requests.specs.Judged.{refused_by, needed, written, write_of, judged, code_number, verdict_paper};
ghost use Rattle.requests.specs.declared.Code.TheVariants as code;
ghost use Rattle.requests.specs.declared.Refusal.TheVariants.{BadFunction, WrongLength};

use holdings::{judge_both, judge_mask};
use modbus::CellKind;
use octets::word;

// A read: its function tells the table, by the number as in the body.
#[derive(Clone, Copy)]
pub struct ReadCells {
    pub address: u16,
    pub count: u16,
    pub function: u8,
}

// A write: the cells that it names, and where its data stand in the body. Bits are packed into as few bytes as hold them, words have two each.
#[derive(Clone, Copy)]
pub struct Cells {
    pub address: u16,
    pub count: u16,
    pub at: u8,
}

// A mask write: the register, and its two masks.
#[derive(Clone, Copy)]
pub struct Mask {
    pub address: u16,
    pub and_mask: u16,
    pub or_mask: u16,
}

// A write of registers and then a read of registers. The data stand in the body from 11 on.
#[derive(Clone, Copy)]
pub struct Exchange {
    pub read_address: u16,
    pub read_count: u16,
    pub write_address: u16,
    pub write_count: u16,
}

// What a request asks. Bits and words are two variants, and not one around an enum: the second tag costs instructions (docs/COST.md).
#[derive(Clone, Copy)]
pub enum Request {
    Read(ReadCells),
    WriteBits(Cells),
    WriteWords(Cells),
    Mask(Mask),
    Exchange(Exchange),
}

// What an exception says.
#[derive(Clone, Copy)]
pub enum Code {
    IllegalFunction,
    IllegalDataAddress,
    IllegalDataValue,
}

impl From<Code> for u8 {
    ghost from_gives = { λ code n. n ≡ code_number code };

    fn from(code: Code) -> u8 {
        match code {
            Code::IllegalFunction => 1,
            Code::IllegalDataAddress => 2,
            Code::IllegalDataValue => 3,
        }
    }
}

// Why a request is not served: document 01's outcomes 2 to 10, of which only an exception is answered. What is ignored came to a broadcast number: a
// read, or what our own unit would have answered by an exception of this code.
#[derive(Clone, Copy)]
pub enum Refusal {
    Exception(Code),
    Ignored(Code),
    ReadIgnored,
    Foreign,
    FrameBroken,
    FrameCheck,
    WrongLength,
    BadFunction,
    NoRoom,
    BadSetup,
}

// A fault with a code.
fn refused(broadcast: bool, code: Code) -> Refusal
    ensures { result ≡ refused_by broadcast code }
{
    if broadcast {
        return Refusal::Ignored(code);
    }
    Refusal::Exception(code)
}

// The address rule, for every function: cells lie inside a table of so many.
fn inside(broadcast: bool, address: u16, count: u16, cells: usize) -> Result<(), Refusal>
    ensures { result ≡ needed (address + count ≤? cells) (refused_by broadcast code.IllegalDataAddress) }
{
    if cells < address as usize + count as usize {
        return Err(refused(broadcast, Code::IllegalDataAddress));
    }
    Ok(())
}

fn counted(broadcast: bool, count: u16, most: u16) -> Result<(), Refusal>
    ensures { result ≡ needed ((1 ≤? count) and? (count ≤? most)) (refused_by broadcast code.IllegalDataValue) }
{
    if count < 1 || most < count {
        return Err(refused(broadcast, Code::IllegalDataValue));
    }
    Ok(())
}

// A read of at most `most` cells, from a table of `cells`.
fn judge_read(body: &[u8], broadcast: bool, most: u16, cells: usize) -> Result<Request, Refusal>
    requires { (t : Tab) × (get_or body.now 1 0 ≡ code (reads t)) × (most ≡ most_read (kind_of t)) }
    ensures { (s : Setup) → ((t : Tab) → get_or body.now 1 0 ≡ code (reads t) → s.cells t ≡ cells) → result ≡ judged s broadcast body.now }
{
    if broadcast {
        return Err(Refusal::ReadIgnored);
    }
    if body.len() != 6 {
        return Err(Refusal::WrongLength);
    }
    let count = word(body, 4);
    counted(broadcast, count, most)?;
    let address = word(body, 2);
    inside(broadcast, address, count, cells)?;
    Ok(Request::Read(ReadCells {
        address,
        count,
        function: body[1],
    }))
}

fn is_coil(value: u16) -> bool
    ensures { result ≡ choose ((value ≟ 0) or? (value ≟ 0xFF00)) true false }
{
    match value {
        0 | 0xFF00 => true,
        _ => false,
    }
}

// A single coil is off or on; a register may have any value.
fn valued(body: &[u8], broadcast: bool, kind: CellKind) -> Result<(), Refusal>
    ensures { result ≡ needed (valued? (one (kind_in kind)) body.now) (refused_by broadcast code.IllegalDataValue) }
{
    match kind {
        CellKind::Bits => {
            if !is_coil(word(body, 4)) {
                return Err(refused(broadcast, Code::IllegalDataValue));
            }
            Ok(())
        }
        CellKind::Words => Ok(()),
    }
}

fn write_of(kind: CellKind, c: Cells) -> Request
    ensures { result ≡ write_of (kind_in kind) c }
{
    match kind {
        CellKind::Bits => Request::WriteBits(c),
        CellKind::Words => Request::WriteWords(c),
    }
}

// A write of the right length and values, to a table of `cells`.
fn judge_address(
    broadcast: bool,
    kind: CellKind,
    c: Cells,
    cells: usize,
) -> Result<Request, Refusal>
    ensures { result ≡ written (kind_in kind) c cells (refused_by broadcast code.IllegalDataAddress) }
{
    inside(broadcast, c.address, c.count, cells)?;
    Ok(write_of(kind, c))
}

// A write of one coil or register.
fn judge_one(body: &[u8], broadcast: bool, kind: CellKind, cells: usize) -> Result<Request, Refusal>
    requires { get_or body.now 1 0 ≡ code (one (kind_in kind)) }
    ensures { (s : Setup) → s.cells (target (kind_in kind)) ≡ cells → result ≡ judged s broadcast body.now }
{
    if body.len() != 6 {
        return Err(Refusal::WrongLength);
    }
    valued(body, broadcast, kind)?;
    let c = Cells {
        address: word(body, 2),
        count: 1,
        at: 4,
    };
    judge_address(broadcast, kind, c, cells)
}

// A body is as long as its byte count says. That stands at `at`, and the data behind it.
fn lengthy(body: &[u8], at: usize) -> Result<(), Refusal>
    requires { at ≤ 10 }
    ensures { result ≡ needed ((at + 1 ≤? length body.now) and? (length body.now ≟ at + 1 + get_or body.now at 0)) WrongLength }
{
    if body.len() < at + 1 || body.len() != at + 1 + body[at] as usize {
        return Err(Refusal::WrongLength);
    }
    Ok(())
}

// How many bytes hold so many values.
fn octets_of(kind: CellKind, count: u16) -> usize
    ensures { result ≡ octets (kind_in kind) count }
{
    match kind {
        CellKind::Bits => (count as usize + 7) / 8,
        CellKind::Words => 2 * (count as usize),
    }
}

// A write of at most `most` coils or registers.
fn judge_many(
    body: &[u8],
    broadcast: bool,
    kind: CellKind,
    most: u16,
    cells: usize,
) -> Result<Request, Refusal>
    requires { (get_or body.now 1 0 ≡ code (many (kind_in kind))) × (most ≡ most_written (kind_in kind)) }
    ensures { (s : Setup) → s.cells (target (kind_in kind)) ≡ cells → result ≡ judged s broadcast body.now }
{
    lengthy(body, 6)?;
    let count = word(body, 4);
    counted(broadcast, count, most)?;
    if body[6] as usize != octets_of(kind, count) {
        return Err(refused(broadcast, Code::IllegalDataValue));
    }
    let c = Cells {
        address: word(body, 2),
        count,
        at: 7,
    };
    judge_address(broadcast, kind, c, cells)
}

// A function that is not offered.
fn other_function(function: u8, broadcast: bool) -> Refusal
    ensures { result ≡ choose (function ≤? 127) (refused_by broadcast code.IllegalFunction) BadFunction }
{
    if function > 127 {
        return Refusal::BadFunction;
    }
    refused(broadcast, Code::IllegalFunction)
}

// The verdict on a body, which starts with the unit; `broadcast` says whether that is a broadcast number. A body without a function counts
// as one of function 0.
pub fn judge(
    body: &[u8],
    broadcast: bool,
    coil_cells: usize,
    discrete_cells: usize,
    holding_cells: usize,
    input_cells: usize,
) -> Result<Request, Refusal>
    ensures { (s : Setup) → (s.cells coils ≡ coil_cells) × (s.cells discretes ≡ discrete_cells) × (s.cells holdings ≡ holding_cells) × (s.cells inputs ≡ input_cells)
        → verdict_paper result ≡ verdict_paper (judged s broadcast body.now) }
{
    if body.len() < 2 {
        return Err(refused(broadcast, Code::IllegalFunction));
    }
    match body[1] {
        1 => judge_read(body, broadcast, 2000, coil_cells),
        2 => judge_read(body, broadcast, 2000, discrete_cells),
        3 => judge_read(body, broadcast, 125, holding_cells),
        4 => judge_read(body, broadcast, 125, input_cells),
        5 => judge_one(body, broadcast, CellKind::Bits, coil_cells),
        6 => judge_one(body, broadcast, CellKind::Words, holding_cells),
        15 => judge_many(body, broadcast, CellKind::Bits, 1968, coil_cells),
        16 => judge_many(body, broadcast, CellKind::Words, 123, holding_cells),
        22 => judge_mask(body, broadcast, holding_cells),
        23 => judge_both(body, broadcast, holding_cells),
        _ => Err(other_function(body[1], broadcast)),
    }
}
