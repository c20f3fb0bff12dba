// What the firmware is to write.
ghost use Rattle.std.specs.Prelude.{◌≡◌, List, ℕ};
ghost use Rattle.modbus.specs.Paper.{kind_in, told, done_paper, paper};
ghost use Rattle.frame.specs.State.{ported_of, left_paper};
ghost use Rattle.external.specs.External.{write_described, write_done};
ghost use Rattle.external.specs.External.{indexed, coil_described, holding_described, data_len, many_described};

use crate::errors::set_code;
use crate::{Data, Write, WriteCells};
use frame::{ModbusFrame, ModbusFunction};
use modbus::{CellKind, ErrorKind};
use octets::word;
use process::added::add_echo;
use process::cells::{data_behind, illegal};

// The error of a value is set, where that has room.
pub(crate) fn want_coil(
    frame: &mut ModbusFrame,
    buf: &[u8],
    response: &mut [u8],
) -> Result<Write, ErrorKind>
    ensures { write_described result frame.new response.new ≡
        coil_described frame.old buf.now response.old }
{
    let start = frame.frame_start;
    index(buf, start, 4, 6)?;
    let value = word(buf, start + 4);
    if illegal(CellKind::Bits, value) {
        set_code(frame, 3, response)?;
        return Err(ErrorKind::IllegalDataValue);
    }
    Ok(Write::Bits(WriteCells {
        address: frame.reg,
        count: 1,
        data: Data::Value((value / 0xff00) as u8),
    }))
}

pub(crate) fn want_holding(frame: &ModbusFrame, buf: &[u8]) -> Result<Write, ErrorKind>
    ensures { (out : List ℕ) → write_described result frame.now out ≡ holding_described frame.now buf.now out }
{
    let start = frame.frame_start;
    index(buf, start, 6, 6)?;
    Ok(Write::Words(WriteCells {
        address: frame.reg,
        count: 1,
        data: Data::Place(start + 4, 2),
    }))
}

pub(crate) fn want_many(frame: &ModbusFrame, buf: &[u8], of: CellKind) -> Result<Write, ErrorKind>
    ensures { (out : List ℕ) → write_described result frame.now out ≡ many_described (kind_in of) frame.now buf.now out }
{
    let n = data_len(frame, buf)?;
    let cells = WriteCells {
        address: frame.reg,
        count: frame.count,
        data: Data::Place(frame.frame_start + 7, n),
    };
    match of {
        CellKind::Bits => Ok(Write::Bits(cells)),
        CellKind::Words => Ok(Write::Words(cells)),
    }
}

// How many data bytes a write of many has, or its refusal.
fn data_len(frame: &ModbusFrame, buf: &[u8]) -> Result<usize, ErrorKind>
    ensures { paper result ≡ told (data_len frame.now buf.now) }
{
    let start = frame.frame_start;
    index(buf, start, 6, 7)?;
    data_behind(buf, start)
}

// Whether the bytes of the frame up to `end` are there, as `outgoing::reach` says; but a sum that overflows is one of up to `first`.
fn index(buf: &[u8], start: usize, first: usize, end: usize) -> Result<(), ErrorKind>
    ensures { done_paper result ≡ told (indexed buf.now start first end) }
{
    let Some(_) = start.checked_add(first) else {
        return Err(ErrorKind::OOB);
    };
    if buf.len() < end || buf.len() - end < start {
        return Err(ErrorKind::FrameBroken);
    }
    Ok(())
}

pub(crate) fn write_done(
    frame: &mut ModbusFrame,
    buf: &[u8],
    response: &mut [u8],
) -> Result<(), ErrorKind>
    ensures { left_paper result frame.new response.new ≡
        write_done (ported_of frame.old.func) frame.old buf.now response.old }
{
    match frame.func {
        ModbusFunction::GetCoils
        | ModbusFunction::GetDiscretes
        | ModbusFunction::GetHoldings
        | ModbusFunction::GetInputs => Err(ErrorKind::ReadCallOnWriteFrame),
        ModbusFunction::SetCoil
        | ModbusFunction::SetHolding
        | ModbusFunction::SetCoilsBulk
        | ModbusFunction::SetHoldingsBulk => add_echo(frame, buf, response),
    }
}
