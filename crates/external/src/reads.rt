// What the firmware is to read.
ghost use Rattle.std.specs.Prelude.{◌≡◌, ◌+◌, List, ℕ};
ghost use Rattle.modbus.specs.Paper.{kind_in};
ghost use Rattle.response.specs.Bounded.{resized};
ghost use Rattle.outgoing.specs.Grow.{head};
ghost use Rattle.frame.specs.State.{ported_of, left_paper};
ghost use Rattle.process.specs.Process.{response_of};
ghost use Rattle.external.specs.External.{read_described, read_done, room_sized, roomed, wanted};
ghost use Rattle.external.specs.Answers.{room_paper};

use crate::{Read, ReadCells};
use frame::{ModbusFrame, ModbusFunction};
use modbus::{CellKind, ErrorKind};
use process::added::add_head;
use process::cells::data_bytes;

pub(crate) fn want(
    frame: &mut ModbusFrame,
    buf: &[u8],
    of: CellKind,
    response: &mut [u8],
) -> Result<Read, ErrorKind>
    ensures { read_described result frame.new response.new ≡
        wanted (kind_in of) frame.old buf.now response.old }
{
    let bytes = data_bytes(of, frame.count);
    let at = make_room(frame, buf, bytes, response)?;
    let cells = ReadCells {
        address: frame.reg,
        count: frame.count,
        at,
        len: bytes as usize,
    };
    match of {
        CellKind::Bits => Ok(Read::Bits(cells)),
        CellKind::Words => Ok(Read::Words(cells)),
    }
}

// Where the room for a read's data begins, behind the response's head.
fn make_room(
    frame: &mut ModbusFrame,
    buf: &[u8],
    bytes: u16,
    response: &mut [u8],
) -> Result<usize, ErrorKind>
    ensures { room_paper result frame.new response.new ≡
        roomed bytes frame.old
        (head frame.old.proto buf.now frame.old.frame_start bytes
        (response_of frame.old response.old)) }
{
    add_head(frame, buf, bytes, response)?;
    add_room(frame, bytes, response)
}

fn add_room(frame: &mut ModbusFrame, bytes: u16, response: &mut [u8]) -> Result<usize, ErrorKind>
    ensures { room_paper result frame.new response.new ≡
        room_sized frame.old (response_of frame.old response.old)
        (resized response.old frame.old.response_len (frame.old.response_len + bytes) 0) }
{
    let at = frame.response_len;
    let Some(end) = at.checked_add(bytes as usize) else {
        return Err(ErrorKind::OOB);
    };
    frame.response_len = response::resize(response, at, end, 0)?;
    Ok(at)
}

// What is left of a read that was done.
pub(crate) fn read_done(frame: &ModbusFrame) -> Result<(), ErrorKind>
    ensures { (out : List ℕ) → left_paper result frame.now out ≡ read_done (ported_of frame.now.func) frame.now out }
{
    match frame.func {
        ModbusFunction::GetCoils
        | ModbusFunction::GetDiscretes
        | ModbusFunction::GetHoldings
        | ModbusFunction::GetInputs => Ok(()),
        ModbusFunction::SetCoil
        | ModbusFunction::SetHolding
        | ModbusFunction::SetCoilsBulk
        | ModbusFunction::SetHoldingsBulk => Err(ErrorKind::WriteCallOnReadFrame),
    }
}
