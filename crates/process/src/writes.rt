// A write carried out on one lent table.
ghost use Rattle.std.specs.Prelude.{◌≡◌};
ghost use Rattle.modbus.specs.Paper.{kind_in, told, done_paper, paper, told_with};
ghost use Rattle.modbus.specs.Table.{target};
ghost use Rattle.modbus.specs.Storage.{storage};
ghost use Rattle.tables.specs.Calls.{changed};
ghost use Rattle.frame.specs.State.{left_paper};
ghost use Rattle.process.specs.Process.{Legal, value_of, one_written, stored_many, data_held, many_written};
ghost use Rattle.process.specs.Resumed.{confirmed_by};

use crate::added::add_echo;
use crate::cells::{data_behind, illegal};
use frame::ModbusFrame;
use modbus::{CellKind, ErrorKind};
use octets::word;
use outgoing::reach;
use tables::coils::{set_coil, set_coils_from_u8};
use tables::registers::{set_holding, set_holdings_from_u8};

pub(crate) fn write_one(
    frame: &mut ModbusFrame,
    buf: &[u8],
    of: CellKind,
    table: &mut [u8],
    cells: usize,
    response: &mut [u8],
) -> Result<(), ErrorKind>
    ensures { (left_paper result frame.new response.new, table.new) ≡
        one_written (kind_in of) table.old cells frame.old buf.now response.old }
{
    let start = frame.frame_start;
    reach(buf, start, 6)?;
    let value = word(buf, start + 4);
    if illegal(of, value) {
        frame.error = Some(3);
        return Ok(());
    }
    let stored = set_one(of, table, cells, frame.reg, value);
    confirm(frame, stored, buf, response)
}

fn set_one(
    of: CellKind,
    table: &mut [u8],
    cells: usize,
    reg: u16,
    value: u16,
) -> Result<(), ErrorKind>
    requires { Legal (kind_in of) value }
    ensures { (done_paper result, table.new) ≡ told_with table.old
        (changed (storage (target (kind_in of))) table.old cells reg (value_of (kind_in of) value)) }
{
    match of {
        CellKind::Bits => set_coil(table, cells, reg, value == 0xff00),
        CellKind::Words => set_holding(table, cells, reg, value),
    }
}

pub(crate) fn write_many(
    frame: &mut ModbusFrame,
    buf: &[u8],
    of: CellKind,
    table: &mut [u8],
    cells: usize,
    response: &mut [u8],
) -> Result<(), ErrorKind>
    ensures { (left_paper result frame.new response.new, table.new) ≡
        many_written (kind_in of) table.old cells frame.old buf.now response.old }
{
    let n = data_held(buf, frame.frame_start)?;
    let from = frame.frame_start + 7;
    let end = from + n;
    let stored = set_many(frame, of, table, cells, &buf[from..end]);
    confirm(frame, stored, buf, response)
}

fn set_many(
    frame: &ModbusFrame,
    of: CellKind,
    table: &mut [u8],
    cells: usize,
    values: &[u8],
) -> Result<(), ErrorKind>
    ensures { (done_paper result, table.new) ≡ told_with table.old
        (stored_many (kind_in of) table.old cells frame.now values.now) }
{
    match of {
        CellKind::Bits => set_coils_from_u8(table, cells, frame.reg, frame.count, values),
        CellKind::Words => set_holdings_from_u8(table, cells, frame.reg, values),
    }
}

// The response to a write that a table call did or refused.
fn confirm(
    frame: &mut ModbusFrame,
    stored: Result<(), ErrorKind>,
    buf: &[u8],
    response: &mut [u8],
) -> Result<(), ErrorKind>
    ensures { left_paper result frame.new response.new ≡ confirmed_by frame.old buf.now response.old stored }
{
    match stored {
        Err(_) => {
            frame.error = Some(2);
            Ok(())
        }
        Ok(()) => add_echo(frame, buf, response),
    }
}

// How many data bytes a write of many has, if the frame holds it.
fn data_held(buf: &[u8], start: usize) -> Result<usize, ErrorKind>
    ensures { paper result ≡ told (data_held buf.now start) }
{
    reach(buf, start, 7)?;
    data_behind(buf, start)
}
