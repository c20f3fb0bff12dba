// Module 6: a request carried out on the lent tables, and the end of its response.
#![tactic(auto)]

pub mod added;
pub mod cells;
mod reads;
mod writes;

ghost use Rattle.std.specs.Prelude.{◌≡◌};
ghost use Rattle.tables.specs.Lent.{lent_of};
ghost use Rattle.frame.specs.State.{left_paper};
ghost use Rattle.process.specs.Process.{read_processed, wrote, write_processed, finalized};

use frame::{ModbusFrame, ModbusFunction};
use modbus::{CellKind, ErrorKind};
use reads::read;
use writes::{write_many, write_one};

// Each table is lent as document 01 lends it: its bytes, and how many cells it counts.
pub fn process_read(
    frame: &mut ModbusFrame,
    buf: &[u8],
    coils: &[u8],
    coil_cells: usize,
    discretes: &[u8],
    discrete_cells: usize,
    holdings: &[u8],
    holding_cells: usize,
    inputs: &[u8],
    input_cells: usize,
    response: &mut [u8],
) -> Result<(), ErrorKind>
    ensures { left_paper result frame.new response.new ≡ read_processed frame.old buf.now
        (lent_of coils.now coil_cells discretes.now discrete_cells
        holdings.now holding_cells inputs.now input_cells)
        response.old }
{
    if response.len() < frame.response_len {
        return Err(ErrorKind::OOB);
    }
    match frame.func {
        ModbusFunction::GetCoils => read(frame, buf, CellKind::Bits, coils, coil_cells, response),
        ModbusFunction::GetDiscretes => read(
            frame,
            buf,
            CellKind::Bits,
            discretes,
            discrete_cells,
            response,
        ),
        ModbusFunction::GetHoldings => read(
            frame,
            buf,
            CellKind::Words,
            holdings,
            holding_cells,
            response,
        ),
        ModbusFunction::GetInputs => read(
            frame,
            buf,
            CellKind::Words,
            inputs,
            input_cells,
            response,
        ),
        ModbusFunction::SetCoil
        | ModbusFunction::SetHolding
        | ModbusFunction::SetCoilsBulk
        | ModbusFunction::SetHoldingsBulk => Err(ErrorKind::WriteCallOnReadFrame),
    }
}

pub fn process_write(
    frame: &mut ModbusFrame,
    buf: &[u8],
    coils: &mut [u8],
    coil_cells: usize,
    holdings: &mut [u8],
    holding_cells: usize,
    response: &mut [u8],
) -> Result<(), ErrorKind>
    ensures { wrote (left_paper result frame.new response.new) coils.new holdings.new ≡
        write_processed frame.old buf.now coils.old coil_cells
        holdings.old holding_cells response.old }
{
    if response.len() < frame.response_len {
        return Err(ErrorKind::OOB);
    }
    match frame.func {
        ModbusFunction::GetCoils
        | ModbusFunction::GetDiscretes
        | ModbusFunction::GetHoldings
        | ModbusFunction::GetInputs => Err(ErrorKind::ReadCallOnWriteFrame),
        ModbusFunction::SetCoil => write_one(
            frame,
            buf,
            CellKind::Bits,
            coils,
            coil_cells,
            response,
        ),
        ModbusFunction::SetHolding => write_one(
            frame,
            buf,
            CellKind::Words,
            holdings,
            holding_cells,
            response,
        ),
        ModbusFunction::SetCoilsBulk => write_many(
            frame,
            buf,
            CellKind::Bits,
            coils,
            coil_cells,
            response,
        ),
        ModbusFunction::SetHoldingsBulk => write_many(
            frame,
            buf,
            CellKind::Words,
            holdings,
            holding_cells,
            response,
        ),
    }
}

pub fn finalize_response(frame: &mut ModbusFrame, response: &mut [u8]) -> Result<(), ErrorKind>
    ensures { left_paper result frame.new response.new ≡ finalized frame.old response.old }
{
    if let Some(code) = frame.error {
        outgoing::except(
            frame.proto,
            frame.unit_id,
            frame.responding_to_fn,
            code,
            response,
            &mut frame.response_len,
        )?;
    }
    outgoing::seal(frame.proto, response, &mut frame.response_len)
}
