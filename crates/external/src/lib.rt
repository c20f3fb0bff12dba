// Module 7: requests that the firmware carries out itself.
#![tactic(auto)]

mod errors;
mod reads;
mod writes;

ghost use Rattle.std.specs.Prelude.{◌≡◌};
ghost use Rattle.frame.specs.State.{left_paper};
ghost use Rattle.external.specs.External.{error_set_if_unset, external_read_processed, external_write_processed};
ghost use Rattle.external.specs.External.{read_described, external_read, write_described, external_write};

use errors::{code_of, fail, set_code};
use frame::{ModbusFrame, ModbusFunction};
use modbus::{CellKind, ErrorKind};
use reads::{read_done, want};
use writes::{want_coil, want_holding, want_many, write_done};

// What the firmware reports of a request that it did not do: one of the crate's kinds, or one of the two Modbus errors
// that are no kind here.
#[derive(Clone, Copy, PartialEq, Eq)]
pub enum Failure {
    Refused(ErrorKind),
    IllegalFunction,
    IllegalDataAddress,
}

// Where a write's data are: a single coil's value itself, or so many bytes of the frame from a place on. A place and no slice, since the state
// borrows nothing. Bits and words are two cases of one struct, as the customer asks.
#[derive(Clone, Copy, PartialEq, Eq)]
pub enum Data {
    Value(u8),
    Place(usize, usize),
}

#[derive(Clone, Copy, PartialEq, Eq)]
pub struct WriteCells {
    pub address: u16,
    pub count: u16,
    pub data: Data,
}

#[derive(Clone, Copy, PartialEq, Eq)]
pub enum Write {
    Bits(WriteCells),
    Words(WriteCells),
}

// A read's data go to so many bytes of the response from a place on.
#[derive(Clone, Copy, PartialEq, Eq)]
pub struct ReadCells {
    pub address: u16,
    pub count: u16,
    pub at: usize,
    pub len: usize,
}

#[derive(Clone, Copy, PartialEq, Eq)]
pub enum Read {
    Bits(ReadCells),
    Words(ReadCells),
}

pub fn set_modbus_error_if_unset(
    frame: &mut ModbusFrame,
    reported: Result<(), Failure>,
    response: &mut [u8],
) -> Result<(), ErrorKind>
    ensures { left_paper result frame.new response.new ≡ error_set_if_unset reported frame.old response.old }
{
    if response.len() < frame.response_len {
        return Err(ErrorKind::OOB);
    }
    let Err(failure) = reported else {
        return Ok(());
    };
    match code_of(failure) {
        Some(code) => set_code(frame, code, response),
        None => Ok(()),
    }
}

pub fn process_external_read(
    frame: &mut ModbusFrame,
    read_result: Result<(), Failure>,
    response: &mut [u8],
) -> Result<(), ErrorKind>
    ensures { left_paper result frame.new response.new ≡
        external_read_processed read_result frame.old response.old }
{
    if response.len() < frame.response_len {
        return Err(ErrorKind::OOB);
    }
    match read_result {
        Ok(()) => read_done(frame),
        Err(failure) => fail(frame, failure, response),
    }
}

pub fn process_external_write(
    frame: &mut ModbusFrame,
    write_result: Result<(), Failure>,
    buf: &[u8],
    response: &mut [u8],
) -> Result<(), ErrorKind>
    ensures { left_paper result frame.new response.new ≡
        external_write_processed write_result frame.old buf.now response.old }
{
    if response.len() < frame.response_len {
        return Err(ErrorKind::OOB);
    }
    match write_result {
        Ok(()) => write_done(frame, buf, response),
        Err(failure) => fail(frame, failure, response),
    }
}

// The response up to its data, and room for them.
pub fn get_external_read(
    frame: &mut ModbusFrame,
    buf: &[u8],
    response: &mut [u8],
) -> Result<Read, ErrorKind>
    ensures { read_described result frame.new response.new ≡
        external_read frame.old buf.now response.old }
{
    if response.len() < frame.response_len {
        return Err(ErrorKind::OOB);
    }
    match frame.func {
        ModbusFunction::GetCoils | ModbusFunction::GetDiscretes => {
            want(frame, buf, CellKind::Bits, response)
        }
        ModbusFunction::GetHoldings | ModbusFunction::GetInputs => {
            want(frame, buf, CellKind::Words, response)
        }
        ModbusFunction::SetCoil
        | ModbusFunction::SetHolding
        | ModbusFunction::SetCoilsBulk
        | ModbusFunction::SetHoldingsBulk => Err(ErrorKind::WriteCallOnReadFrame),
    }
}

pub fn get_external_write(
    frame: &mut ModbusFrame,
    buf: &[u8],
    response: &mut [u8],
) -> Result<Write, ErrorKind>
    ensures { write_described result frame.new response.new ≡
        external_write frame.old buf.now response.old }
{
    if response.len() < frame.response_len {
        return Err(ErrorKind::OOB);
    }
    match frame.func {
        ModbusFunction::GetCoils
        | ModbusFunction::GetDiscretes
        | ModbusFunction::GetHoldings
        | ModbusFunction::GetInputs => Err(ErrorKind::ReadCallOnWriteFrame),
        ModbusFunction::SetCoil => want_coil(frame, buf, response),
        ModbusFunction::SetHolding => want_holding(frame, buf),
        ModbusFunction::SetCoilsBulk => want_many(frame, buf, CellKind::Bits),
        ModbusFunction::SetHoldingsBulk => want_many(frame, buf, CellKind::Words),
    }
}
