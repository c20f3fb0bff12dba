// A Modbus error, set where none is.
ghost use Rattle.std.specs.Prelude.{◌≡◌, Err};
ghost use Rattle.frame.specs.State.{left_paper, well};
ghost use Rattle.external.specs.External.{report_code, kind_code, len_to_leave, error_set, failed_by, reported};
ghost use Rattle.external.specs.Answers.{coded};

use crate::Failure;
use frame::ModbusFrame;
use modbus::{ErrorKind, ModbusProto};

// The response is cut or filled to what finalize_response expects: the transaction and the protocol on TCP, else nothing. The code is a
// number, as in the state.
pub(crate) fn set_code(
    frame: &mut ModbusFrame,
    code: u8,
    response: &mut [u8],
) -> Result<(), ErrorKind>
    ensures { left_paper result frame.new response.new ≡
        error_set frame.old.error code frame.old response.old }
{
    if let Some(_) = frame.error {
        return Ok(());
    }
    frame.response_len = response::resize(
        response,
        frame.response_len,
        len_to_leave(frame.proto),
        0,
    )?;
    frame.error = Some(code);
    Ok(())
}

// What the firmware reports of a request that it did not do: a Modbus error is set, any other kind handed on.
pub(crate) fn fail(
    frame: &mut ModbusFrame,
    failure: Failure,
    response: &mut [u8],
) -> Result<(), ErrorKind>
    ensures { left_paper result frame.new response.new ≡
        reported (Err failure) (well frame.old response.old) frame.old response.old }
{
    match failure {
        Failure::Refused(kind) => fail_by(frame, kind, response),
        Failure::IllegalFunction => set_code(frame, 1, response),
        Failure::IllegalDataAddress => set_code(frame, 2, response),
    }
}

fn fail_by(frame: &mut ModbusFrame, kind: ErrorKind, response: &mut [u8]) -> Result<(), ErrorKind>
    ensures { left_paper result frame.new response.new ≡ failed_by kind frame.old response.old }
{
    match kind_code(kind) {
        Some(code) => set_code(frame, code, response),
        None => Err(kind),
    }
}

// How many bytes of a response stay before an exception.
fn len_to_leave(proto: ModbusProto) -> usize
    ensures { result ≡ len_to_leave proto }
{
    match proto {
        ModbusProto::Rtu | ModbusProto::Ascii => 0,
        ModbusProto::TcpUdp => 4,
    }
}

// The exception's code of a kind that is a Modbus error.
fn kind_code(kind: ErrorKind) -> Option<u8>
    ensures { result ≡ coded (kind_code kind) }
{
    match kind {
        ErrorKind::IllegalDataValue => Some(3),
        _ => None,
    }
}

pub(crate) fn code_of(failure: Failure) -> Option<u8>
    ensures { result ≡ coded (report_code (Err failure)) }
{
    match failure {
        Failure::Refused(kind) => kind_code(kind),
        Failure::IllegalFunction => Some(1),
        Failure::IllegalDataAddress => Some(2),
    }
}
