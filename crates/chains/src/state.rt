// The state of a frame as it stands in a record.
ghost use Rattle.std.specs.Prelude.{◌<◌};

use frame::{ModbusFrame, ModbusFunction};
use modbus::ModbusProto;
use octets::{byte, word};
use records::parts::eight;

// Where the states before and after the call stand in a record.
const BEFORE: usize = 2;

const AFTER: usize = 30;

// The state at a place, where its numbers name this transport, this function and this error.
fn state_at(
    record: &[u8],
    at: usize,
    proto: ModbusProto,
    func: ModbusFunction,
    error: Option<u8>,
) -> ModbusFrame
    requires { at < 100 }
{
    let flags = byte(record, at + 2);
    ModbusFrame {
        unit_id: byte(record, at),
        proto,
        processing_required: flags % 2 == 1,
        response_required: flags / 2 % 2 == 1,
        responding_to_fn: byte(record, at + 3),
        readonly: flags / 4 % 2 == 1,
        frame_start: eight(record, at + 4),
        func,
        reg: word(record, at + 13),
        count: word(record, at + 15),
        error,
        response_len: eight(record, at + 19),
    }
}

// The state before the call. A number of no transport stands for TCP, one of no function for a read of coils.
pub(crate) fn state(record: &[u8]) -> ModbusFrame {
    let proto = ModbusProto::try_from(byte(record, BEFORE + 1)).unwrap_or(ModbusProto::TcpUdp);
    let func = ModbusFunction::try_from(byte(record, BEFORE + 12)).unwrap_or(
        ModbusFunction::GetCoils,
    );
    let error = match byte(record, BEFORE + 17) {
        0 => None,
        _ => Some(byte(record, BEFORE + 18)),
    };
    state_at(record, BEFORE, proto, func, error)
}

// The state expected, if its numbers are those of one.
fn expected(record: &[u8]) -> Option<ModbusFrame> {
    let proto = ModbusProto::try_from(byte(record, AFTER + 1)).ok()?;
    let func = ModbusFunction::try_from(byte(record, AFTER + 12)).ok()?;
    let error = match (byte(record, AFTER + 17), byte(record, AFTER + 18)) {
        (0, 0) => None,
        (1, code) => Some(code),
        _ => return None,
    };
    if 8 <= byte(record, AFTER + 2) {
        return None;
    }
    Some(state_at(record, AFTER, proto, func, error))
}

// Whether the state is the one expected.
pub(crate) fn same_state(record: &[u8], s: &ModbusFrame) -> bool {
    expected(record) == Some(*s)
}
