// The crate's frame processor (document 01, modules 5 to 7): its state, with which each call is lent what it needs of the request, the list of
// broadcast numbers, the response and the tables, each apart, as document 01 has it.
#![tactic(auto)]

pub mod changes;
pub mod parse;

ghost use Rattle.std.specs.Prelude.{◌≡◌};
ghost use Rattle.frame.specs.State.{fresh, function_paper, function_of};

use modbus::ModbusProto;

#[derive(Clone, Copy, PartialEq, Eq)]
pub enum ModbusFunction {
    GetCoils,
    GetDiscretes,
    GetHoldings,
    GetInputs,
    SetCoil,
    SetHolding,
    SetCoilsBulk,
    SetHoldingsBulk,
}

// A function that is not served.
#[derive(Clone, Copy, PartialEq, Eq)]
pub struct Unsupported;

impl TryFrom<u8> for ModbusFunction {
    type Error = Unsupported;

    ghost try_from_gives = { λ number known. function_paper known ≡ function_of number };

    fn try_from(number: u8) -> Result<ModbusFunction, Unsupported> {
        match number {
            1 => Ok(ModbusFunction::GetCoils),
            2 => Ok(ModbusFunction::GetDiscretes),
            3 => Ok(ModbusFunction::GetHoldings),
            4 => Ok(ModbusFunction::GetInputs),
            5 => Ok(ModbusFunction::SetCoil),
            6 => Ok(ModbusFunction::SetHolding),
            15 => Ok(ModbusFunction::SetCoilsBulk),
            16 => Ok(ModbusFunction::SetHoldingsBulk),
            _ => Err(Unsupported),
        }
    }
}

// The crate's fields, and how many bytes of the lent slice are the response. Of an error only the exception's code is kept, and a number, since a
// caller may give any.
#[derive(Clone, Copy, PartialEq, Eq)]
pub struct ModbusFrame {
    pub unit_id: u8,
    pub proto: ModbusProto,
    pub processing_required: bool,
    pub response_required: bool,
    pub responding_to_fn: u8,
    pub readonly: bool,
    pub frame_start: usize,
    pub func: ModbusFunction,
    pub reg: u16,
    pub count: u16,
    pub error: Option<u8>,
    pub response_len: usize,
}

impl ModbusFrame {
    // The response is cleared: it has no byte of the slice that is lent later.
    pub fn new(unit_id: u8, proto: ModbusProto) -> ModbusFrame
        ensures { result ≡ fresh unit_id proto }
    {
        ModbusFrame {
            unit_id,
            proto,
            processing_required: false,
            response_required: false,
            responding_to_fn: 0,
            readonly: true,
            frame_start: 0,
            func: ModbusFunction::GetCoils,
            reg: 0,
            count: 1,
            error: None,
            response_len: 0,
        }
    }
}
