// Module 7: what a request changes.
ghost use Rattle.std.specs.Prelude.{◌≡◌};
ghost use Rattle.frame.specs.State.{ported_of};
ghost use Rattle.frame.specs.Changes.{changes_paper, changes_by};

use crate::{ModbusFrame, ModbusFunction};

// The cells that a request changes: the first, and how many.
#[derive(Clone, Copy, PartialEq, Eq)]
pub enum Changes {
    Coils { reg: u16, count: u16 },
    Holdings { reg: u16, count: u16 },
}

impl ModbusFrame {
    // Also of a write that parse refused; None of a read.
    pub fn changes(&self) -> Option<Changes>
        ensures { changes_paper result ≡ changes_by (ported_of self.now.func) self.now.reg self.now.count }
    {
        let reg = self.reg;
        let count = self.count;
        match self.func {
            ModbusFunction::GetCoils
            | ModbusFunction::GetDiscretes
            | ModbusFunction::GetHoldings
            | ModbusFunction::GetInputs => None,
            ModbusFunction::SetCoil => Some(Changes::Coils { reg, count: 1 }),
            ModbusFunction::SetHolding => Some(Changes::Holdings { reg, count: 1 }),
            ModbusFunction::SetCoilsBulk => Some(Changes::Coils { reg, count }),
            ModbusFunction::SetHoldingsBulk => Some(Changes::Holdings { reg, count }),
        }
    }
}
