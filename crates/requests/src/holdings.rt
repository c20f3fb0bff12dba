// Requests on holdings alone: a mask write, and a write and read.
ghost use Rattle.std.specs.Prelude.{◌≡◌, get_or};
ghost use Rattle.modbus.specs.Table.{holdings};
ghost use Rattle.modbus.specs.Request.{code, mask, both};
ghost use Rattle.modbus.specs.Setup.{Setup};
ghost use Rattle.requests.specs.Judged.{judged};

use crate::{Code, Exchange, Mask, Refusal, Request, counted, inside, lengthy, octets_of, refused};
use modbus::CellKind;
use octets::word;

// A mask write. Any masks will do.
pub(crate) fn judge_mask(body: &[u8], broadcast: bool, cells: usize) -> Result<Request, Refusal>
    requires { get_or body.now 1 0 ≡ code mask }
    ensures { (s : Setup) → s.cells holdings ≡ cells → result ≡ judged s broadcast body.now }
{
    if body.len() != 8 {
        return Err(Refusal::WrongLength);
    }
    let address = word(body, 2);
    inside(broadcast, address, 1, cells)?;
    Ok(Request::Mask(Mask {
        address,
        and_mask: word(body, 4),
        or_mask: word(body, 6),
    }))
}

// A write of registers and a read of registers: both ranges lie inside the table, or nothing is done. On a broadcast number it is ignored, as a read
// is.
pub(crate) fn judge_both(body: &[u8], broadcast: bool, cells: usize) -> Result<Request, Refusal>
    requires { get_or body.now 1 0 ≡ code both }
    ensures { (s : Setup) → s.cells holdings ≡ cells → result ≡ judged s broadcast body.now }
{
    if broadcast {
        return Err(Refusal::ReadIgnored);
    }
    lengthy(body, 10)?;
    let x = Exchange {
        read_address: word(body, 2),
        read_count: word(body, 4),
        write_address: word(body, 6),
        write_count: word(body, 8),
    };
    counted(broadcast, x.read_count, 125)?;
    counted(broadcast, x.write_count, 121)?;
    if body[10] as usize != octets_of(CellKind::Words, x.write_count) {
        return Err(refused(broadcast, Code::IllegalDataValue));
    }
    inside(broadcast, x.read_address, x.read_count, cells)?;
    inside(broadcast, x.write_address, x.write_count, cells)?;
    Ok(Request::Exchange(x))
}
