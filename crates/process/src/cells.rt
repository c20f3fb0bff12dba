// Bits and words: what a request's cells are.
ghost use Rattle.std.specs.Prelude.{true, false, ◌≡◌, ◌+◌};
ghost use Rattle.modbus.specs.Paper.{kind_in, told, paper};
ghost use Rattle.modbus.specs.Step.{choose};
ghost use Rattle.process.specs.Process.{data_bytes, legal?, data_behind};

use modbus::{CellKind, ErrorKind};

// How many data bytes so many cells take. Those of registers are counted in 16 bits: the highest bit of the count falls
// away.
pub fn data_bytes(of: CellKind, count: u16) -> u16
    ensures { result ≡ data_bytes (kind_in of) count }
{
    match of {
        CellKind::Bits => count.div_ceil(8),
        CellKind::Words => count.wrapping_mul(2),
    }
}

// Whether the value of one cell is refused: that of a coil is on or off.
pub fn illegal(of: CellKind, value: u16) -> bool
    ensures { result ≡ choose (legal? (kind_in of) value) false true }
{
    match of {
        CellKind::Words => false,
        CellKind::Bits => value != 0xff00 && value != 0,
    }
}

// How many data bytes a write of many has behind its first seven, if the frame holds them.
pub fn data_behind(buf: &[u8], start: usize) -> Result<usize, ErrorKind>
    ensures { paper result ≡ told (data_behind buf.now start) }
{
    if buf.len() < start || buf.len() - start < 7 {
        return Err(ErrorKind::FrameBroken);
    }
    let bytes = buf[start + 6] as usize;
    if buf.len() - start - 7 < bytes {
        return Err(ErrorKind::FrameBroken);
    }
    Ok(bytes)
}
