// RTU frames: a body and its CRC, low byte first.
ghost use Rattle.std.specs.Prelude.{◌≡◌, ◌≤◌, []};
ghost use Rattle.modbus.specs.Decode.{unwrap};
ghost use Rattle.modbus.specs.declared.ModbusProto.TheVariants.{Rtu};
ghost use Rattle.transports.specs.Opened.{opened};
ghost use Rattle.transports.specs.Sealed.{sealed};

use crate::Fault;
use checks::calc_crc16;

// The body is the front of the frame.
pub fn open_rtu(frame: &[u8]) -> Result<usize, Fault>
    ensures { result ≡ opened (unwrap Rtu frame.now) }
{
    if frame.len() < 4 || 256 < frame.len() {
        return Err(Fault::Broken);
    }
    let n = frame.len() - 2;
    let crc = calc_crc16(frame, n as u8).to_le_bytes();
    if frame[n..] != crc[..] {
        return Err(Fault::WrongCheck);
    }
    Ok(n)
}

// The CRC goes behind the body.
pub(crate) fn seal_rtu(n: u8, reply: &mut [u8]) -> Option<usize>
    requires { n ≤ 253 }
    ensures { (result, reply.new) ≡ sealed Rtu [] n reply.old }
{
    if reply.len() < 260 {
        return None;
    }
    let m = n as usize;
    let [low, high] = calc_crc16(reply, n).to_le_bytes();
    reply[m] = low;
    reply[m + 1] = high;
    Some(m + 2)
}
