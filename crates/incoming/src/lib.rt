// What the crate's parse reads of a frame's bytes before it knows what is asked, apart from the state.
#![tactic(auto)]

ghost use Rattle.std.specs.Prelude.{true, false, ◌≡◌, ◌+◌};
ghost use Rattle.modbus.specs.Step.{choose};
ghost use Rattle.modbus.specs.Paper.{told, paper, done_paper};
ghost use Rattle.modbus.specs.declared.ModbusProto.TheVariants as proto;
ghost use Rattle.incoming.specs.Envelope.{begins, follows, check_follows, Countable, countable?, frame_checked};

use checks::{calc_crc16, calc_lrc};
use modbus::{ErrorKind, ModbusProto};
use octets::word;

// Where the unit stands in a frame.
pub fn frame_start(proto: ModbusProto, start: usize, buf: &[u8]) -> Result<usize, ErrorKind>
    ensures { paper result ≡ told (begins proto start buf.now) }
{
    match proto {
        ModbusProto::Rtu | ModbusProto::Ascii => Ok(start),
        ModbusProto::TcpUdp => after_header(buf),
    }
}

fn after_header(buf: &[u8]) -> Result<usize, ErrorKind>
    ensures { paper result ≡ told (begins proto.TcpUdp 0 buf.now) }
{
    if buf.len() < 6 || word(buf, 2) != 0 {
        return Err(ErrorKind::FrameBroken);
    }
    match word(buf, 4) {
        6..=250 => Ok(6),
        _ => Err(ErrorKind::FrameBroken),
    }
}

// Whether the crate, which counts the bytes of a serial frame's check in a byte, overflows at so many.
pub fn overflows(proto: ModbusProto, len: usize) -> bool
    ensures { result ≡ choose (countable? proto len) false true }
{
    match proto {
        ModbusProto::Rtu | ModbusProto::Ascii => 255 < len,
        ModbusProto::TcpUdp => false,
    }
}

// The macro of the crate's parse: whether the check of a frame of `len` bytes is right. It takes the whole buffer, since the crate's check is of its first bytes. More than it can count are FrameBroken.
pub fn check_frame_crc(
    proto: ModbusProto,
    buf: &[u8],
    start: usize,
    len: usize,
) -> Result<(), ErrorKind>
    ensures { done_paper result ≡ told (frame_checked proto buf.now start len) }
{
    if overflows(proto, len) {
        return Err(ErrorKind::FrameBroken);
    }
    check_counted(proto, buf, start, len)
}

fn check_counted(proto: ModbusProto, buf: &[u8], start: usize, len: usize) -> Result<(), ErrorKind>
    requires { Countable proto len }
    ensures { done_paper result ≡ told (check_follows proto buf.now start len) }
{
    match proto {
        ModbusProto::Rtu => {
            let check = calc_crc16(buf, len as u8).to_le_bytes();
            follows(buf, start, len, &check)
        }
        ModbusProto::Ascii => {
            let check = [calc_lrc(buf, len as u8)?];
            follows(buf, start, len, &check)
        }
        ModbusProto::TcpUdp => Ok(()),
    }
}

// Whether these bytes stand in the frame, `len` bytes after the start.
fn follows(buf: &[u8], start: usize, len: usize, check: &[u8]) -> Result<(), ErrorKind>
    ensures { done_paper result ≡ told (follows buf.now (start + len) check.now) }
{
    if buf.len() < start || buf.len() - start < len || buf.len() - start - len < check.len() {
        return Err(ErrorKind::FrameBroken);
    }
    let at = start + len;
    if &buf[at..at + check.len()] != check {
        return Err(ErrorKind::FrameCRCError);
    }
    Ok(())
}
