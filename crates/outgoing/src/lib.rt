// What the crate adds to a response, apart from the state of a frame. The slice is the caller's and its length a field of the state (document
// 01), so they are lent apart. Each call makes the length that of what then stands: on a refusal too, for what came before it stays.
#![tactic(auto)]

ghost use Rattle.std.specs.Prelude.{true, false, ◌≡◌, ◌≤◌, length};
ghost use Rattle.modbus.specs.Step.{choose};
ghost use Rattle.modbus.specs.Paper.{told, done_paper};
ghost use Rattle.modbus.specs.declared.ModbusProto.TheVariants as proto;
ghost use Rattle.outgoing.specs.Grow.{reached, growth, grown_paper, response, add, length_field, most_length, settable?, begun, byte_counted, head, echo, except, seal};

use checks::{calc_crc16, calc_lrc};
use modbus::{ErrorKind, ModbusProto};

// Whether the frame has n bytes from the start on.
pub fn reach(buf: &[u8], start: usize, n: usize) -> Result<(), ErrorKind>
    ensures { done_paper result ≡ told (reached buf.now start n) }
{
    let Some(end) = start.checked_add(n) else {
        return Err(ErrorKind::OOB);
    };
    if buf.len() < end {
        return Err(ErrorKind::FrameBroken);
    }
    Ok(())
}

// Bytes added to a response.
fn extend(out: &mut [u8], len: &mut usize, other: &[u8]) -> Result<(), ErrorKind>
    ensures { grown_paper result len.new out.new ≡ growth (add other.now (response len.old out.old)) }
{
    *len = response::extend(out, *len, other)?;
    Ok(())
}

// Whether the length field cannot be set in a slice of `room` bytes.
fn unsettable(proto: ModbusProto, data_len: usize, room: usize, len: usize) -> bool
    ensures { result ≡ choose (settable? proto data_len room len) false true }
{
    if room < len {
        return true;
    }
    match proto {
        ModbusProto::Rtu | ModbusProto::Ascii => false,
        ModbusProto::TcpUdp => { 65535 < data_len || room - len < 2 }
    }
}

// The crate's macro: the length field, which a TCP response has.
fn tcp_response_set_data_len(
    proto: ModbusProto,
    data_len: usize,
    out: &mut [u8],
    len: &mut usize,
) -> Result<(), ErrorKind>
    requires { data_len ≤ most_length proto }
    ensures { grown_paper result len.new out.new ≡ growth (add (length_field proto data_len) (response len.old out.old)) }
{
    match proto {
        ModbusProto::Rtu | ModbusProto::Ascii => extend(out, len, b""),
        ModbusProto::TcpUdp => extend(out, len, &(data_len as u16).to_be_bytes()),
    }
}

// What a response begins with: the length field, and the first n bytes as asked.
fn begin(
    proto: ModbusProto,
    data_len: usize,
    buf: &[u8],
    start: usize,
    n: usize,
    out: &mut [u8],
    len: &mut usize,
) -> Result<(), ErrorKind>
    ensures { grown_paper result len.new out.new ≡ growth (begun proto data_len buf.now start n (response len.old out.old)) }
{
    if unsettable(proto, data_len, out.len(), *len) {
        return Err(ErrorKind::OOB);
    }
    reach(buf, start, n)?;
    tcp_response_set_data_len(proto, data_len, out, len)?;
    let end = start + n;
    extend(out, len, &buf[start..end])
}

// A read's response up to its data: unit and function as asked, byte count.
pub fn head(
    proto: ModbusProto,
    buf: &[u8],
    start: usize,
    bytes: u16,
    out: &mut [u8],
    len: &mut usize,
) -> Result<(), ErrorKind>
    ensures { grown_paper result len.new out.new ≡ growth (head proto buf.now start bytes (response len.old out.old)) }
{
    begin(proto, bytes as usize + 3, buf, start, 2, out, len)?;
    byte_count(bytes, out, len)
}

fn byte_count(bytes: u16, out: &mut [u8], len: &mut usize) -> Result<(), ErrorKind>
    ensures { grown_paper result len.new out.new ≡ growth (byte_counted bytes (response len.old out.old)) }
{
    if 255 < bytes {
        return Err(ErrorKind::OOB);
    }
    extend(out, len, &[bytes as u8])
}

// A write's response: the first six bytes as asked.
pub fn echo(
    proto: ModbusProto,
    buf: &[u8],
    start: usize,
    out: &mut [u8],
    len: &mut usize,
) -> Result<(), ErrorKind>
    ensures { grown_paper result len.new out.new ≡ growth (echo proto buf.now start (response len.old out.old)) }
{
    begin(proto, 6, buf, start, 6, out, len)
}

// An exception: the length field of TCP, unit, function with its highest bit set, code, which a caller may give as it likes.
pub fn except(
    proto: ModbusProto,
    unit: u8,
    function: u8,
    code: u8,
    out: &mut [u8],
    len: &mut usize,
) -> Result<(), ErrorKind>
    ensures { grown_paper result len.new out.new ≡ growth (except proto unit function code (response len.old out.old)) }
{
    if out.len() < *len || 127 < function {
        return Err(ErrorKind::OOB);
    }
    match proto {
        ModbusProto::Rtu | ModbusProto::Ascii => extend(out, len, &[unit, function + 128, code]),
        ModbusProto::TcpUdp => extend(out, len, &[0, 3, unit, function + 128, code]),
    }
}

// The check of a serial line.
pub fn seal(proto: ModbusProto, out: &mut [u8], len: &mut usize) -> Result<(), ErrorKind>
    ensures { grown_paper result len.new out.new ≡ growth (seal proto (response len.old out.old)) }
{
    if out.len() < *len {
        return Err(ErrorKind::OOB);
    }
    match proto {
        ModbusProto::Rtu => add_crc(out, len),
        ModbusProto::Ascii => add_lrc(out, len),
        ModbusProto::TcpUdp => Ok(()),
    }
}

fn add_crc(out: &mut [u8], len: &mut usize) -> Result<(), ErrorKind>
    requires { len.old ≤ length out.old }
    ensures { grown_paper result len.new out.new ≡ growth (seal proto.Rtu (response len.old out.old)) }
{
    if 255 < *len {
        return Err(ErrorKind::OOB);
    }
    let crc = calc_crc16(out, *len as u8);
    extend(out, len, &crc.to_le_bytes())
}

fn add_lrc(out: &mut [u8], len: &mut usize) -> Result<(), ErrorKind>
    requires { len.old ≤ length out.old }
    ensures { grown_paper result len.new out.new ≡ growth (seal proto.Ascii (response len.old out.old)) }
{
    if 255 < *len {
        return Err(ErrorKind::OOB);
    }
    let lrc = calc_lrc(out, *len as u8)?;
    extend(out, len, &[lrc])
}
