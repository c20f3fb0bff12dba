// How long a frame will be, guessed from its first bytes.
#![tactic(auto)]

ghost use Rattle.std.specs.Prelude.{◌≡◌, List, ℕ, ◌≤◌, length, get_or, take};
ghost use Rattle.modbus.specs.Step.{Step};
ghost use Rattle.modbus.specs.Paper.{told, paper};
ghost use Rattle.modbus.specs.Hex.{spelt};
ghost use Rattle.modbus.specs.Frame.{around};
ghost use Rattle.modbus.specs.declared.ErrorKind.{ErrorKind};
ghost use Rattle.modbus.specs.declared.ModbusProto.TheVariants.{Ascii, TcpUdp};
ghost use Rattle.lengths.specs.Guess.{Many, guess, guess_under, request_body, response_body, in_byte, serial};
ghost use Rattle.lengths.specs.Side.{body_of};

use ascii::parse_text;
use modbus::{ErrorKind, ModbusProto};
use octets::word;

// What a frame is: requests and responses differ only in how the first bytes tell the length of the body. An enum and no closure: a call for
// either side is promised by its name.
#[derive(Clone, Copy)]
pub enum Side {
    Request,
    Response,
}

// The length of the body of a request of 15 or 16, by its byte count.
fn many_body(b: &[u8]) -> Result<usize, ErrorKind>
    requires { Many (get_or b.now 1 0) }
    ensures { paper result ≡ told (request_body b.now) }
{
    if b.len() < 7 {
        return Err(ErrorKind::OOB);
    }
    Ok(7 + b[6] as usize)
}

// The length of a request's body; any function but 15 and 16 is guessed as six bytes.
#[tactic(auto, using(crate::proofs::GuessLaws::request_other))]
fn request_body(b: &[u8]) -> Result<usize, ErrorKind>
    requires { 2 ≤ length b.now }
    ensures { paper result ≡ told (request_body b.now) }
{
    match b[1] {
        15 | 16 => many_body(b),
        _ => Ok(6),
    }
}

// The length of a response's body; from function 128 on it is an exception.
#[tactic(auto, using(crate::proofs::GuessLaws::response_exception, crate::proofs::GuessLaws::response_short, crate::proofs::GuessLaws::response_read, crate::proofs::GuessLaws::response_write, crate::proofs::GuessLaws::response_none))]
fn response_body(b: &[u8]) -> Result<usize, ErrorKind>
    requires { 2 ≤ length b.now }
    ensures { paper result ≡ told (response_body b.now) }
{
    if b[1] >= 0x80 {
        return Ok(3);
    }
    if b.len() < 3 {
        return Err(ErrorKind::OOB);
    }
    match b[1] {
        1..=4 => Ok(3 + b[2] as usize),
        5 | 6 | 15 | 16 => Ok(6),
        _ => Err(ErrorKind::FrameBroken),
    }
}

fn body_len(side: Side, b: &[u8]) -> Result<usize, ErrorKind>
    requires { 2 ≤ length b.now }
    ensures { paper result ≡ told (body_of side b.now) }
{
    match side {
        Side::Request => request_body(b),
        Side::Response => response_body(b),
    }
}

// A length, where a byte holds it.
#[tactic(auto, using(crate::proofs::GuessLaws::byte_fits, crate::proofs::GuessLaws::byte_none))]
fn in_byte(n: usize) -> Result<u8, ErrorKind>
    ensures { paper result ≡ told (in_byte n) }
{
    u8::try_from(n).map_err(|_| ErrorKind::FrameBroken)
}

// The length of the frame around a body of `n` bytes.
fn frame_len(n: usize, proto: ModbusProto) -> Result<u8, ErrorKind>
    requires { n ≤ 65535 }
    ensures { paper result ≡ told (in_byte (around proto n)) }
{
    match proto {
        ModbusProto::Rtu => in_byte(n + 2),
        ModbusProto::Ascii => in_byte(2 * n + 5),
        ModbusProto::TcpUdp => in_byte(n + 6),
    }
}

// The guess from a body's first bytes.
fn serial_len(side: Side, b: &[u8], proto: ModbusProto) -> Result<u8, ErrorKind>
    ensures { paper result ≡ told (serial (body_of side) proto b.now) }
{
    if b.len() < 2 {
        return Err(ErrorKind::OOB);
    }
    frame_len(body_len(side, b)?, proto)
}

// The guess from a TCP header, which holds the length of any body.
fn tcp_len(frame: &[u8]) -> Result<u8, ErrorKind>
    ensures { (body : List ℕ → Step ErrorKind ℕ) → paper result ≡ told (guess body TcpUdp frame.now) }
{
    if frame.len() < 6 {
        return Err(ErrorKind::OOB);
    }
    if word(frame, 2) != 0 {
        return Err(ErrorKind::FrameBroken);
    }
    frame_len(word(frame, 4) as usize, ModbusProto::TcpUdp)
}

// The guess from a line's text. Digits a-f are read where `hex` is not 0.
fn ascii_len(side: Side, text: &[u8], hex: u8) -> Result<u8, ErrorKind>
    ensures { paper result ≡ told (guess (body_of side) Ascii (spelt hex text.now)) }
{
    let mut buf = [0u8; 256];
    let known = parse_text(text, text.len(), &mut buf, 0, hex)?;
    serial_len(side, &buf[..known as usize], ModbusProto::Ascii)
}

// The guess for a side under a switch: 0 strict, 1 lenient.
fn guess_for(side: Side, frame: &[u8], proto: ModbusProto, hex: u8) -> Result<u8, ErrorKind>
    ensures { paper result ≡ told (guess_under hex (body_of side) proto frame.now) }
{
    if 1 < hex {
        return Err(ErrorKind::OOB);
    }
    match proto {
        ModbusProto::Rtu => serial_len(side, frame, ModbusProto::Rtu),
        ModbusProto::Ascii => ascii_len(side, frame, hex),
        ModbusProto::TcpUdp => tcp_len(frame),
    }
}

// How long the request is that these bytes begin.
pub fn guess_request_frame_len(frame: &[u8], proto: ModbusProto, hex: u8) -> Result<u8, ErrorKind>
    ensures { paper result ≡ told (guess_under hex request_body proto frame.now) }
{
    guess_for(Side::Request, frame, proto, hex)
}

// How long the response is that these bytes begin.
pub fn guess_response_frame_len(buf: &[u8], proto: ModbusProto, hex: u8) -> Result<u8, ErrorKind>
    ensures { paper result ≡ told (guess_under hex response_body proto buf.now) }
{
    guess_for(Side::Response, buf, proto, hex)
}

// For whoever has a side: the ported call of that side.
pub fn guess_frame_len(
    side: Side,
    frame: &[u8],
    proto: ModbusProto,
    hex: u8,
) -> Result<u8, ErrorKind>
    ensures { paper result ≡ told (guess_under hex (body_of side) proto frame.now) }
{
    match side {
        Side::Request => guess_request_frame_len(frame, proto, hex),
        Side::Response => guess_response_frame_len(frame, proto, hex),
    }
}
