// Reading: the reply's frame is opened, and its body held against the body of the request.
ghost use Rattle.std.specs.Prelude.{true, false, ◌≡◌, List, ℕ, ◌≤◌, length, get_or, Some, None};
ghost use Rattle.modbus.specs.Step.{choose, same?};
ghost use Rattle.modbus.specs.Request.{code, Ask, fn_of};
ghost use Rattle.modbus.specs.Paper.{proto_of, kind_in};
ghost use Rattle.modbus.specs.Frame.{tag_of};
ghost use Rattle.client.specs.Asking.{kind_shown, excepts?, brings?, answered, replied, read_into};
ghost use Rattle.client.specs.Hearing.{message_in, echoed, Showing, Asks, heard_from, reading_of};

use crate::lay::{octets_of, spread};
use crate::{Heard, Refusal};
use modbus::CellKind;
use transports::body_of;

// The code of an exception to this function: three bytes, and a code other than 0.
fn exception(function: u8, body: &[u8]) -> Option<u8>
    ensures { (a : Ask) → function ≡ code (fn_of a) → result ≡ choose (excepts? a body.now) (Some (get_or body.now 2 0)) None }
{
    if body.len() != 3 || body[1] as usize != function as usize + 128 || body[2] == 0 {
        return None;
    }
    Some(body[2])
}

// How many bytes of a write the answer repeats.
fn echo_length(function: u8) -> usize
    ensures { (a : Ask) → function ≡ code (fn_of a) → result ≡ echoed a }
{
    match function {
        22 => 8,
        _ => 6,
    }
}

// Whether the body has the head and the length of an answer to a read whose cells take n bytes.
fn brings(function: u8, n: usize, body: &[u8]) -> bool
    requires { n ≤ 250 }
    ensures { result ≡ choose (brings? function n body.now) true false }
{
    body.len() == n + 3 && body[1] == function && body[2] as usize == n
}

// What the cells are that an answer to this function brings.
fn shown_kind(function: u8) -> CellKind
    ensures { (a : Ask) (count : ℕ) → Showing a function count → kind_shown a ≡ kind_in result }
{
    if function < 3 {
        CellKind::Bits
    } else {
        CellKind::Words
    }
}

// An answer that brings so many cells.
fn show(function: u8, count: usize, body: &[u8], values: &mut [u16]) -> Result<Heard, Refusal>
    requires { ((a : Ask) × Showing a function count) × (count ≤ length values.old) }
    ensures { (a : Ask) (sent : List ℕ) → Showing a function count → (reading_of result, values.new) ≡ read_into values.old (answered a sent body.now) }
{
    let kind = shown_kind(function);
    if !brings(function, octets_of(kind, count), body) {
        return Err(Refusal::NotMyReply);
    }
    spread(kind, &body[3..], count, values);
    Ok(Heard::Values(count))
}

// The body of a reply in the right frame; the answer to a request that reads nothing is an echo.
fn weigh(count: usize, sent: &[u8], body: &[u8], values: &mut [u16]) -> Result<Heard, Refusal>
    requires { ((a : Ask) × Asks a count sent.now) × (2 ≤ length body.now) × (count ≤ length values.old) }
    ensures { (a : Ask) → Asks a count sent.now → (reading_of result, values.new) ≡ read_into values.old (heard_from a sent.now body.now) }
{
    if body[0] != sent[0] {
        return Err(Refusal::NotMyReply);
    }
    if let Some(code) = exception(sent[1], body) {
        return Ok(Heard::Exception(code));
    }
    if 0 < count {
        return show(sent[1], count, body, values);
    }
    if body != &sent[..echo_length(sent[1])] {
        return Err(Refusal::NotMyReply);
    }
    Ok(Heard::Values(0))
}

// Whether a TCP reply has another transaction number than its request.
fn other_tag(proto: u8, request: &[u8], response: &[u8]) -> bool
    requires { (2 ≤ length request.now) × (2 ≤ length response.now) }
    ensures { result ≡ choose (same? (tag_of (proto_of proto) (get_or response.now 0 0) (get_or response.now 1 0)) (tag_of (proto_of proto) (get_or request.now 0 0) (get_or request.now 1 0))) false true }
{
    2 <= proto && request[..2] != response[..2]
}

// A reply to the request whose body is `sent`, to which an answer shows so many values.
pub(crate) fn hear(
    proto: u8,
    count: usize,
    request: &[u8],
    sent: &[u8],
    response: &[u8],
    values: &mut [u16],
) -> Result<Heard, Refusal>
    requires { ((a : Ask) × Asks a count sent.now) × (2 ≤ length request.now) }
    ensures { (a : Ask) → Asks a count sent.now → (reading_of result, values.new) ≡ read_into values.old (replied proto (message_in proto request.now sent.now) a response.now (length values.old)) }
{
    if values.len() < count {
        return Err(Refusal::NoRoom);
    }
    let mut raw = [0u8; 256];
    let body = body_of(proto, 0, response, &mut raw)?;
    if other_tag(proto, request, response) {
        return Err(Refusal::NotMyReply);
    }
    weigh(count, sent, body, values)
}
