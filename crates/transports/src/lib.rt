// Frames taken apart and put together, by the transport's number: from a frame to the body that it holds, and from a body to the frame
// around it. The transport and the switch for small letters are C's numbers, since these calls answer for each of them (docs/PROMISES.md):
// from 2 on it is TCP.
#![tactic(auto)]

pub mod lines;
pub mod rtu;
pub mod tcp;

ghost use Rattle.std.specs.Prelude.{◌≡◌, length, drop, IfOk, IfErr};
ghost use Rattle.modbus.specs.Step.{stop};
ghost use Rattle.modbus.specs.Paper.{proto_of};
ghost use Rattle.modbus.specs.Frame.{tag_of, start_of};
ghost use Rattle.modbus.specs.Decode.{unwrap, spelled_in, outcome_of};
ghost use Rattle.transports.specs.Opened.{opened, fault_of, Holds, Fronted, source};
ghost use Rattle.transports.specs.Sealed.{sealed};

use lines::{open_ascii, seal_ascii};
use rtu::{open_rtu, seal_rtu};
use tcp::{open_tcp, seal_tcp};

// Why a frame has no body.
#[derive(Clone, Copy)]
pub enum Fault {
    Broken,
    WrongCheck,
}

impl Fault {
    // Document 01's outcome.
    pub fn outcome(self) -> u8
        ensures { result ≡ outcome_of (fault_of self) }
    {
        match self {
            Fault::Broken => 5,
            Fault::WrongCheck => 6,
        }
    }
}

// How many bytes the body of a frame has. An ASCII frame is decoded to `raw`, with digits a-f where `hex` is not 0.
pub fn open(transport: u8, hex: u8, frame: &[u8], raw: &mut [u8; 256]) -> Result<usize, Fault>
    ensures value { result ≡ opened (unwrap (proto_of transport) (spelled_in (proto_of transport) hex frame.now)) }
    ensures fronted { Fronted (unwrap (proto_of transport) (spelled_in (proto_of transport) hex frame.now)) (drop (start_of (proto_of transport)) (source (proto_of transport) frame.now raw.new)) }
    ensures raw_len_unchanged { length raw.new ≡ length raw.old }
{
    match transport {
        0 => open_rtu(frame),
        1 => open_ascii(hex, frame, raw),
        _ => open_tcp(frame),
    }
}

// Where a body starts in its frame, or among the decoded bytes.
pub fn start_of(transport: u8) -> usize
    ensures { result ≡ start_of (proto_of transport) }
{
    if transport < 2 { 0 } else { 6 }
}

// Where the body of a frame stands.
pub fn body_source<'a>(transport: u8, raw: &'a [u8], frame: &'a [u8]) -> &'a [u8]
    ensures { result.now ≡ source (proto_of transport) frame.now raw.now }
{
    if transport == 1 { raw } else { frame }
}

// The body of a frame, where it stands: with the first two bytes of the frame as the tag of TCP it is what the frame holds.
pub fn body_of<'a>(
    transport: u8,
    hex: u8,
    frame: &'a [u8],
    raw: &'a mut [u8; 256],
) -> Result<&'a [u8], Fault>
    ensures ok { IfOk result (λ body. Holds (proto_of transport) frame.now body.now (unwrap (proto_of transport) (spelled_in (proto_of transport) hex frame.now))) }
    ensures err { IfErr result (λ fault. unwrap (proto_of transport) (spelled_in (proto_of transport) hex frame.now) ≡ stop (fault_of fault)) }
{
    let n = open(transport, hex, frame, raw)?;
    let start = start_of(transport);
    let end = start + n;
    let source = body_source(transport, raw, frame);
    Ok(&source[start..end])
}

// Makes the n bytes that stand in the reply from the transport's start on a frame at the front of the reply, and answers its length;
// nothing where there is no room. They stand beside n and not in a slice of their own, since a frame is closed in place (docs/COST.md).
// `high` and `low` are the two bytes of a TCP transaction number.
pub fn seal(transport: u8, high: u8, low: u8, n: u8, reply: &mut [u8]) -> Option<usize>
    ensures { (result, reply.new) ≡ sealed (proto_of transport) (tag_of (proto_of transport) high low) n reply.old }
{
    if 253 < n {
        return None;
    }
    match transport {
        0 => seal_rtu(n, reply),
        1 => seal_ascii(n, reply),
        _ => seal_tcp(high, low, n, reply),
    }
}
