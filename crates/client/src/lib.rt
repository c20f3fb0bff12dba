// The asking side: requests built into a lent buffer, and replies read against the request that was sent. No state is kept between the two: the
// request's own frame says what was asked.
#![tactic(auto)]

mod build;
mod hear;
mod lay;

ghost use Rattle.std.specs.Prelude.{◌≡◌, ℕ, length, IfOk, IfErr};
ghost use Rattle.modbus.specs.Step.{go};
ghost use Rattle.modbus.specs.Request.{masks, swaps};
ghost use Rattle.client.specs.Asking.{declined_by, asker, getting, setting, generated, laid_into, understood, read_into};
ghost use Rattle.client.specs.Hearing.{refusal_of, answer_of, reading_of, values_of, Said, Unsaid};
ghost use Rattle.client.specs.declared.Refusal.TheVariants.{BadRequest, Unopened};

use hear::hear;
use lay::lay;
use modbus::{Answer, CellKind};
use requests::{Request, judge};
use transports::{Fault, body_of};

// Whom to ask, and how: the transaction number (TCP alone), the unit, and the transport's number (0 RTU, 1 ASCII, 2 TCP), as C has it.
#[repr(C)]
#[derive(Clone, Copy)]
pub struct ModbusRequest {
    pub tr_id: u16,
    pub unit_id: u8,
    pub proto: u8,
}

// What a reply says, as C has it: 0 and how many values, 2 and the exception's code, or the number of a refusal.
#[repr(C)]
#[derive(Clone, Copy)]
pub struct Reading {
    pub count: usize,
    pub outcome: u8,
    pub code: u8,
}

// Why nothing is built, or nothing is read.
#[derive(Clone, Copy)]
pub(crate) enum Refusal {
    BadRequest,
    NotMyReply,
    NoRoom,
    Unopened(Fault),
}

impl Refusal {
    // Document 01's outcome, or the asking side's own number.
    fn number(self) -> u8
        ensures { result ≡ declined_by (refusal_of self) }
    {
        match self {
            Refusal::BadRequest => 11,
            Refusal::NotMyReply => 12,
            Refusal::NoRoom => 9,
            Refusal::Unopened(fault) => fault.outcome(),
        }
    }
}

impl From<Fault> for Refusal {
    ghost from_gives = { λ fault refusal. refusal ≡ Unopened fault };

    fn from(fault: Fault) -> Refusal {
        Refusal::Unopened(fault)
    }
}

// What a reply brings: so many values, or an exception's code.
#[derive(Clone, Copy)]
pub(crate) enum Heard {
    Values(usize),
    Exception(u8),
}

// The one place where C is told of a request: its length, or why there is none. `Answer` and `Result` are of other crates, so this is no `From`.
fn answer(built: Result<usize, Refusal>) -> Answer
    ensures { result ≡ answer_of built }
{
    match built {
        Ok(len) => Answer {
            value: len,
            kind: 0,
        },
        Err(refusal) => Answer {
            value: 0,
            kind: refusal.number(),
        },
    }
}

impl From<Result<Heard, Refusal>> for Reading {
    ghost from_gives = { λ heard reading. reading ≡ reading_of heard };

    fn from(heard: Result<Heard, Refusal>) -> Reading {
        let (count, outcome, code) = match heard {
            Ok(Heard::Values(n)) => (n, 0, 0),
            Ok(Heard::Exception(code)) => (0, 2, code),
            Err(refusal) => (0, refusal.number(), 0),
        };
        Reading {
            count,
            outcome,
            code,
        }
    }
}

impl ModbusRequest {
    // The crate's default transaction number is 1.
    pub fn new(unit_id: u8, proto: u8) -> ModbusRequest
        ensures { result ≡ asker 1 unit_id proto }
    {
        ModbusRequest {
            tr_id: 1,
            unit_id,
            proto,
        }
    }

    pub fn new_tcp_udp(unit_id: u8, tr_id: u16) -> ModbusRequest
        ensures { result ≡ asker tr_id unit_id 2 }
    {
        ModbusRequest {
            tr_id,
            unit_id,
            proto: 2,
        }
    }

    // A request that reads `count` cells from `reg` on: functions 1 to 4.
    pub fn generate_get(self, func: u8, reg: u16, count: u16, request: &mut [u8]) -> Answer
        ensures { (result, request.new) ≡ laid_into request.old (generated self (getting self.proto func reg count) (length request.old)) }
    {
        if 4 < func {
            return answer(Err(Refusal::BadRequest));
        }
        let head = self.pair(func, reg, count);
        answer(self.send(&head, &[], request))
    }

    // A request that writes the values from `reg` on: functions 5 and 6 one, 15 and 16 as many as there are.
    pub fn generate_set(self, func: u8, reg: u16, values: &[u16], request: &mut [u8]) -> Answer
        ensures { (result, request.new) ≡ laid_into request.old (generated self (setting self.proto func reg values.now) (length request.old)) }
    {
        answer(self.set(func, reg, values, request))
    }

    // A request that keeps the bits of a holding where the first mask has ones and makes the others the second's: function 22.
    pub fn generate_mask(self, reg: u16, and_mask: u16, or_mask: u16, request: &mut [u8]) -> Answer
        ensures { (result, request.new) ≡ laid_into request.old (generated self (go (masks reg and_mask or_mask)) (length request.old)) }
    {
        let [a, b] = reg.to_be_bytes();
        let [c, d] = and_mask.to_be_bytes();
        let [e, f] = or_mask.to_be_bytes();
        let head = [self.unit_id, 22, a, b, c, d, e, f];
        answer(self.send(&head, &[], request))
    }

    // A request that writes the values from `write_reg` on, and then reads `count` holdings from `reg` on: function 23.
    pub fn generate_set_get(
        self,
        reg: u16,
        count: u16,
        write_reg: u16,
        values: &[u16],
        request: &mut [u8],
    ) -> Answer
        ensures { (result, request.new) ≡ laid_into request.old (generated self (go (swaps reg count write_reg values.now)) (length request.old)) }
    {
        if 121 < values.len() {
            return answer(Err(Refusal::BadRequest));
        }
        let mut data = [0u8; 242];
        lay(CellKind::Words, values, &mut data);
        let n = values.len();
        answer(self.send_both(reg, count, write_reg, n as u16, &data[..2 * n], request))
    }
}

// How many values an answer to a request shows.
fn values_of(asked: Request) -> usize
    ensures { result ≡ values_of asked }
{
    match asked {
        Request::Read(q) => q.count as usize,
        Request::Exchange(x) => x.read_count as usize,
        Request::WriteBits(_) | Request::WriteWords(_) | Request::Mask(_) => 0,
    }
}

// The same of the request that a body says, if it says one.
fn shown_by(sent: &[u8]) -> Result<usize, Refusal>
    ensures ok { (n : ℕ) → IfOk result (λ count. Said n sent.now count) }
    ensures err { (n : ℕ) → IfErr result (λ refusal. (refusal ≡ BadRequest) × Unsaid n sent.now) }
{
    match judge(sent, false, 65536, 65536, 65536, 65536) {
        Ok(asked) => Ok(values_of(asked)),
        Err(_) => Err(Refusal::BadRequest),
    }
}

// A reply read against its request. What the request's body asks decides how.
fn hear_reply(
    proto: u8,
    request: &[u8],
    response: &[u8],
    values: &mut [u16],
) -> Result<Heard, Refusal>
    ensures { (reading_of result, values.new) ≡ read_into values.old (understood proto request.now response.now (length values.old)) }
{
    if 2 < proto {
        return Err(Refusal::BadRequest);
    }
    let mut raw = [0u8; 256];
    let Ok(sent) = body_of(proto, 0, request, &mut raw) else {
        return Err(Refusal::BadRequest);
    };
    let count = shown_by(sent)?;
    hear(proto, count, request, sent, response, values)
}

// Reads a reply against the frame of its request, both strictly: on ASCII they are in capitals. The values of the cells go to the front of
// `values`.
pub fn parse_response(proto: u8, request: &[u8], response: &[u8], values: &mut [u16]) -> Reading
    ensures { (result, values.new) ≡ read_into values.old (understood proto request.now response.now (length values.old)) }
{
    Reading::from(hear_reply(proto, request, response, values))
}
