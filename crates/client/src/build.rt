// Building: a body is laid, asked whether it says a request, and put into its frame.
ghost use Rattle.std.specs.Prelude.{true, false, ◌≡◌, ◌++◌, ℕ, ◌+◌, ◌*◌, ◌≤◌, ◌<◌, ◌∷◌, length, take, drop};
ghost use Rattle.modbus.specs.Step.{choose, ◌≤?◌, ◌and?◌};
ghost use Rattle.modbus.specs.Bytes.{two};
ghost use Rattle.modbus.specs.Request.{code, one, many, most_written};
ghost use Rattle.modbus.specs.Paper.{proto_of, kind_in};
ghost use Rattle.modbus.specs.Frame.{start_of};
ghost use Rattle.requests.specs.Judged.{weighed};
ghost use Rattle.client.specs.Asking.{every_cell, all_fit?, write_by, setting, generated, laid_into};
ghost use Rattle.client.specs.Hearing.{failed, roomed, framed, body_sent, many_body, both_body, answer_of};

use crate::lay::{above_one, lay, octets_of};
use crate::{ModbusRequest, Refusal};
use modbus::CellKind;
use requests::judge;
use response::extend;
use transports::{seal, start_of};

// Whether a body says no request that may be served, whatever the unit.
fn unasked(body: &[u8]) -> bool
    ensures { (n : ℕ) → result ≡ failed (weighed (every_cell n) false body.now) }
{
    judge(body, false, 65536, 65536, 65536, 65536).is_err()
}

// The body, which is the head and then the data, goes to the frame's buffer from `start` on, where the frame is then closed around it. Answers
// its length.
fn lay_parts(head: &[u8], data: &[u8], start: usize, frame: &mut [u8]) -> usize
    requires { start + length head.now + length «data».now ≤ length frame.old }
    ensures { (result ≡ length (head.now ++ «data».now)) × (length frame.new ≡ length frame.old) × (take result (drop start frame.new) ≡ head.now ++ «data».now) }
{
    let behind = start + head.len();
    extend(frame, start, head).unwrap();
    extend(frame, behind, data).unwrap();
    head.len() + data.len()
}

// Whether the values are too many for one write, or some are none of a coil.
fn unfit(kind: CellKind, values: &[u16]) -> bool
    ensures { result ≡ choose ((length values.now ≤? most_written (kind_in kind)) and? all_fit? (kind_in kind) values.now) false true }
{
    match kind {
        CellKind::Bits => 1968 < values.len() || above_one(values),
        CellKind::Words => 123 < values.len(),
    }
}

// The function of a write of many coils or registers.
fn many_number(kind: CellKind) -> u8
    ensures { result ≡ code (many (kind_in kind)) }
{
    match kind {
        CellKind::Bits => 15,
        CellKind::Words => 16,
    }
}

impl ModbusRequest {
    // The body that stands in the frame's buffer from `start` on, in its frame, goes to the request.
    fn close(self, n: usize, frame: &mut [u8], request: &mut [u8]) -> Result<usize, Refusal>
        requires { (n ≤ 253) × (511 ≤ length frame.old) }
        ensures { (answer_of result, request.new) ≡ laid_into request.old (roomed (framed self (take n (drop (start_of (proto_of self.proto)) frame.old))) (length request.old)) }
    {
        let [high, low] = self.tr_id.to_be_bytes();
        let len = seal(self.proto, high, low, n as u8, frame).unwrap();
        if request.len() < len {
            return Err(Refusal::NoRoom);
        }
        extend(request, 0, &frame[..len]).unwrap();
        Ok(len)
    }

    pub(crate) fn send(self, head: &[u8], data: &[u8], request: &mut [u8]) -> Result<usize, Refusal>
        requires { length head.now + length «data».now ≤ 253 }
        ensures { (answer_of result, request.new) ≡ laid_into request.old (body_sent self (head.now ++ «data».now) (length request.old)) }
    {
        if 2 < self.proto {
            return Err(Refusal::BadRequest);
        }
        let mut buffer = [0u8; 511];
        let frame: &mut [u8] = &mut buffer;
        let start = start_of(self.proto);
        let n = lay_parts(head, data, start, frame);
        if unasked(&frame[start..start + n]) {
            return Err(Refusal::BadRequest);
        }
        self.close(n, frame, request)
    }

    // A body of a function and two numbers.
    pub(crate) fn pair(self, func: u8, first: u16, second: u16) -> [u8; 6]
        ensures { result ≡ self.unit_id ∷ func ∷ two first ++ two second }
    {
        let [a, b] = first.to_be_bytes();
        let [c, d] = second.to_be_bytes();
        [self.unit_id, func, a, b, c, d]
    }

    // Functions 5 and 6: one value, a coil's in its high byte.
    fn set_one(
        self,
        kind: CellKind,
        reg: u16,
        values: &[u16],
        request: &mut [u8],
    ) -> Result<usize, Refusal>
        ensures { (answer_of result, request.new) ≡ laid_into request.old (generated self (write_by reg values.now (one (kind_in kind))) (length request.old)) }
    {
        let &[value] = values else {
            return Err(Refusal::BadRequest);
        };
        let head = match kind {
            CellKind::Bits => {
                if 1 < value {
                    return Err(Refusal::BadRequest);
                }
                self.pair(5, reg, 0xFF00 * value)
            }
            CellKind::Words => self.pair(6, reg, value),
        };
        self.send(&head, &[], request)
    }

    // Functions 15 and 16: the count, how many bytes of data, and these.
    fn set_many(
        self,
        kind: CellKind,
        reg: u16,
        values: &[u16],
        request: &mut [u8],
    ) -> Result<usize, Refusal>
        ensures { (answer_of result, request.new) ≡ laid_into request.old (generated self (write_by reg values.now (many (kind_in kind))) (length request.old)) }
    {
        if unfit(kind, values) {
            return Err(Refusal::BadRequest);
        }
        let n = values.len();
        let octets = octets_of(kind, n);
        let mut data = [0u8; 246];
        lay(kind, values, &mut data);
        self.send_many(many_number(kind), reg, n as u16, &data[..octets], request)
    }

    // The data hold the n values.
    fn send_many(
        self,
        func: u8,
        reg: u16,
        n: u16,
        data: &[u8],
        request: &mut [u8],
    ) -> Result<usize, Refusal>
        requires { length «data».now ≤ 246 }
        ensures { (answer_of result, request.new) ≡ laid_into request.old (body_sent self (many_body self func reg n (length «data».now) «data».now) (length request.old)) }
    {
        let [a, b] = reg.to_be_bytes();
        let [c, d] = n.to_be_bytes();
        let head = [self.unit_id, func, a, b, c, d, data.len() as u8];
        self.send(&head, data, request)
    }

    // Functions 5, 6, 15 and 16: the values are written from `reg` on.
    pub(crate) fn set(
        self,
        func: u8,
        reg: u16,
        values: &[u16],
        request: &mut [u8],
    ) -> Result<usize, Refusal>
        ensures { (answer_of result, request.new) ≡ laid_into request.old (generated self (setting self.proto func reg values.now) (length request.old)) }
    {
        match func {
            5 => self.set_one(CellKind::Bits, reg, values, request),
            6 => self.set_one(CellKind::Words, reg, values, request),
            15 => self.set_many(CellKind::Bits, reg, values, request),
            16 => self.set_many(CellKind::Words, reg, values, request),
            _ => Err(Refusal::BadRequest),
        }
    }

    // Function 23: the holdings to read, those to write, and the data, which hold the n values.
    pub(crate) fn send_both(
        self,
        reg: u16,
        count: u16,
        write_reg: u16,
        n: u16,
        data: &[u8],
        request: &mut [u8],
    ) -> Result<usize, Refusal>
        requires { (n ≤ 121) × (2 * n ≡ length «data».now) }
        ensures { (answer_of result, request.new) ≡ laid_into request.old (body_sent self (both_body self reg count write_reg n «data».now) (length request.old)) }
    {
        let [a, b] = reg.to_be_bytes();
        let [c, d] = count.to_be_bytes();
        let [e, f] = write_reg.to_be_bytes();
        let [g, h] = n.to_be_bytes();
        let head = [self.unit_id, 23, a, b, c, d, e, f, g, h, data.len() as u8];
        self.send(&head, data, request)
    }
}
