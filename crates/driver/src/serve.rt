// The third stage: a verdict is carried out. No other is lent tables, and nothing is left to refuse here: the cells lie inside the tables, so every
// call on them succeeds. The reply's body goes straight to its place in the reply, which starts at `start`.
ghost use Rattle.std.specs.Prelude.{◌≡◌, [], ◌∷◌, ℕ, ◌+◌, ◌*◌, ◌/◌, ◌≤◌, length, take, get_or};
ghost use Rattle.std.proofs.lemmas.List.Edits.{sets};
ghost use Rattle.modbus.specs.Table.{bit, word};
ghost use Rattle.modbus.specs.Request.{tab_of};
ghost use Rattle.modbus.specs.Storage.{Sound, packed, registers, store};
ghost use Rattle.requests.specs.Judged.{spoken};
ghost use Rattle.driver.specs.Driven.{lent_in};
ghost use Rattle.driver.specs.Serving.{Sized, put_at, ReadReady, SaysReady, Ready, telling, result_by, unpacked, read_body, data_of, masked_by, swapped_by, swap_body, saying, echoed, serving, laying, laid};

use crate::Setup;
use crate::tell::{pack, refused, wrote};
use octets::word;
use requests::{Cells, Exchange, Mask, ReadCells, Refusal, Request};
use response::extend;
use tables::coils::{get_coils_as_u8, get_discretes_as_u8, set_coils_from_u8};
use tables::registers::{read_registers, set_holding, set_holdings_from_u8};

// An exception: the function's number with its highest bit set, and a code. All other refusals are silent.
fn say(refusal: Refusal, body: &[u8], reply: &mut [u8], start: usize) -> usize
    requires { SaysReady body.now (spoken refusal) × (start + 3 ≤ length reply.old) }
    ensures { (result, reply.new) ≡ put_at start reply.old (saying body.now (spoken refusal)) }
{
    let Refusal::Exception(code) = refusal else {
        return 0;
    };
    let unit = body[0];
    let function = body[1];
    reply[start] = unit;
    reply[start + 1] = function + 128;
    reply[start + 2] = u8::from(code);
    3
}

// The head of a read's reply: the unit, the function and the byte count. Answers the length of the whole.
fn head(body: &[u8], n: usize, reply: &mut [u8], start: usize) -> usize
    requires { (2 ≤ length body.now) × (n ≤ 250) × (start + 3 ≤ length reply.old) }
    ensures { (result ≡ n + 3) × (reply.new ≡ sets reply.old start (get_or body.now 0 0 ∷ get_or body.now 1 0 ∷ n ∷ [])) }
{
    let unit = body[0];
    let function = body[1];
    reply[start] = unit;
    reply[start + 1] = function;
    reply[start + 2] = n as u8;
    n + 3
}

// The reply to a write: the first bytes of its request. `copy_from_slice` takes a pointer for a number of 64 bits, which it is not on every processor.
fn echo(body: &[u8], n: usize, reply: &mut [u8], start: usize) -> usize
    requires { (n ≤ length body.now) × (start + n ≤ length reply.old) }
    ensures { (result, reply.new) ≡ put_at start reply.old (take n body.now) }
{
    extend(reply, start, &body[..n]).unwrap();
    n
}

// The reply to a read of registers, which stand in `part`.
fn read_words(body: &[u8], count: u16, part: &[u8], reply: &mut [u8], start: usize) -> usize
    requires { (2 ≤ length body.now) × (count ≤ 125) × (length part.now ≡ 2 * count) × (start + 253 ≤ length reply.old) }
    ensures { (result, reply.new) ≡ put_at start reply.old (get_or body.now 0 0 ∷ get_or body.now 1 0 ∷ (2 * count) ∷ part.now) }
{
    let n = head(body, 2 * (count as usize), reply, start);
    extend(reply, start + 3, part).unwrap();
    n
}

fn read<'a>(
    q: ReadCells,
    setup: Setup,
    body: &[u8],
    coils: &[u8],
    discretes: &[u8],
    holdings: &'a [u8],
    inputs: &'a [u8],
    reply: &mut [u8],
    start: usize,
) -> usize
    requires read_ready { ReadReady (lent_in setup coils.now discretes.now holdings.now inputs.now) body.now q × (start + 253 ≤ length reply.old) }
    requires sized { Sized (lent_in setup coils.now discretes.now holdings.now inputs.now) }
    ensures { (result, reply.new) ≡ put_at start reply.old (read_body (lent_in setup coils.now discretes.now holdings.now inputs.now) (tab_of q.function) body.now q.address q.count) }
{
    let at = start + 3;
    // q.function is the same number, but is packed beside the cells: this one the compiler knows in each arm of the judging (docs/COST.md)
    match body[1] {
        1 => {
            let n = head(body, (q.count as usize + 7) / 8, reply, start);
            get_coils_as_u8(coils, setup.coil_cells, q.address, q.count, reply, at).unwrap();
            n
        }
        2 => {
            let n = head(body, (q.count as usize + 7) / 8, reply, start);
            get_discretes_as_u8(
                discretes,
                setup.discrete_cells,
                q.address,
                q.count,
                reply,
                at,
            )
            .unwrap();
            n
        }
        _ => {
            let part = read_registers(
                holdings,
                setup.holding_cells,
                inputs,
                setup.input_cells,
                body[1],
                q.address,
                q.count,
            );
            read_words(body, q.count, part, reply, start)
        }
    }
}

// Coils and registers go by the calls that the crate has for each; a function over both would ask for the kind what its caller knows.
fn write_bits(c: Cells, cells: usize, body: &[u8], coils: &mut [u8])
    requires { (c.address + c.count ≤ cells) × (c.at + (c.count + 7) / 8 ≤ length body.now) × Sound packed coils.old cells }
    ensures { coils.new ≡ store packed coils.old c.address (data_of bit body.now c) }
{
    let at = c.at as usize;
    let end = at + (c.count as usize + 7) / 8;
    set_coils_from_u8(coils, cells, c.address, c.count, &body[at..end]).unwrap();
}

// A single register goes its own way, which costs less.
#[tactic(auto, using(crate::proofs::ReplyLaws::words_told, crate::proofs::ReplyLaws::done_holds))]
fn write_words(c: Cells, cells: usize, body: &[u8], holdings: &mut [u8])
    requires { (c.address + c.count ≤ cells) × (c.at + 2 * c.count ≤ length body.now) × (c.at ≡ 4 → c.count ≡ 1) × Sound registers holdings.old cells }
    ensures { holdings.new ≡ store registers holdings.old c.address (data_of word body.now c) }
{
    let at = c.at as usize;
    if at == 4 {
        set_holding(holdings, cells, c.address, word(body, 4)).unwrap();
        return;
    }
    let end = at + 2 * (c.count as usize);
    set_holdings_from_u8(holdings, cells, c.address, &body[at..end]).unwrap();
}

// A single register changes where its AND mask has zeros, to what the OR mask has there.
fn write_mask(m: Mask, cells: usize, holdings: &mut [u8])
    requires { (m.address + 1 ≤ cells) × Sound registers holdings.old cells }
    ensures { holdings.new ≡ masked_by m holdings.old }
{
    let old = word(holdings, 2 * (m.address as usize));
    let value = (old & m.and_mask) | (m.or_mask & !m.and_mask);
    set_holding(holdings, cells, m.address, value).unwrap();
}

// The write comes first, and the reply is read off what it left.
fn exchange(
    x: Exchange,
    cells: usize,
    body: &[u8],
    holdings: &mut [u8],
    reply: &mut [u8],
    start: usize,
) -> usize
    requires { (x.read_count ≤ 125) × (x.read_address + x.read_count ≤ cells) × (x.write_address + x.write_count ≤ cells) × (11 + 2 * x.write_count ≤ length body.now) × (start + 253 ≤ length reply.old) × Sound registers holdings.old cells }
    ensures { ((result, reply.new) ≡ put_at start reply.old (swap_body x body.now holdings.old)) × (holdings.new ≡ swapped_by x body.now holdings.old) }
{
    let from = 11 + 2 * (x.write_count as usize);
    set_holdings_from_u8(holdings, cells, x.write_address, &body[11..from]).unwrap();
    let at = 2 * (x.read_address as usize);
    let end = at + 2 * (x.read_count as usize);
    read_words(body, x.read_count, &holdings[at..end], reply, start)
}

// A write is done: `n` bytes are echoed, and to a broadcast number nothing is sent.
fn written(broadcast: bool, body: &[u8], n: usize, reply: &mut [u8], start: usize) -> usize
    requires { (n ≤ length body.now) × (start + n ≤ length reply.old) }
    ensures { (result, reply.new) ≡ put_at start reply.old (echoed broadcast n body.now) }
{
    if broadcast {
        return 0;
    }
    echo(body, n, reply, start)
}

// Answers what is told, and the length of the reply's body, 0 where nothing is sent. A write and read tells what it writes.
pub(crate) fn serve(
    v: Result<Request, Refusal>,
    broadcast: bool,
    setup: Setup,
    body: &[u8],
    coils: &mut [u8],
    discretes: &[u8],
    holdings: &mut [u8],
    inputs: &[u8],
    reply: &mut [u8],
    start: usize,
) -> (u64, usize)
    requires ready { Ready (lent_in setup coils.old discretes.now holdings.old inputs.now) body.now v × (start + 253 ≤ length reply.old) }
    requires sized { Sized (lent_in setup coils.old discretes.now holdings.old inputs.now) }
    ensures told { (n : ℕ) → unpacked result.0 n ≡ result_by (telling broadcast v) n }
    ensures laid { laying result.1 reply.new coils.new holdings.new ≡ laid start reply.old
        (serving (lent_in setup coils.old discretes.now holdings.old inputs.now) broadcast body.now v) }
{
    match v {
        Ok(Request::Read(q)) => {
            let n = read(
                q, setup, body, coils, discretes, holdings, inputs, reply, start,
            );
            (0, n)
        }
        Ok(Request::WriteBits(c)) => {
            write_bits(c, setup.coil_cells, body, coils);
            let n = written(broadcast, body, 6, reply, start);
            (wrote(broadcast, 1, c.address, c.count), n)
        }
        Ok(Request::WriteWords(c)) => {
            write_words(c, setup.holding_cells, body, holdings);
            let n = written(broadcast, body, 6, reply, start);
            (wrote(broadcast, 3, c.address, c.count), n)
        }
        Ok(Request::Mask(m)) => {
            write_mask(m, setup.holding_cells, holdings);
            let n = written(broadcast, body, 8, reply, start);
            (wrote(broadcast, 3, m.address, 1), n)
        }
        Ok(Request::Exchange(x)) => {
            let n = exchange(x, setup.holding_cells, body, holdings, reply, start);
            (pack(0, 0, 3, x.write_address, x.write_count), n)
        }
        Err(refusal) => {
            let n = say(refusal, body, reply, start);
            (refused(refusal), n)
        }
    }
}
