// The RTU collector: bytes are offered as the UART brings them, and the quiet signal closes the frame and serves it. Its state is lent bytes: how many
// are held, in two bytes, high first, and then the bytes held.
#![tactic(auto)]

ghost use Rattle.std.specs.Prelude.{◌≡◌, [], ◌+◌, ◌≤◌, length, take, drop};
ghost use Rattle.modbus.specs.Paper.{told_with, paper};
ghost use Rattle.driver.specs.Driven.{lending, resulting, leaving};
ghost use Rattle.collector.specs.Collected.{held_in, offered, rtu_called, quieting, quieted, closed_paper};
ghost use Rattle.collector.specs.Waits.{Waits};

use driver::{Driven, Setup};
use modbus::ErrorKind;
use octets::word;
use response::extend;

// The bytes of a state, and how many of a frame it holds at most: one more than a frame may have.
const STATE: usize = 259;

const MOST: usize = 257;

// Document 01's outcomes without a frame of our own: another transport, and nothing held. Numbers, since C takes `Driven`.
const BAD_SETUP: u8 = 10;

const NOTHING_HELD: u8 = 13;

// How many bytes are held.
fn count_of(state: &[u8]) -> usize
    ensures { (result ≤ 257) × (held_in state.now ≡ take result (drop 2 state.now)) }
{
    if state.len() < STATE {
        return 0;
    }
    let n = word(state, 0) as usize;
    if MOST < n {
        return 0;
    }
    n
}

pub fn offer(state: &mut [u8], bytes: &[u8]) -> Result<usize, ErrorKind>
    ensures { (paper result, state.new) ≡ told_with state.old (offered state.old bytes.now) }
{
    if state.len() < STATE {
        return Err(ErrorKind::OOB);
    }
    let n = count_of(state);
    let more = bytes.len().min(MOST - n);
    let _ = extend(state, n + 2, &bytes[0..more]);
    let count = n + more;
    let [high, low] = (count as u16).to_be_bytes();
    state[0] = high;
    state[1] = low;
    Ok(count)
}

// How many bytes wait to be served, if any.
fn waiting(state: &[u8]) -> Option<usize>
    ensures { Waits state.now result }
{
    if state.len() < STATE {
        return None;
    }
    let n = count_of(state);
    if n == 0 {
        return None;
    }
    Some(n)
}

// Nothing is sent, and no cell written.
fn refused(outcome: u8) -> Driven
    ensures { result ≡ resulting outcome 0 0 [] }
{
    Driven {
        length: 0,
        outcome,
        code: 0,
        table: 0,
        first: 0,
        count: 0,
    }
}

// The transport's number.
const RTU: u8 = 0;

// A whole frame, which is one of RTU or none. The tables are lent one by one, as C lends them (see `driver`).
fn serve(
    setup: Setup,
    list: &[u8],
    coils: &mut [u8],
    discretes: &[u8],
    holdings: &mut [u8],
    inputs: &[u8],
    frame: &[u8],
    reply: &mut [u8],
) -> Driven
    ensures { leaving result reply.new coils.new holdings.new ≡ rtu_called (lending setup list.now
        coils.old discretes.now holdings.old inputs.now frame.now reply.old) }
{
    if setup.transport != RTU {
        return refused(BAD_SETUP);
    }
    driver::drive(
        setup, list, coils, discretes, holdings, inputs, frame, reply,
    )
}

// A quiet signal: what became of the frame that is held, and nothing where none is. What is held is taken apart by `let .. else`, as the
// customer asks.
pub fn quiet(
    setup: Setup,
    list: &[u8],
    coils: &mut [u8],
    discretes: &[u8],
    holdings: &mut [u8],
    inputs: &[u8],
    state: &mut [u8],
    reply: &mut [u8],
) -> Option<Driven>
    ensures { quieting result reply.new coils.new holdings.new state.new ≡ quieted state.old
        (lending setup list.now coils.old discretes.now holdings.old inputs.now [] reply.old) }
{
    let Some(n) = waiting(state) else {
        return None;
    };
    let end = n + 2;
    let driven = serve(
        setup,
        list,
        coils,
        discretes,
        holdings,
        inputs,
        &state[2..end],
        reply,
    );
    state[0] = 0;
    state[1] = 0;
    Some(driven)
}

// The same in numbers.
pub fn outcome_of(closed: Option<Driven>) -> Driven
    ensures { result ≡ closed_paper closed }
{
    closed.unwrap_or(refused(NOTHING_HELD))
}
