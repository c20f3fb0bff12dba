// One call from request bytes to reply, in four stages: a frame is opened, judged, served and closed. The tables stay parameters, as C lends them: a
// struct that holds them would make each clause one about its fields at the exit (`result.exit`), which is no plainer.
#![tactic(auto)]

mod close;
mod judge;
mod open;
mod serve;
mod tell;

ghost use Rattle.std.specs.Prelude.{◌≡◌, ◌≤◌, length, get_or};
ghost use Rattle.modbus.specs.Paper.{proto_of};
ghost use Rattle.modbus.specs.Frame.{tag_of, start_of};
ghost use Rattle.modbus.specs.Setup.{room_for};
ghost use Rattle.driver.specs.Driven.{lent_in, lending, leaving, called};
ghost use Rattle.requests.specs.Judged.{quiet_by};
ghost use Rattle.transports.specs.Opened.{fault_of};
ghost use Rattle.driver.specs.Serving.{Sized, unpacked, handled, driven_by};

use close::close;
use judge::{judge, listed};
use open::{check_room, check_setup};
use requests::Refusal;
use serve::serve;
use tell::{refused, result};
use transports::{Fault, body_of, start_of};

// The setup's numbers: the transport (0 RTU, 1 ASCII, 2 TCP), our unit number on it, the switch for digits a-f of ASCII frames (0 strict, 1
// lenient), and how many cells each table is said to have, all as C gives them.
#[repr(C)]
#[derive(Clone, Copy)]
pub struct Setup {
    pub transport: u8,
    pub unit: u8,
    pub hex: u8,
    pub coil_cells: usize,
    pub discrete_cells: usize,
    pub holding_cells: usize,
    pub input_cells: usize,
}

// What became of a request: the reply's length, document 01's outcome and code, and the cells that it wrote: their table, by the number of the function
// that reads it, the first, and how many; without a write these are 0. Numbers, since C takes it as it is.
#[repr(C)]
#[derive(Clone, Copy, PartialEq, Eq)]
pub struct Driven {
    pub length: usize,
    pub outcome: u8,
    pub code: u8,
    pub table: u8,
    pub first: u16,
    pub count: u16,
}

// A frame that is opened, to this body: what is told, and the length of the reply; `start` is where a body starts in the transport's frames. One call of
// each stage, which the compiler then writes in place.
fn handle(
    setup: Setup,
    list: &[u8],
    body: &[u8],
    coils: &mut [u8],
    discretes: &[u8],
    holdings: &mut [u8],
    inputs: &[u8],
    frame: &[u8],
    reply: &mut [u8],
    start: usize,
) -> (u64, usize)
    requires in_bounds { (2 ≤ length body.now) × (start ≡ start_of (proto_of setup.transport)) × (room_for (proto_of setup.transport) ≤ length reply.old) × (2 ≤ length frame.now) }
    requires sized { Sized (lent_in setup coils.old discretes.now holdings.old inputs.now) }
    ensures { leaving (unpacked result.0 result.1) reply.new coils.new holdings.new ≡ handled (lending setup list.now
        coils.old discretes.now holdings.old inputs.now frame.now reply.old)
        (tag_of (proto_of setup.transport) (get_or frame.now 0 0) (get_or frame.now 1 0)) body.now }
{
    let broadcast = listed(list, body[0]);
    let verdict = judge(setup, broadcast, body);
    let (told, n) = serve(
        verdict, broadcast, setup, body, coils, discretes, holdings, inputs, reply, start,
    );
    let sent = close(setup.transport, n, frame, reply);
    (told, sent)
}

// Why a frame has no body. Both types are of other crates, so this is no `From`.
fn unopened(fault: Fault) -> Refusal
    ensures { result ≡ quiet_by (fault_of fault) }
{
    match fault {
        Fault::Broken => Refusal::FrameBroken,
        Fault::WrongCheck => Refusal::FrameCheck,
    }
}

// From the setup to the body. What is refused here leaves all that is lent as it was.
fn run(
    setup: Setup,
    list: &[u8],
    coils: &mut [u8],
    discretes: &[u8],
    holdings: &mut [u8],
    inputs: &[u8],
    frame: &[u8],
    reply: &mut [u8],
) -> Result<(u64, usize), Refusal>
    ensures { leaving (driven_by result) reply.new coils.new holdings.new ≡ called (lending setup list.now
        coils.old discretes.now holdings.old inputs.now frame.now reply.old) }
{
    check_setup(
        setup,
        coils.len(),
        discretes.len(),
        holdings.len(),
        inputs.len(),
    )?;
    check_room(setup.transport, reply.len())?;
    let mut raw = [0u8; 256];
    // No `map_err`: it says no more, and the closure's call would stand in every goal behind it.
    let body = match body_of(setup.transport, setup.hex, frame, &mut raw) {
        Ok(body) => body,
        Err(fault) => return Err(unopened(fault)),
    };
    Ok(handle(
        setup,
        list,
        body,
        coils,
        discretes,
        holdings,
        inputs,
        frame,
        reply,
        start_of(setup.transport),
    ))
}

pub fn drive(
    setup: Setup,
    list: &[u8],
    coils: &mut [u8],
    discretes: &[u8],
    holdings: &mut [u8],
    inputs: &[u8],
    frame: &[u8],
    reply: &mut [u8],
) -> Driven
    ensures { leaving result reply.new coils.new holdings.new ≡ called (lending setup list.now
        coils.old discretes.now holdings.old inputs.now frame.now reply.old) }
{
    let driven = run(
        setup, list, coils, discretes, holdings, inputs, frame, reply,
    );
    match driven {
        Ok((told, sent)) => result(told, sent),
        Err(refusal) => result(refused(refusal), 0),
    }
}
