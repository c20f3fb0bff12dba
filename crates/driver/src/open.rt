// The first stage, before a frame is opened: whether the setup is good, and whether there is room for the reply.
ghost use Rattle.std.specs.Prelude.{◌≡◌, ◌≤◌, MatchResult, true, false};
ghost use Rattle.modbus.specs.Paper.{proto_of};
ghost use Rattle.modbus.specs.Setup.{room_for};
ghost use Rattle.requests.specs.declared.Refusal.TheVariants.{NoRoom, BadSetup};
ghost use Rattle.driver.specs.Serving.{Few, Long, Good};

use crate::Setup;
use requests::Refusal;

// The tests are asked so that each ends in a branch: whether all are good takes an instruction more for each table (docs/COST.md).

// Whether a table is said to have too many cells.
fn many_cells(setup: Setup) -> bool
    ensures { (result ≡ true → ¬ Few setup) × (result ≡ false → Few setup) }
{
    65536 < setup.coil_cells
        || 65536 < setup.discrete_cells
        || 65536 < setup.holding_cells
        || 65536 < setup.input_cells
}

// Whether a table's slice is too short for its cells.
fn few_bytes(setup: Setup, coils: usize, discretes: usize, holdings: usize, inputs: usize) -> bool
    requires { Few setup }
    ensures { (result ≡ true → ¬ Long setup coils discretes holdings inputs) × (result ≡ false → Long setup coils discretes holdings inputs) }
{
    coils < (setup.coil_cells + 7) / 8
        || discretes < (setup.discrete_cells + 7) / 8
        || holdings < 2 * setup.holding_cells
        || inputs < 2 * setup.input_cells
}

// BadSetup, by these numbers and by slices of these lengths.
pub(crate) fn check_setup(
    setup: Setup,
    coils: usize,
    discretes: usize,
    holdings: usize,
    inputs: usize,
) -> Result<(), Refusal>
    ensures { MatchResult result (λ done. Good setup coils discretes holdings inputs) (λ refusal. (refusal ≡ BadSetup) × (¬ Good setup coils discretes holdings inputs)) }
{
    if 2 < setup.transport || 1 < setup.hex || many_cells(setup) {
        return Err(Refusal::BadSetup);
    }
    if few_bytes(setup, coils, discretes, holdings, inputs) {
        return Err(Refusal::BadSetup);
    }
    Ok(())
}

// NoRoom, by a reply buffer's length. One that serves every transport is asked first.
pub(crate) fn check_room(transport: u8, room: usize) -> Result<(), Refusal>
    ensures { MatchResult result (λ done. room_for (proto_of transport) ≤ room) (λ refusal. (refusal ≡ NoRoom) × (¬ (room_for (proto_of transport) ≤ room))) }
{
    if 511 <= room {
        return Ok(());
    }
    if transport == 1 || room < 260 {
        return Err(Refusal::NoRoom);
    }
    Ok(())
}
