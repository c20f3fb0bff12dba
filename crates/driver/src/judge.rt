// The second stage: what a body asks of whom, and whether it is to be served. No table is lent here, and the address rule stands nowhere else.
ghost use Rattle.std.specs.Prelude.{true, false, ◌≡◌, ◌≤◌, length, get_or, Err};
ghost use Rattle.modbus.specs.Step.{choose, ◌≟◌, ◌or?◌};
ghost use Rattle.modbus.specs.Setup.{Setup as Station};
ghost use Rattle.modbus.specs.Unit.{listed?};
ghost use Rattle.requests.specs.Judged.{on?, judged};
ghost use Rattle.requests.specs.declared.Refusal.TheVariants.{Foreign};
ghost use Rattle.driver.specs.Serving.{Counted};

use crate::Setup;
use octets::contains;
use requests::{Refusal, Request};

// Whether a unit number is a broadcast number. A list of one is asked most often, and costs less so.
pub(crate) fn listed(list: &[u8], unit: u8) -> bool
    ensures { result ≡ choose (listed? unit list.now) true false }
{
    if list.len() != 1 {
        return contains(list, unit);
    }
    if list[0] != unit {
        return false;
    }
    true
}

pub(crate) fn judge(setup: Setup, broadcast: bool, body: &[u8]) -> Result<Request, Refusal>
    requires { 1 ≤ length body.now }
    ensures { (s : Station) → Counted s setup → result ≡ choose (on? broadcast or? (get_or body.now 0 0 ≟ setup.unit)) (judged s broadcast body.now) (Err Foreign) }
{
    if !broadcast && body[0] != setup.unit {
        return Err(Refusal::Foreign);
    }
    requests::judge(
        body,
        broadcast,
        setup.coil_cells,
        setup.discrete_cells,
        setup.holding_cells,
        setup.input_cells,
    )
}
