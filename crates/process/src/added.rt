// What is added to the response of a state.
ghost use Rattle.std.specs.Prelude.{◌≡◌};
ghost use Rattle.outgoing.specs.Grow.{growth, head};
ghost use Rattle.frame.specs.State.{left_paper};
ghost use Rattle.process.specs.Process.{response_of, adding, write_echoed};

use frame::ModbusFrame;
use modbus::ErrorKind;

// A read's response up to its data, which are so many bytes.
pub fn add_head(
    frame: &mut ModbusFrame,
    buf: &[u8],
    bytes: u16,
    response: &mut [u8],
) -> Result<(), ErrorKind>
    ensures { left_paper result frame.new response.new ≡ adding frame.old
        (growth (head frame.old.proto buf.now frame.old.frame_start bytes (response_of frame.old response.old))) }
{
    outgoing::head(
        frame.proto,
        buf,
        frame.frame_start,
        bytes,
        response,
        &mut frame.response_len,
    )
}

// A write's response.
pub fn add_echo(frame: &mut ModbusFrame, buf: &[u8], response: &mut [u8]) -> Result<(), ErrorKind>
    ensures { left_paper result frame.new response.new ≡ write_echoed frame.old buf.now response.old }
{
    outgoing::echo(
        frame.proto,
        buf,
        frame.frame_start,
        response,
        &mut frame.response_len,
    )
}
