// The last stage: a reply's body, which stands at its place in the reply, becomes a frame.
ghost use Rattle.std.specs.Prelude.{◌≡◌, ◌≤◌, length, get_or};
ghost use Rattle.modbus.specs.Paper.{proto_of};
ghost use Rattle.modbus.specs.Frame.{tag_of};
ghost use Rattle.modbus.specs.Setup.{room_for};
ghost use Rattle.driver.specs.Serving.{closing};

use transports::seal;

// A body of `n` bytes; answers the frame's length. Without a body nothing is sent.
pub(crate) fn close(transport: u8, n: usize, frame: &[u8], reply: &mut [u8]) -> usize
    requires { (n ≤ 253) × (room_for (proto_of transport) ≤ length reply.old) × (2 ≤ length frame.now) }
    ensures { (result, reply.new) ≡ closing (proto_of transport) (tag_of (proto_of transport) (get_or frame.now 0 0) (get_or frame.now 1 0)) reply.old n }
{
    if n == 0 {
        return 0;
    }
    seal(transport, frame[0], frame[1], n as u8, reply).unwrap()
}
