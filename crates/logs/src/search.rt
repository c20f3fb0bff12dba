// The first frame in the bytes of a record.
ghost use Rattle.std.specs.Prelude.{◌≡◌, ◌↔◌, IsTrue, ◌+◌, ◌-◌, ◌≤◌, length, take, drop};
ghost use Rattle.modbus.specs.Check.{crc};
ghost use Rattle.logs.specs.Search.{first_in, paper, Ends};

use checks::crc_byte;

// Where a frame stands in a record, and how many bytes it has.
#[derive(Clone, Copy)]
pub struct Frame {
    pub start: usize,
    pub len: usize,
}

// The register after the first two bytes from `start` on.
fn opening(record: &[u8], start: usize) -> u32
    requires { start + 4 ≤ length «record».now }
    ensures { result ≡ crc (take 2 (drop start «record».now)) }
{
    crc_byte(crc_byte(0xffff, record[start]), record[start + 1])
}

// Whether the two bytes before `end` are this CRC, low byte first.
fn ends(record: &[u8], end: usize, register: u32) -> bool
    requires { (2 ≤ end) × (end ≤ length «record».now) }
    ensures { IsTrue result ↔ Ends «record».now end register }
{
    record[end - 2] as u32 == register % 256 && record[end - 1] as u32 == register / 256
}

// A frame has at least four bytes. The two loops with the outer left by label are the form in which the search is asked for.
pub fn first_frame(record: &[u8], from: usize) -> Option<Frame>
    ensures { paper result ≡ first_in «record».now from }
{
    let mut found = None;
    'starts: for start in from..record.len().saturating_sub(3) {
        let most = usize::min(256, record.len() - start);
        let mut register = opening(record, start);
        for n in 4..most + 1 {
            if ends(record, start + n, register) {
                found = Some(Frame { start, len: n });
                break 'starts;
            }
            register = crc_byte(register, record[start + n - 2]);
        }
    }
    found
}
