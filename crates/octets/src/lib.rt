// Small total functions on bytes: a byte outside the slice reads as 0, and a byte put outside it changes nothing.
#![tactic(auto)]

ghost use Rattle.std.specs.Prelude.{true, false, ◌≡◌, nat_eq};
ghost use Rattle.std.specs.List.{list_any};
ghost use Rattle.modbus.specs.Bytes.{word_at};
ghost use Rattle.modbus.specs.Step.{choose};
ghost use Rattle.modbus.specs.Unit.{listed?};
ghost use Rattle.octets.specs.Put.{byte_at, put_byte};

pub fn byte(s: &[u8], at: usize) -> u8
    ensures { result ≡ byte_at s.now at }
{
    s.get(at).copied().unwrap_or(0)
}

// The 16-bit number whose high byte stands at `at`.
pub fn word(s: &[u8], at: usize) -> u16
    ensures { result ≡ word_at s.now at }
{
    if s.len() <= at {
        return 0;
    }
    u16::from_be_bytes([byte(s, at), byte(s, at + 1)])
}

// Puts one byte, and says whether there was room for it: there is one way to refuse, so a bool says all.
pub fn put_byte(dst: &mut [u8], at: usize, b: u8) -> bool
    ensures { (result, dst.new) ≡ put_byte dst.old at b }
{
    if at < dst.len() {
        dst[at] = b;
        return true;
    }
    false
}

// Whether the byte stands in the slice.
pub fn contains(s: &[u8], b: u8) -> bool
    ensures { result ≡ choose (listed? b s.now) true false }
{
    stands(s, b)
}

// The library's search, in the list's words.
fn stands(s: &[u8], b: u8) -> bool
    ensures { result ≡ list_any (λ y. nat_eq y b) s.now }
{
    s.contains(&b)
}
