// What a verdict comes to: outcome, code and the cells that it writes. These are known before it is carried out. They go past the stages in one
// number, of which the result is made at the end: as six fields they would be copied from stage to stage (docs/COST.md).
ghost use Rattle.std.specs.Prelude.{◌≡◌, ℕ};
ghost use Rattle.requests.specs.Judged.{refusal_paper};
ghost use Rattle.driver.specs.Driven.{making};
ghost use Rattle.driver.specs.Serving.{done_by, unpacked};

use crate::Driven;
use requests::Refusal;

// As the second half of the record has them, lowest byte first: outcome, code, table, a byte of 0, the first cell in two, how many in two.
pub(crate) fn pack(outcome: u8, code: u8, table: u8, first: u16, count: u16) -> u64
    ensures { (n : ℕ) → unpacked result n ≡ making n outcome code table first count }
{
    let low = outcome as u64 + 256 * (code as u64) + 65536 * (table as u64);
    low + 4294967296 * (first as u64) + 281474976710656 * (count as u64)
}

// A write, to a broadcast number or to our own. A table has the number of the function that reads it.
pub(crate) fn wrote(broadcast: bool, table: u8, first: u16, count: u16) -> u64
    ensures { (n : ℕ) → unpacked result n ≡ making n (done_by broadcast) 0 table first count }
{
    if broadcast {
        return pack(1, 0, table, first, count);
    }
    pack(0, 0, table, first, count)
}

// What is not served, by document 01's outcomes and codes.
pub(crate) fn refused(refusal: Refusal) -> u64
    ensures { (n : ℕ) → unpacked result n ≡ making n (refusal_paper refusal).0 (refusal_paper refusal).2 0 0 0 }
{
    match refusal {
        Refusal::Exception(code) => pack(2, u8::from(code), 0, 0, 0),
        Refusal::Ignored(code) => pack(3, u8::from(code), 0, 0, 0),
        Refusal::ReadIgnored => 3,
        Refusal::Foreign => 4,
        Refusal::FrameBroken => 5,
        Refusal::FrameCheck => 6,
        Refusal::WrongLength => 7,
        Refusal::BadFunction => 8,
        Refusal::NoRoom => 9,
        Refusal::BadSetup => 10,
    }
}

// The one place where a result is made.
pub(crate) fn result(told: u64, length: usize) -> Driven
    ensures { result ≡ unpacked told length }
{
    Driven {
        length,
        outcome: (told % 256) as u8,
        code: (told / 256 % 256) as u8,
        table: (told / 65536 % 256) as u8,
        first: (told / 4294967296 % 65536) as u16,
        count: (told / 281474976710656) as u16,
    }
}
