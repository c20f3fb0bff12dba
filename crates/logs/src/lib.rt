// A log of RTU traffic: the front of what is left of it, and by `search` the frames in a record's bytes.
#![tactic(auto)]

pub mod search;

ghost use Rattle.std.specs.Prelude.{◌≡◌, ◌↔◌, IsTrue};
ghost use Rattle.logs.specs.Log.{Marked, peeked};

use octets::word;

// Where the log stands, and what was counted up to there: records, frames, bytes inside frames, and the others.
#[derive(Clone, Copy, Default)]
pub struct Total {
    pub at: u64,
    pub records: u64,
    pub frames: u64,
    pub inside: u64,
    pub other: u64,
}

// Why a log is refused, and where the record at fault begins.
#[derive(Clone, Copy)]
pub enum Fault {
    BadMark(u64),
    BadRecord(u64),
    TooLong,
}

// How many frames stand in a record, and how many of its bytes they take.
#[derive(Clone, Copy, Default)]
pub struct Counted {
    pub frames: usize,
    pub inside: usize,
}

// How many bytes a record may have.
const RECORD_MOST: usize = 4096;

// Whether every byte of the mark that is there is right.
fn marked(log: &[u8]) -> bool
    ensures { IsTrue result ↔ Marked log.now }
{
    (log.is_empty() || log[0] == 0x4d) && (log.len() < 2 || log[1] == 0x42)
}

// What stands at the front of a log of which more may come: a fault, a whole record with so many bytes, or not enough to tell. `at` is the offset of
// the log's first byte that is left.
#[tactic(auto, using(crate::proofs::LogLaws::peek_mark, crate::proofs::LogLaws::peek_few, crate::proofs::LogLaws::peek_large, crate::proofs::LogLaws::peek_cut, crate::proofs::LogLaws::peek_long, crate::proofs::LogLaws::peek_whole))]
pub fn look(at: u64, log: &[u8]) -> Result<Option<usize>, Fault>
    ensures { result ≡ peeked at log.now }
{
    if !marked(log) {
        return Err(Fault::BadMark(at));
    }
    if log.len() < 4 {
        return Ok(None);
    }
    let n = word(log, 2) as usize;
    if RECORD_MOST < n {
        return Err(Fault::BadRecord(at));
    }
    if log.len() < 4 + n {
        return Ok(None);
    }
    if 4294967295 < at || 4294967295 < at + (4 + n as u64) {
        return Err(Fault::TooLong);
    }
    Ok(Some(n))
}
