// The totals over a log, record by record.
ghost use Rattle.std.specs.Prelude.{◌≡◌, ◌+◌, ◌≤◌, length, None, Ok, Err, IfOk, IfErr};
ghost use Rattle.logs.specs.Log.{Sound, start, advanced, peeked, report};
ghost use Rattle.linecount.specs.Reading.{Continues, left};

use crate::index::Room;
use crate::tables::Tables;
use logs::{Fault, Total, look};

// Counts a log: the tables of the search, room for its work, and the totals up to where the log stands.
#[derive(Drop)]
pub(crate) struct Counter<'a> {
    tables: &'a Tables,
    room: &'a mut Room,
    pub total: Total,
    ghost sound: { Sound total },
}

impl<'a> Counter<'a> {
    pub(crate) fn new(tables: &'a Tables, room: &'a mut Room) -> Counter<'a>
        ensures { result.total ≡ start }
    {
        Counter {
            tables,
            room,
            total: Total::default(),
        }
    }

    // One record more.
    #[tactic(auto, unfolding(logs::specs::Log::advanced))]
    fn advance(&mut self, record: &[u8])
        requires { (self.old.total.at + (4 + length «record».now) ≤ 4294967295) × (length «record».now ≤ 4096) }
        ensures { self.new.total ≡ advanced self.old.total «record».now }
    {
        let c = self.room.count_record(record, self.tables);
        let n = record.len() as u64;
        let inside = c.inside as u64;
        let t = self.total;
        self.total = Total {
            at: t.at + (n + 4),
            records: t.records + 1,
            frames: t.frames + c.frames as u64,
            inside: t.inside + inside,
            other: t.other + (n - inside),
        };
    }

    // Takes the whole records at the front, up to a fault. Answers how many bytes they take, where what is behind them is not enough to tell.
    #[tactic(auto, using(crate::proofs::ReadingLaws::whole_front))]
    pub(crate) fn count_part(&mut self, log: &[u8]) -> Result<usize, Fault>
        ensures taken { Continues self.old.total log.now self.new.total (left self.old.total self.new.total log.now) × (self.old.total.at ≤ self.new.total.at) × (self.new.total.at ≤ self.old.total.at + length log.now) }
        ensures waits { IfOk result (λ used. (self.new.total.at ≡ self.old.total.at + used) × (peeked self.new.total.at (left self.old.total self.new.total log.now) ≡ Ok None)) }
        ensures refused { IfErr result (λ fault. peeked self.new.total.at (left self.old.total self.new.total log.now) ≡ Err fault) }
    {
        let mut used = 0;
        while let Some(n) = look(self.total.at, &log[used..])? {
            let end = used + 4 + n;
            self.advance(&log[used + 4..end]);
            used = end;
        }
        Ok(used)
    }

    // The log has ended, and this is left of it.
    #[tactic(auto, using(logs::proofs::LogLaws::then_fault))]
    pub(crate) fn finish(&mut self, log: &[u8]) -> Result<Total, Fault>
        ensures { result ≡ report self.old.total log.now }
    {
        if self.count_part(log)? < log.len() {
            return Err(Fault::BadRecord(self.total.at));
        }
        Ok(self.total)
    }
}
