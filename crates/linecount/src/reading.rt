// A log as standard input brings it. The bytes of a record that is not whole yet wait at the front of the buffer.
ghost use Rattle.std.specs.Prelude.{◌≡◌, ◌↔◌, ℕ, ◌+◌, ◌-◌, ◌<◌, ◌≤◌, true, false, List, ◌++◌, length, take, drop, Ok, Err, IfOk, IfErr, OnOk, OnErr};
ghost use Rattle.logs.specs.Log.{report};
ghost use Rattle.linecount.specs.Reading.{Continues, Faulty, OnFault};
ghost use Rattle.linecount.specs.declared.reading.Failure.TheVariants.{CannotRead, Refused};

use crate::count::Counter;
use crate::voice::Watch;
use logs::{Fault, Total};
use std::io;
use std::io::{Read, Stdin};

// Why there are no totals.
pub(crate) enum Failure {
    CannotRead,
    Refused(Fault),
}

impl From<io::Error> for Failure {
    ghost from_gives = { λ _ failure. failure ≡ CannotRead };

    fn from(_error: io::Error) -> Failure {
        Failure::CannotRead
    }
}

impl From<Fault> for Failure {
    ghost from_gives = { λ fault failure. failure ≡ Refused fault };

    fn from(fault: Fault) -> Failure {
        Failure::Refused(fault)
    }
}

// The bytes from `used` on, up to `end`, move to the front, and stay where they are if they stand there: a log may come in small pieces.
fn keep(bytes: &mut [u8], used: usize, end: usize)
    requires { (used ≤ end) × (end ≤ length bytes.old) }
    ensures { take (end - used) bytes.new ≡ drop used (take end bytes.old) }
{
    if 0 < used {
        bytes.copy_within(used..end, 0);
    }
}

// Bytes, how many of them wait, and whether the log has ended: there is no heap. What waits is less than a record, so there is always room for a read: a read into none would look like the end of the log.
#[derive(Drop)]
struct Buffer {
    bytes: [u8; 65536],
    have: usize,
    ended: bool,
    ghost less: { have < 4100 },
}

impl Buffer {
    fn new() -> Buffer
        ensures { (result.have ≡ 0) × (result.ended ≡ false) }
    {
        Buffer {
            bytes: [0; 65536],
            have: 0,
            ended: false,
        }
    }

    fn waiting(&self) -> &[u8]
        ensures { result.now ≡ take self.now.have self.now.bytes }
    {
        &self.bytes[..self.have]
    }

    // Behind what waits stand n bytes more. The whole records among them are counted, and the rest waits.
    #[tactic(auto, using(crate::proofs::ReadingLaws::fault_settles))]
    fn take_in(&mut self, n: usize, counter: &mut Counter) -> Result<(), Fault>
        requires { self.old.have + n ≤ 65536 }
        ensures continues { IfOk result (λ _. Continues counter.old.total (take (self.old.have + n) self.old.bytes) counter.new.total (take self.new.have self.new.bytes)) }
        ensures settled { IfErr result (λ fault. Faulty counter.old.total (take (self.old.have + n) self.old.bytes) fault) }
        ensures kept { IfErr result (λ _. self.new ≡ self.old) }
        ensures moves { IfOk result (λ _. counter.new.total.at + self.new.have ≡ counter.old.total.at + (self.old.have + n)) }
    {
        let end = self.have + n;
        let used = counter.count_part(&self.bytes[..end])?;
        keep(&mut self.bytes, used, end);
        self.have = end - used;
        Ok(())
    }

    // One read more. Answers how many bytes it brought: none at the end of the log.
    #[tactic(auto, using(crate::proofs::ReadingLaws::read_refused))]
    fn turn(&mut self, input: &mut Stdin, counter: &mut Counter) -> Result<usize, Failure>
        ensures moves { IfOk result (λ n. counter.new.total.at + self.new.have ≡ counter.old.total.at + (self.old.have + n)) }
        ensures continues { IfOk result (λ n. (more : List ℕ) × (length more ≡ n) × Continues counter.old.total (take self.old.have self.old.bytes ++ more) counter.new.total (take self.new.have self.new.bytes)) }
        ensures refused { IfErr result (OnFault (λ fault. (more : List ℕ) × (length more ≤ 65536) × Faulty counter.old.total (take self.old.have self.old.bytes ++ more) fault)) }
        ensures ends { IfOk result (λ n. self.new.ended ≡ true ↔ n ≡ 0) }
        ensures open { OnErr result (self.new.ended ≡ self.old.ended) }
    {
        let n = input.read(&mut self.bytes[self.have..])?;
        self.take_in(n, counter)?;
        self.ended = n == 0;
        Ok(n)
    }
}

// How many turns there may be. A proved loop has to end, and nothing says that the input does: every turn but the last reads a byte or more, and not
// more than 4,294,971,394 bytes are taken in before a log is refused as too long.
const TURNS: u64 = 4294971395;

// Reads until the log ends.
fn read_log(
    rt: &HostRuntime,
    buffer: &mut Buffer,
    counter: &mut Counter,
    watch: &mut Option<Watch>,
) -> Result<(), Failure>
    ensures ended { OnOk result (buffer.new.ended ≡ true) }
    ensures continues { OnOk result ((more : List ℕ) × Continues counter.old.total (take buffer.old.have buffer.old.bytes ++ more) counter.new.total (take buffer.new.have buffer.new.bytes)) }
    ensures refused { IfErr result (OnFault (λ fault. (more : List ℕ) × Faulty counter.old.total (take buffer.old.have buffer.old.bytes ++ more) fault)) }
{
    let mut input = rt.stdin();
    for _turn in 0..TURNS {
        let turn = buffer.turn(&mut input, counter);
        if let Some(w) = watch {
            w.tell(rt, counter.total);
        }
        if turn? == 0 {
            return Ok(());
        }
    }
    unreachable!()
}

// Counts the log on standard input.
pub(crate) fn count_log(rt: &HostRuntime, counter: &mut Counter) -> Result<Total, Failure>
    ensures counted { IfOk result (λ total. (log : List ℕ) × (report counter.old.total log ≡ Ok total)) }
    ensures refused { IfErr result (OnFault (λ fault. (log : List ℕ) × (report counter.old.total log ≡ Err fault))) }
{
    let mut buffer = Buffer::new();
    let mut watch = Watch::begin(rt);
    let all = read_log(rt, &mut buffer, counter, &mut watch);
    if let Some(w) = watch {
        w.end(rt);
    }
    all?;
    Ok(counter.finish(buffer.waiting())?)
}
