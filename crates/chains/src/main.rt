// Replays calls of the frame (modules 5 to 7), single ones and those of whole chains, with what the crate answered and
// left. They are read from standard input, one record a line in hexadecimal digits, as the head of calls.rt says. The
// list beside this program is a sample; bin/frame-runs hands it longer ones.
#![tactic(auto)]

mod calls;
mod fields;
mod said;
mod state;

use records::Program;

// Room for the lent response and the tables of every record.
#[derive(Drop)]
struct Chains {
    lent: [u8; 4096],
    bits: [u8; calls::BITS],
    words: [u8; calls::WORDS],
}

impl Program for Chains {
    fn agrees(&mut self, record: &[u8]) -> bool {
        calls::agrees(record, &mut self.bits, &mut self.words, &mut self.lent)
    }
}

// No list has so many records.
const MOST: u32 = 1000000000;

fn main(rt: HostRuntime) {
    let mut chains = Chains {
        lent: [0; 4096],
        bits: [0; calls::BITS],
        words: [0; calls::WORDS],
    };
    let tally = records::run(rt.stdin(), rt.stdout(), MOST, &mut chains);
    records::report(
        rt.stdout(),
        tally,
        b"calls of the frame replayed: ",
        b"calls that differ: ",
    );
}
