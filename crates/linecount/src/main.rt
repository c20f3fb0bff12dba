// Counts the frames in a log of RTU traffic, which is read from standard input, and prints the totals or the log's first fault.
#![tactic(auto)]

mod count;
mod index;
mod reading;
mod tables;
mod voice;

fn main(rt: HostRuntime) {
    let tables = tables::Tables::new();
    let mut room = index::Room::new();
    let mut counter = count::Counter::new(&tables, &mut room);
    let outcome = reading::count_log(&rt, &mut counter);
    voice::say(&rt, outcome);
}
