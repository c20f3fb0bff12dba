// The frames of a record by sums. A frame goes from s to e exactly where the register that starts at s with FFFF and the one that starts at e with
// 0 come to the same at the record's end. From there on backwards each sum is one step, the end of the shortest frame is the latest place with the
// sum that it must have, and what is counted behind that end is known. A place is told by how many bytes of the record are left there.
ghost use Rattle.std.specs.Prelude.{◌≡◌, ℕ, ◌+◌, ◌-◌, ◌*◌, ◌/◌, ◌%◌, ◌<◌, ◌≤◌, length, bit_xor, slice_index};
ghost use Rattle.modbus.specs.Step.{choose};
ghost use Rattle.logs.specs.Log.{counted_in};
ghost use Rattle.linecount.specs.Sums.{power, sums, counts, reaches?};

use crate::tables::Tables;
use logs::Counted;

// How many bytes the longest frame has more than the shortest.
const LONGER: usize = 252;

// What the byte b adds to the sum where k bytes are left with it.
fn added(tables: &Tables, k: usize, b: u8) -> u16
    requires { k ≤ 4096 }
    ensures { result ≡ bit_xor (power (2 * k) (b / 16)) (power (2 * k + 1) (b % 16)) }
{
    tables.powers[32 * k + b as usize / 16] ^ tables.powers[32 * k + 16 + b as usize % 16]
}

// The sum at a place, and what is counted from there on: frames and bytes in one number, since a store more for each byte would cost 4 per cent.
#[derive(Clone, Copy)]
pub(crate) struct Place {
    pub sum: u16,
    pub counted: u32,
}

// Room for the work on a record: a place for each number of bytes that may be left, and for each sum the latest place with it.
#[derive(Drop)]
pub(crate) struct Room {
    pub places: [Place; 4097],
    pub nearest: [u16; 65536],
}

impl Room {
    pub(crate) fn new() -> Room {
        Room {
            places: [Place { sum: 0, counted: 0 }; 4097],
            nearest: [0; 65536],
        }
    }

    // What is counted from a start with k bytes left, where `next` is counted from the start behind it: a frame reaches from there to h where its sum
    // is w.
    fn counted(&self, k: usize, h: u16, w: u16, next: u32) -> u32
        requires { (k ≤ 4096) × ((j : ℕ) → j < k → slice_index (counts self.now.places) j ≤ 268439552) }
        ensures { result ≡ choose (reaches? (sums self.now.places) k h w) (slice_index (counts self.now.places) h + (65536 + (k - h))) next }
    {
        let h = h as usize;
        if LONGER < k.wrapping_sub(h + 4) {
            return next;
        }
        let end = &self.places[h];
        if end.sum != w {
            return next;
        }
        end.counted + (65536 + (k - h) as u32)
    }

    pub(crate) fn count_record(&mut self, record: &[u8], tables: &Tables) -> Counted
        requires { length «record».now ≤ 4096 }
        ensures { result ≡ counted_in «record».now }
    {
        let n = record.len();
        if n < 4 {
            return Counted::default();
        }
        // No frame begins where fewer than four bytes are left. By place, as below.
        let mut z = 0u16;
        self.places[0] = Place { sum: 0, counted: 0 };
        for k in 1..4usize {
            z ^= added(tables, k, record[n - k]);
            self.places[k] = Place { sum: z, counted: 0 };
        }
        // Every start from the end on, by its place: each step reads entries of four tables. What `nearest` held before does not matter.
        let mut c = 0u32;
        for k in 4..n + 1 {
            z ^= added(tables, k, record[n - k]);
            self.nearest[self.places[k - 4].sum as usize] = (k - 4) as u16;
            let w = z ^ tables.openings[k];
            c = self.counted(k, self.nearest[w as usize], w, c);
            // Field by field: the whole would write its padding too, an instruction more for each byte.
            let place = &mut self.places[k];
            place.sum = z;
            place.counted = c;
        }
        Counted {
            frames: (c / 65536) as usize,
            inside: (c % 65536) as usize,
        }
    }
}
