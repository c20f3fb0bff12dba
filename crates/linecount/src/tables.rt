// The tables of the search, which are made once.
ghost use Rattle.std.specs.Prelude.{◌≡◌, ℕ, ◌*◌, ◌/◌, ◌%◌, ◌<◌, length};
ghost use Rattle.modbus.specs.Check.{shifts};
ghost use Rattle.linecount.specs.Sums.{power, Filled, Powers, Openings};

use checks::crc_shift;

fn shifted_four(c: u16) -> u16
    ensures { result ≡ shifts 4 c }
{
    crc_shift(crc_shift(crc_shift(crc_shift(c as u32)))) as u16
}

// What a table holds, entry by entry: each is made of those before it.
trait Entries {
    ghost entry: { ℕ → ℕ };

    fn next(table: &[u16], n: usize) -> u16
        requires { (n < length table.now) × Filled entry table.now n }
        ensures { result ≡ entry n };
}

// Sixteen half bytes, each shifted by four once more than the sixteen before: two rows for each byte of a record.
struct HalfBytes;

impl Entries for HalfBytes {
    ghost entry = { λ j. power (j / 16) (j % 16) };

    #[tactic(auto, using(crate::proofs::TableLaws::power_first, crate::proofs::TableLaws::power_next))]
    fn next(table: &[u16], n: usize) -> u16 {
        if n < 16 {
            return 16 * (n as u16);
        }
        shifted_four(table[n - 16])
    }
}

// The start value, shifted by eight once more for each byte of a record.
struct StartValues;

impl Entries for StartValues {
    ghost entry = { λ k. shifts (8 * k) 0xFFFF };

    #[tactic(auto, using(crate::proofs::TableLaws::opening_first, crate::proofs::TableLaws::opening_next))]
    fn next(table: &[u16], n: usize) -> u16 {
        if n == 0 {
            return 0xFFFF;
        }
        shifted_four(shifted_four(table[n - 1]))
    }
}

// By place, since an entry is made of those before it.
fn fill<T: Entries>(table: &mut [u16])
    ensures { Filled T.entry table.new (length table.new) }
{
    for n in 0..table.len() {
        let x = T::next(table, n);
        table[n] = x;
    }
}

#[derive(Drop)]
pub(crate) struct Tables {
    pub powers: [u16; 131104],
    pub openings: [u16; 4097],
    ghost half_bytes: { Powers powers 131104 },
    ghost start_values: { Openings openings 4097 },
}

impl Tables {
    pub(crate) fn new() -> Tables {
        let mut tables = Tables {
            powers: [0; 131104],
            openings: [0; 4097],
        };
        fill::<HalfBytes>(&mut tables.powers);
        fill::<StartValues>(&mut tables.openings);
        tables
    }
}
