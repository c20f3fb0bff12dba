// Numbers and parts of a record, and lent bytes laid before a call and compared after it. The parts stand one behind
// the other, and so do their lengths, two bytes each; where the two rows begin, each list of records says in its layout.
ghost use Rattle.std.specs.Prelude.{◌≡◌, ◌<◌, ◌↔◌, IsTrue, length, slice_index_or};
ghost use Rattle.records.specs.Parts.{wide_at, eight_at, part_start, length_of, cut_of, part_of, laid_in, counted_in, wanted_at, stood};

use octets::word;

// Numbers of four and of eight bytes, high byte first; what lies outside the record is 0.
pub fn wide(record: &[u8], at: usize) -> usize
    ensures { (result ≡ wide_at «record».now at) × (result < 4294967296) }
{
    if record.len() <= at {
        return 0;
    }
    let high = word(record, at) as usize;
    let low = word(record, at + 2) as usize;
    high * 65536 + low
}

pub fn eight(record: &[u8], at: usize) -> usize
    ensures { result ≡ eight_at «record».now at }
{
    if record.len() <= at {
        return 0;
    }
    wide(record, at) * 4294967296 + wide(record, at + 4)
}

// So many bytes from a place on, uncopied; none where they are not all there.
pub fn cut<'a>(bytes: &'a [u8], from: usize, len: usize) -> &'a [u8]
    ensures { (result.now, result.ref_ptr) ≡ cut_of bytes.entry from len }
{
    if bytes.len() < from {
        return &bytes[0..0];
    }
    if bytes.len() - from < len {
        return &bytes[0..0];
    }
    let to = from + len;
    &bytes[from..to]
}

// Where the parts of a record and their lengths begin, and how many parts there are.
#[derive(Clone, Copy)]
pub struct Layout {
    pub lengths: u16,
    pub parts: u16,
    pub count: u8,
}

impl Layout {
    // Where the part k begins.
    pub fn start_of(self, record: &[u8], k: u8) -> usize
        ensures { result ≡ part_start «record».now self.lengths self.parts k }
    {
        let mut at = self.parts as usize;
        for i in 0..k {
            at += self.len_of(record, i);
        }
        at
    }

    // How many bytes the part k has.
    fn len_of(self, record: &[u8], k: u8) -> usize
        ensures { (result ≡ length_of «record».now self.lengths k) × (result < 65536) }
    {
        word(record, self.lengths as usize + 2 * (k as usize)) as usize
    }

    // Whether the record ends where its parts do.
    pub fn is_whole(self, record: &[u8]) -> bool
        ensures { IsTrue result ↔ (length «record».now ≡ part_start «record».now self.lengths self.parts self.count) }
    {
        record.len() == self.start_of(record, self.count)
    }

    // The part k.
    pub fn part<'a>(self, record: &'a [u8], k: u8) -> &'a [u8]
        ensures { (result.now, result.ref_ptr) ≡ part_of «record».entry self.lengths self.parts k }
    {
        cut(record, self.start_of(record, k), self.len_of(record, k))
    }
}

// The byte i of a buffer that holds `front`, and then the byte `filler` to its end.
pub fn laid(i: usize, front: &[u8], filler: u8) -> u8
    ensures { result ≡ slice_index_or front.now i filler }
{
    front.get(i).copied().unwrap_or(filler)
}

pub fn lay(buffer: &mut [u8], front: &[u8], filler: u8)
    ensures { buffer.new ≡ laid_in buffer.old front.now filler }
{
    for (i, b) in buffer.iter_mut().enumerate() {
        *b = laid(i, front, filler);
    }
}

// Behind the front stand the bytes 5A, 5B and so on, each by its place.
pub fn lay_counted(buffer: &mut [u8], front: &[u8])
    ensures { buffer.new ≡ counted_in buffer.old front.now }
{
    for (i, b) in buffer.iter_mut().enumerate() {
        *b = laid(i, front, ((0x5a + i % 256) % 256) as u8);
    }
}

// The byte i of a buffer as it was laid, except that `after` stands in it from the byte `at` on.
fn wanted(i: usize, front: &[u8], filler: u8, at: usize, after: &[u8]) -> u8
    ensures { result ≡ wanted_at front.now filler at after.now i }
{
    let before = laid(i, front, filler);
    if i < at {
        return before;
    }
    laid(i - at, after, before)
}

// Whether a buffer is as it was laid, except that `after` stands in it from the byte `at` on.
pub fn stands(buffer: &[u8], front: &[u8], filler: u8, at: usize, after: &[u8]) -> bool
    ensures { result ≡ stood buffer.now front.now filler at after.now }
{
    if buffer.len() < at {
        return false;
    }
    if buffer.len() - at < after.len() {
        return false;
    }
    for (i, b) in buffer.iter().enumerate() {
        if *b != wanted(i, front, filler, at, after) {
            return false;
        }
    }
    true
}
