// The parts of a record of modules 5 to 7. The head of calls.rt says what stands where.
use records::parts::Layout;

pub(crate) const LAYOUT: Layout = Layout {
    lengths: 62,
    parts: 84,
    count: 11,
};

// The part k.
pub(crate) fn part(record: &[u8], k: u8) -> &[u8] {
    LAYOUT.part(record, k)
}
