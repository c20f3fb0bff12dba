// Tables lent as bytes with a cell number: coils and discretes packed, holdings and inputs two bytes a cell. The calls on either are functions of a
// file each: as one trait, whose ghost members would be the storage, they would be generic bodies and two impls, and the customer's functions beside them.
#![tactic(auto)]

pub mod coils;
pub mod registers;

ghost use Rattle.std.specs.Prelude.{◌≡◌, ◌≤◌, length};
ghost use Rattle.modbus.specs.Paper.{kind_in};
ghost use Rattle.modbus.specs.Request.{octets};
ghost use Rattle.modbus.specs.Storage.{size};
ghost use Rattle.tables.specs.Kept.{kept};

use modbus::CellKind;

// How many cells the table counts as, which its bytes hold.
pub(crate) fn size(kind: CellKind, table: &[u8], cells: usize) -> usize
    ensures value { result ≡ size (kept kind) table.now cells }
    ensures held { octets (kind_in kind) result ≤ length table.now }
    ensures few { result ≤ 65536 }
{
    if cells > 65536 {
        return 0;
    }
    let bytes = match kind {
        CellKind::Bits => (cells + 7) / 8,
        CellKind::Words => 2 * cells,
    };
    if bytes <= table.len() { cells } else { 0 }
}
