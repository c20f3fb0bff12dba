// A read carried out on one lent table.
ghost use Rattle.std.specs.Prelude.{◌≡◌};
ghost use Rattle.modbus.specs.Paper.{kind_in, paper, told_with};
ghost use Rattle.modbus.specs.Table.{target};
ghost use Rattle.modbus.specs.Storage.{storage};
ghost use Rattle.tables.specs.Calls.{added};
ghost use Rattle.frame.specs.State.{left_paper};
ghost use Rattle.process.specs.Process.{table_read};

use crate::added::add_head;
use crate::cells::data_bytes;
use frame::ModbusFrame;
use modbus::{CellKind, ErrorKind};
use tables::coils::get_coils_as_u8;
use tables::registers::get_holdings_as_u8;

// Cells outside the table are an exception's matter.
pub(crate) fn read(
    frame: &mut ModbusFrame,
    buf: &[u8],
    of: CellKind,
    table: &[u8],
    cells: usize,
    response: &mut [u8],
) -> Result<(), ErrorKind>
    ensures { left_paper result frame.new response.new ≡
        table_read (storage (target (kind_in of))) table.now cells frame.old buf.now response.old }
{
    add_head(frame, buf, data_bytes(of, frame.count), response)?;
    match get_cells(
        of,
        table,
        cells,
        frame.reg,
        frame.count,
        response,
        frame.response_len,
    ) {
        Ok(n) => {
            frame.response_len = n;
            Ok(())
        }
        Err(k) => {
            let ErrorKind::OOBContext = k else {
                return Err(k);
            };
            frame.response_len = frame.response_len.saturating_sub(5);
            frame.error = Some(2);
            Ok(())
        }
    }
}

// Discretes are stored as coils are, inputs as holdings.
fn get_cells(
    of: CellKind,
    table: &[u8],
    cells: usize,
    reg: u16,
    count: u16,
    response: &mut [u8],
    len: usize,
) -> Result<usize, ErrorKind>
    ensures { (paper result, response.new) ≡ told_with response.old
        (added (storage (target (kind_in of))) table.now cells reg count response.old len) }
{
    match of {
        CellKind::Bits => get_coils_as_u8(table, cells, reg, count, response, len),
        CellKind::Words => get_holdings_as_u8(table, cells, reg, count, response, len),
    }
}
