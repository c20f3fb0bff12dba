// Tables of registers: two bytes a cell, high byte first.
ghost use Rattle.std.specs.Prelude.{◌≡◌, ◌*◌};
ghost use Rattle.modbus.specs.Paper.{told, told_with, paper, done_paper};
ghost use Rattle.modbus.specs.Storage.{registers, size};
ghost use Rattle.tables.specs.Calls.{got, changed, added, stored_whole, named_in, named};

use crate::size;
use modbus::{CellKind, ErrorKind};

pub fn get_holding(table: &[u8], cells: usize, reg: u16) -> Result<u16, ErrorKind>
    ensures { paper result ≡ told (got registers table.now cells reg) }
{
    let n = reg as usize;
    if size(CellKind::Words, table, cells) <= n {
        return Err(ErrorKind::OOBContext);
    }
    Ok(octets::word(table, 2 * n))
}

pub fn set_holding(table: &mut [u8], cells: usize, reg: u16, value: u16) -> Result<(), ErrorKind>
    ensures { (done_paper result, table.new) ≡ told_with table.old (changed registers table.old cells reg value) }
{
    let n = reg as usize;
    if size(CellKind::Words, table, cells) <= n {
        return Err(ErrorKind::OOBContext);
    }
    let [high, low] = value.to_be_bytes();
    table[2 * n] = high;
    table[2 * n + 1] = low;
    Ok(())
}

// The cells' bytes are the part of the table as it stands, added as one extend.
fn add_part(
    table: &[u8],
    cells: usize,
    reg: u16,
    count: u16,
    response: &mut [u8],
    len: usize,
) -> Result<usize, ErrorKind>
    ensures { (paper result, response.new) ≡ told_with response.old (added registers table.now cells reg count response.old len) }
{
    if response.len() < len {
        return Err(ErrorKind::OOB);
    }
    let first = reg as usize;
    let end = first + count as usize;
    if size(CellKind::Words, table, cells) < end {
        return Err(ErrorKind::OOBContext);
    }
    response::extend(response, len, &table[2 * first..2 * end])
}

pub fn get_holdings_as_u8(
    table: &[u8],
    cells: usize,
    reg: u16,
    count: u16,
    response: &mut [u8],
    len: usize,
) -> Result<usize, ErrorKind>
    ensures { (paper result, response.new) ≡ told_with response.old (added registers table.now cells reg count response.old len) }
{
    add_part(table, cells, reg, count, response, len)
}

// The inputs are laid out as the holdings are, and have a call of their own for C.
pub fn get_inputs_as_u8(
    table: &[u8],
    cells: usize,
    reg: u16,
    count: u16,
    response: &mut [u8],
    len: usize,
) -> Result<usize, ErrorKind>
    ensures { (paper result, response.new) ≡ told_with response.old (added registers table.now cells reg count response.old len) }
{
    add_part(table, cells, reg, count, response, len)
}

pub fn set_holdings_from_u8(
    table: &mut [u8],
    cells: usize,
    reg: u16,
    values: &[u8],
) -> Result<(), ErrorKind>
    ensures { (done_paper result, table.new) ≡ told_with table.old (stored_whole table.old cells reg values.now) }
{
    let first = reg as usize;
    if size(CellKind::Words, table, cells) < first + values.len() / 2 || values.len() % 2 != 0 {
        return Err(ErrorKind::OOBContext);
    }
    let _ = response::extend(&mut table[2 * first..], 0, values);
    Ok(())
}

// The part of one table, and an empty one where the cells lie outside.
fn part_of<'a>(table: &'a [u8], cells: usize, reg: u16, count: u16) -> &'a [u8]
    ensures { (result.now, result.ref_ptr) ≡ named_in table.entry cells reg count }
{
    let first = reg as usize;
    let end = first + count as usize;
    if size(CellKind::Words, table, cells) < end {
        return &table[0..0];
    }
    &table[2 * first..2 * end]
}

// The part of the holdings or of the inputs that a register read names by its function's number, uncopied; else an empty part, as the customer asks.
pub fn read_registers<'a>(
    holdings: &'a [u8],
    holding_cells: usize,
    inputs: &'a [u8],
    input_cells: usize,
    function: u8,
    reg: u16,
    count: u16,
) -> &'a [u8]
    ensures { (result.now, result.ref_ptr) ≡ named holdings.entry holding_cells inputs.entry input_cells function reg count }
{
    match function {
        3 => part_of(holdings, holding_cells, reg, count),
        4 => part_of(inputs, input_cells, reg, count),
        _ => &holdings[0..0],
    }
}
