// The bounded response and the lent tables, for the runs beside the Rust.
ghost use Rattle.std.specs.Prelude.{◌≡◌, [], ◌∷◌};
ghost use Rattle.modbus.specs.Paper.{told, told_with, digit_of};
ghost use Rattle.modbus.specs.Storage.{packed, registers};
ghost use Rattle.response.specs.Bounded.{extended, resized, cut};
ghost use Rattle.tables.specs.Calls.{got, changed, added, stored, stored_whole};

use modbus::Answer;

#[unsafe(no_mangle)]
pub extern "C" fn probe_push(response: &mut [u8], len: usize, value: u8) -> Answer
    ensures { ((result.kind, result.value), response.new) ≡ told_with response.old (extended response.old len (value ∷ [])) }
{
    Answer::from(response::push(response, len, value))
}

#[unsafe(no_mangle)]
pub extern "C" fn probe_extend(response: &mut [u8], len: usize, other: &[u8]) -> Answer
    ensures { ((result.kind, result.value), response.new) ≡ told_with response.old (extended response.old len other.now) }
{
    Answer::from(response::extend(response, len, other))
}

#[unsafe(no_mangle)]
pub extern "C" fn probe_resize(response: &mut [u8], len: usize, new_len: usize, value: u8) -> Answer
    ensures { ((result.kind, result.value), response.new) ≡ told_with response.old (resized response.old len new_len value) }
{
    Answer::from(response::resize(response, len, new_len, value))
}

#[unsafe(no_mangle)]
pub extern "C" fn probe_cut_end(response: &[u8], len: usize, n: usize) -> Answer
    ensures { (result.kind, result.value) ≡ told (cut response.now len n) }
{
    Answer::from(response::cut_end(response, len, n))
}

#[unsafe(no_mangle)]
pub extern "C" fn probe_clear(response: &[u8], len: usize) -> Answer
    ensures { (result.kind, result.value) ≡ told (cut response.now len len) }
{
    Answer::from(response::clear(response, len))
}

#[unsafe(no_mangle)]
pub extern "C" fn probe_get_coil(table: &[u8], cells: usize, reg: u16) -> Answer
    ensures { (result.kind, result.value) ≡ told (got packed table.now cells reg) }
{
    Answer::from(tables::coils::get_coil(table, cells, reg))
}

#[unsafe(no_mangle)]
pub extern "C" fn probe_set_coil(table: &mut [u8], cells: usize, reg: u16, value: bool) -> Answer
    ensures { ((result.kind, result.value), table.new) ≡ told_with table.old (changed packed table.old cells reg (digit_of value)) }
{
    Answer::from(tables::coils::set_coil(table, cells, reg, value))
}

#[unsafe(no_mangle)]
pub extern "C" fn probe_get_holding(table: &[u8], cells: usize, reg: u16) -> Answer
    ensures { (result.kind, result.value) ≡ told (got registers table.now cells reg) }
{
    Answer::from(tables::registers::get_holding(table, cells, reg))
}

#[unsafe(no_mangle)]
pub extern "C" fn probe_set_holding(table: &mut [u8], cells: usize, reg: u16, value: u16) -> Answer
    ensures { ((result.kind, result.value), table.new) ≡ told_with table.old (changed registers table.old cells reg value) }
{
    Answer::from(tables::registers::set_holding(table, cells, reg, value))
}

#[unsafe(no_mangle)]
pub extern "C" fn probe_get_coils_as_u8(
    table: &[u8],
    cells: usize,
    reg: u16,
    count: u16,
    response: &mut [u8],
    len: usize,
) -> Answer
    ensures { ((result.kind, result.value), response.new) ≡ told_with response.old (added packed table.now cells reg count response.old len) }
{
    Answer::from(tables::coils::get_coils_as_u8(table, cells, reg, count, response, len))
}

#[unsafe(no_mangle)]
pub extern "C" fn probe_get_discretes_as_u8(
    table: &[u8],
    cells: usize,
    reg: u16,
    count: u16,
    response: &mut [u8],
    len: usize,
) -> Answer
    ensures { ((result.kind, result.value), response.new) ≡ told_with response.old (added packed table.now cells reg count response.old len) }
{
    Answer::from(tables::coils::get_discretes_as_u8(table, cells, reg, count, response, len))
}

#[unsafe(no_mangle)]
pub extern "C" fn probe_get_holdings_as_u8(
    table: &[u8],
    cells: usize,
    reg: u16,
    count: u16,
    response: &mut [u8],
    len: usize,
) -> Answer
    ensures { ((result.kind, result.value), response.new) ≡ told_with response.old (added registers table.now cells reg count response.old len) }
{
    Answer::from(tables::registers::get_holdings_as_u8(table, cells, reg, count, response, len))
}

#[unsafe(no_mangle)]
pub extern "C" fn probe_get_inputs_as_u8(
    table: &[u8],
    cells: usize,
    reg: u16,
    count: u16,
    response: &mut [u8],
    len: usize,
) -> Answer
    ensures { ((result.kind, result.value), response.new) ≡ told_with response.old (added registers table.now cells reg count response.old len) }
{
    Answer::from(tables::registers::get_inputs_as_u8(table, cells, reg, count, response, len))
}

#[unsafe(no_mangle)]
pub extern "C" fn probe_set_coils_from_u8(
    table: &mut [u8],
    cells: usize,
    reg: u16,
    count: u16,
    values: &[u8],
) -> Answer
    ensures { ((result.kind, result.value), table.new) ≡ told_with table.old (stored packed table.old cells reg count values.now) }
{
    Answer::from(tables::coils::set_coils_from_u8(table, cells, reg, count, values))
}

#[unsafe(no_mangle)]
pub extern "C" fn probe_set_holdings_from_u8(
    table: &mut [u8],
    cells: usize,
    reg: u16,
    values: &[u8],
) -> Answer
    ensures { ((result.kind, result.value), table.new) ≡ told_with table.old (stored_whole table.old cells reg values.now) }
{
    Answer::from(tables::registers::set_holdings_from_u8(table, cells, reg, values))
}
