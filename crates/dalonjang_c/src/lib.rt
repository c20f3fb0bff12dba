// The library's calls as C links them, by the same names and with the same clauses, in a crate of its own, since what C links cannot be built on; include/dalonjang.h says what each call promises. A slice
// is a pointer, then a length.
#![tactic(auto)]

ghost use Rattle.std.specs.Prelude.{◌≡◌, [], length, take};
ghost use Rattle.modbus.specs.Step.{go};
ghost use Rattle.modbus.specs.Check.{crc};
ghost use Rattle.modbus.specs.Request.{masks, swaps};
ghost use Rattle.modbus.specs.Paper.{told_with};
ghost use Rattle.ascii.specs.Reading.{parsed_under, generated_into};
ghost use Rattle.lengths.specs.Guess.{request_body, response_body};
ghost use Rattle.driver.specs.Driven.{lending, leaving, called};
ghost use Rattle.client.specs.Asking.{getting, setting, generated, laid_into, understood, read_into};
ghost use Rattle.collector.specs.Collected.{offered, quieted, left_by};
ghost use Rattle.dalonjang.specs.Numbered.{guessed};

use client::{ModbusRequest, Reading};
use driver::{Driven, Setup};
use modbus::Answer;

#[unsafe(no_mangle)]
pub extern "C" fn dalonjang_drive(
    setup: Setup,
    list: &[u8],
    coils: &mut [u8],
    discretes: &[u8],
    holdings: &mut [u8],
    inputs: &[u8],
    frame: &[u8],
    reply: &mut [u8],
) -> Driven
    ensures { leaving result reply.new coils.new holdings.new ≡ called (lending setup list.now
        coils.old discretes.now holdings.old inputs.now frame.now reply.old) }
{
    dalonjang::dalonjang_drive(
        setup, list, coils, discretes, holdings, inputs, frame, reply,
    )
}

#[unsafe(no_mangle)]
pub extern "C" fn dalonjang_offer(state: &mut [u8], bytes: &[u8]) -> Answer
    ensures { ((result.kind, result.value), state.new) ≡ told_with state.old (offered state.old bytes.now) }
{
    dalonjang::dalonjang_offer(state, bytes)
}

#[unsafe(no_mangle)]
pub extern "C" fn dalonjang_quiet(
    setup: Setup,
    list: &[u8],
    coils: &mut [u8],
    discretes: &[u8],
    holdings: &mut [u8],
    inputs: &[u8],
    state: &mut [u8],
    reply: &mut [u8],
) -> Driven
    ensures { (leaving result reply.new coils.new holdings.new, state.new) ≡ left_by (quieted state.old
        (lending setup list.now coils.old discretes.now holdings.old inputs.now [] reply.old)) }
{
    dalonjang::dalonjang_quiet(
        setup, list, coils, discretes, holdings, inputs, state, reply,
    )
}

#[unsafe(no_mangle)]
pub extern "C" fn dalonjang_parse_ascii_frame(
    data: &[u8],
    data_len: usize,
    frame_buf: &mut [u8],
    frame_pos: u8,
    hex: u8,
) -> Answer
    ensures { ((result.kind, result.value), frame_buf.new) ≡ parsed_under hex «data».now data_len frame_buf.old frame_pos }
{
    dalonjang::dalonjang_parse_ascii_frame(data, data_len, frame_buf, frame_pos, hex)
}

#[unsafe(no_mangle)]
pub extern "C" fn dalonjang_generate_ascii_frame(data: &[u8], res: &mut [u8]) -> Answer
    ensures { ((result.kind, result.value), res.new) ≡ generated_into «data».now res.old }
{
    dalonjang::dalonjang_generate_ascii_frame(data, res)
}

#[unsafe(no_mangle)]
pub extern "C" fn dalonjang_calc_crc16(frame: &[u8], data_length: u8) -> u16
    ensures { result ≡ crc (take data_length frame.now) }
{
    dalonjang::dalonjang_calc_crc16(frame, data_length)
}

#[unsafe(no_mangle)]
pub extern "C" fn dalonjang_guess_request_frame_len(frame: &[u8], proto: u8, hex: u8) -> Answer
    ensures { (result.kind, result.value) ≡ guessed hex request_body proto frame.now }
{
    dalonjang::dalonjang_guess_request_frame_len(frame, proto, hex)
}

#[unsafe(no_mangle)]
pub extern "C" fn dalonjang_guess_response_frame_len(buf: &[u8], proto: u8, hex: u8) -> Answer
    ensures { (result.kind, result.value) ≡ guessed hex response_body proto buf.now }
{
    dalonjang::dalonjang_guess_response_frame_len(buf, proto, hex)
}

#[unsafe(no_mangle)]
pub extern "C" fn dalonjang_generate_get(
    to: ModbusRequest,
    func: u8,
    reg: u16,
    count: u16,
    request: &mut [u8],
) -> Answer
    ensures { (result, request.new) ≡ laid_into request.old (generated to (getting to.proto func reg count) (length request.old)) }
{
    dalonjang::dalonjang_generate_get(to, func, reg, count, request)
}

#[unsafe(no_mangle)]
pub extern "C" fn dalonjang_generate_set(
    to: ModbusRequest,
    func: u8,
    reg: u16,
    values: &[u16],
    request: &mut [u8],
) -> Answer
    ensures { (result, request.new) ≡ laid_into request.old (generated to (setting to.proto func reg values.now) (length request.old)) }
{
    dalonjang::dalonjang_generate_set(to, func, reg, values, request)
}

#[unsafe(no_mangle)]
pub extern "C" fn dalonjang_generate_mask(
    to: ModbusRequest,
    reg: u16,
    and_mask: u16,
    or_mask: u16,
    request: &mut [u8],
) -> Answer
    ensures { (result, request.new) ≡ laid_into request.old (generated to (go (masks reg and_mask or_mask)) (length request.old)) }
{
    dalonjang::dalonjang_generate_mask(to, reg, and_mask, or_mask, request)
}

#[unsafe(no_mangle)]
pub extern "C" fn dalonjang_generate_set_get(
    to: ModbusRequest,
    reg: u16,
    count: u16,
    write_reg: u16,
    values: &[u16],
    request: &mut [u8],
) -> Answer
    ensures { (result, request.new) ≡ laid_into request.old (generated to (go (swaps reg count write_reg values.now)) (length request.old)) }
{
    dalonjang::dalonjang_generate_set_get(to, reg, count, write_reg, values, request)
}

#[unsafe(no_mangle)]
pub extern "C" fn dalonjang_parse_response(
    proto: u8,
    request: &[u8],
    response: &[u8],
    values: &mut [u16],
) -> Reading
    ensures { (result, values.new) ≡ read_into values.old (understood proto request.now response.now (length values.old)) }
{
    dalonjang::dalonjang_parse_response(proto, request, response, values)
}
