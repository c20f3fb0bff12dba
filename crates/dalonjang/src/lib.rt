// The C library: numbers and byte slices in, numbers out. A slice is a pointer, then a length; include/dalonjang.h says what each call promises.
#![tactic(auto)]

ghost use Rattle.std.specs.Prelude.{◌≡◌, [], length, take};
ghost use Rattle.modbus.specs.Step.{go};
ghost use Rattle.modbus.specs.Check.{crc};
ghost use Rattle.modbus.specs.Request.{masks, swaps};
ghost use Rattle.modbus.specs.Paper.{told_with};
ghost use Rattle.ascii.specs.Reading.{parsed_under, generated_into};
ghost use Rattle.lengths.specs.Guess.{request_body, response_body};
ghost use Rattle.driver.specs.Driven.{lending, leaving, called};
ghost use Rattle.client.specs.Asking.{getting, setting, generated, laid_into, understood, read_into};
ghost use Rattle.collector.specs.Collected.{offered, quieted, left_by};
ghost use Rattle.lengths.specs.Side.{body_of};
ghost use Rattle.dalonjang.specs.Numbered.{guessed};

use client::{ModbusRequest, Reading};
use driver::{Driven, Setup};
use lengths::Side;
use modbus::{Answer, ErrorKind, ModbusProto};

pub fn dalonjang_drive(
    setup: Setup,
    list: &[u8],
    coils: &mut [u8],
    discretes: &[u8],
    holdings: &mut [u8],
    inputs: &[u8],
    frame: &[u8],
    reply: &mut [u8],
) -> Driven
    ensures { leaving result reply.new coils.new holdings.new ≡ called (lending setup list.now
        coils.old discretes.now holdings.old inputs.now frame.now reply.old) }
{
    driver::drive(
        setup, list, coils, discretes, holdings, inputs, frame, reply,
    )
}

pub fn dalonjang_offer(state: &mut [u8], bytes: &[u8]) -> Answer
    ensures { ((result.kind, result.value), state.new) ≡ told_with state.old (offered state.old bytes.now) }
{
    Answer::from(collector::offer(state, bytes))
}

pub fn dalonjang_quiet(
    setup: Setup,
    list: &[u8],
    coils: &mut [u8],
    discretes: &[u8],
    holdings: &mut [u8],
    inputs: &[u8],
    state: &mut [u8],
    reply: &mut [u8],
) -> Driven
    ensures { (leaving result reply.new coils.new holdings.new, state.new) ≡ left_by (quieted state.old
        (lending setup list.now coils.old discretes.now holdings.old inputs.now [] reply.old)) }
{
    collector::outcome_of(collector::quiet(
        setup, list, coils, discretes, holdings, inputs, state, reply,
    ))
}

pub fn dalonjang_parse_ascii_frame(
    data: &[u8],
    data_len: usize,
    frame_buf: &mut [u8],
    frame_pos: u8,
    hex: u8,
) -> Answer
    ensures { ((result.kind, result.value), frame_buf.new) ≡ parsed_under hex «data».now data_len frame_buf.old frame_pos }
{
    Answer::from(ascii::parse_ascii_frame(data, data_len, frame_buf, frame_pos, hex))
}

pub fn dalonjang_generate_ascii_frame(data: &[u8], res: &mut [u8]) -> Answer
    ensures { ((result.kind, result.value), res.new) ≡ generated_into «data».now res.old }
{
    Answer::from(ascii::generate_ascii_frame(data, res))
}

pub fn dalonjang_calc_crc16(frame: &[u8], data_length: u8) -> u16
    ensures { result ≡ crc (take data_length frame.now) }
{
    checks::calc_crc16(frame, data_length)
}

// A request's length, or a response's, by the switch and the transport's number.
fn guess_frame_len(side: Side, frame: &[u8], proto: u8, hex: u8) -> Answer
    ensures { (result.kind, result.value) ≡ guessed hex (body_of side) proto frame.now }
{
    if 1 < hex {
        return Answer::from(ErrorKind::OOB);
    }
    match ModbusProto::try_from(proto) {
        Ok(p) => Answer::from(lengths::guess_frame_len(side, frame, p, hex)),
        Err(e) => Answer::from(e),
    }
}

pub fn dalonjang_guess_request_frame_len(frame: &[u8], proto: u8, hex: u8) -> Answer
    ensures { (result.kind, result.value) ≡ guessed hex request_body proto frame.now }
{
    guess_frame_len(Side::Request, frame, proto, hex)
}

pub fn dalonjang_guess_response_frame_len(buf: &[u8], proto: u8, hex: u8) -> Answer
    ensures { (result.kind, result.value) ≡ guessed hex response_body proto buf.now }
{
    guess_frame_len(Side::Response, buf, proto, hex)
}

pub fn dalonjang_generate_get(
    to: ModbusRequest,
    func: u8,
    reg: u16,
    count: u16,
    request: &mut [u8],
) -> Answer
    ensures { (result, request.new) ≡ laid_into request.old (generated to (getting to.proto func reg count) (length request.old)) }
{
    to.generate_get(func, reg, count, request)
}

pub fn dalonjang_generate_set(
    to: ModbusRequest,
    func: u8,
    reg: u16,
    values: &[u16],
    request: &mut [u8],
) -> Answer
    ensures { (result, request.new) ≡ laid_into request.old (generated to (setting to.proto func reg values.now) (length request.old)) }
{
    to.generate_set(func, reg, values, request)
}

pub fn dalonjang_generate_mask(
    to: ModbusRequest,
    reg: u16,
    and_mask: u16,
    or_mask: u16,
    request: &mut [u8],
) -> Answer
    ensures { (result, request.new) ≡ laid_into request.old (generated to (go (masks reg and_mask or_mask)) (length request.old)) }
{
    to.generate_mask(reg, and_mask, or_mask, request)
}

pub fn dalonjang_generate_set_get(
    to: ModbusRequest,
    reg: u16,
    count: u16,
    write_reg: u16,
    values: &[u16],
    request: &mut [u8],
) -> Answer
    ensures { (result, request.new) ≡ laid_into request.old (generated to (go (swaps reg count write_reg values.now)) (length request.old)) }
{
    to.generate_set_get(reg, count, write_reg, values, request)
}

pub fn dalonjang_parse_response(
    proto: u8,
    request: &[u8],
    response: &[u8],
    values: &mut [u16],
) -> Reading
    ensures { (result, values.new) ≡ read_into values.old (understood proto request.now response.now (length values.old)) }
{
    client::parse_response(proto, request, response, values)
}
