// The ported calls under names of their own for C, so that the runs beside the Rust reach those that the library keeps to itself.
#![tactic(auto)]

pub mod module4;

ghost use Rattle.std.specs.Prelude.{◌≡◌, take};
ghost use Rattle.modbus.specs.Paper.{told, told_kind, hex_paper};
ghost use Rattle.modbus.specs.Check.{crc};
ghost use Rattle.modbus.specs.Hex.{kinded, character};
ghost use Rattle.checks.specs.Within.{lrc_within};
ghost use Rattle.probe.specs.Packed.{packed};

use modbus::{Answer, Digit};

#[unsafe(no_mangle)]
pub extern "C" fn probe_calc_crc16(frame: &[u8], data_length: u8) -> u16
    ensures { result ≡ crc (take data_length frame.now) }
{
    checks::calc_crc16(frame, data_length)
}

#[unsafe(no_mangle)]
pub extern "C" fn probe_calc_lrc(frame: &[u8], data_length: u8) -> Answer
    ensures { (result.kind, result.value) ≡ told (lrc_within frame.now data_length) }
{
    Answer::from(checks::calc_lrc(frame, data_length))
}

// The digit, and 16 times its kind: 0 a number, 1 a capital, 2 a small letter. This crate alone packs it so: `Told` has no number for it.
fn packed(digit: Digit) -> usize
    ensures { (0, result) ≡ packed (hex_paper (Ok digit)) }
{
    match digit {
        Digit::Number(v) => v as usize,
        Digit::Capital(v) => 16 + v as usize,
        Digit::Small(v) => 32 + v as usize,
    }
}

#[unsafe(no_mangle)]
pub extern "C" fn probe_chr_to_hex(c: u8) -> Answer
    ensures { (result.kind, result.value) ≡ packed (told_kind (kinded c)) }
{
    match checks::chr_to_hex(c) {
        Ok(digit) => Answer {
            value: packed(digit),
            kind: 0,
        },
        Err(k) => Answer::from(k),
    }
}

#[unsafe(no_mangle)]
pub extern "C" fn probe_hex_to_chr(h: u8) -> Answer
    ensures { (result.kind, result.value) ≡ told (character h) }
{
    Answer::from(checks::hex_to_chr(h))
}
