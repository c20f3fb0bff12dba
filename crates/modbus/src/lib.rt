// The types that every crate shares: why a call is refused, the transports, and how C takes an answer. Their numbers in document 01 are in
// specs/Paper.
#![tactic(auto)]

ghost use Rattle.std.specs.Prelude.{◌≡◌, ℕ};
ghost use Rattle.modbus.specs.Step.{stop};
ghost use Rattle.modbus.specs.Paper.{number, told, digit_of, paper_by, bad_transport, proto_paper, proto_asked};

// Why a ported call is refused: the crate's kinds, as far as they are kept.
#[derive(Clone, Copy, PartialEq, Eq)]
pub enum ErrorKind {
    OOB,
    OOBContext,
    FrameBroken,
    FrameCRCError,
    IllegalDataValue,
    ReadCallOnWriteFrame,
    WriteCallOnReadFrame,
}

impl From<ErrorKind> for u8 {
    ghost from_gives = { λ kind n. n ≡ number kind };

    fn from(kind: ErrorKind) -> u8 {
        match kind {
            ErrorKind::OOB => 21,
            ErrorKind::OOBContext => 22,
            ErrorKind::FrameBroken => 23,
            ErrorKind::FrameCRCError => 24,
            ErrorKind::IllegalDataValue => 25,
            ErrorKind::ReadCallOnWriteFrame => 26,
            ErrorKind::WriteCallOnReadFrame => 27,
        }
    }
}

#[derive(Clone, Copy, PartialEq, Eq)]
pub enum ModbusProto {
    Rtu,
    Ascii,
    TcpUdp,
}

// Document 01's BadSetup: a number that is no transport's.
#[derive(Clone, Copy, PartialEq, Eq)]
pub struct BadSetup;

// The transport of a number, as the firmware gives it.
impl TryFrom<u8> for ModbusProto {
    type Error = BadSetup;

    ghost try_from_gives = { λ number known. proto_paper known ≡ proto_asked number };

    fn try_from(number: u8) -> Result<ModbusProto, BadSetup> {
        match number {
            0 => Ok(ModbusProto::Rtu),
            1 => Ok(ModbusProto::Ascii),
            2 => Ok(ModbusProto::TcpUdp),
            _ => Err(BadSetup),
        }
    }
}

// What cells are: bits, as coils and discretes, or words, as registers.
#[derive(Clone, Copy, PartialEq, Eq)]
pub enum CellKind {
    Bits,
    Words,
}

// A hexadecimal digit by the kind of its character: 0-9, A-F or a-f.
#[derive(Clone, Copy, PartialEq, Eq)]
pub enum Digit {
    Number(u8),
    Capital(u8),
    Small(u8),
}

// What a call answers where it is not refused, as the number that C takes.
pub trait Told {
    ghost told: { Self → ℕ };

    fn told(self) -> usize
        ensures { result ≡ told self };
}

impl Told for u8 {
    ghost told = { λ n. n };

    fn told(self) -> usize {
        self as usize
    }
}

impl Told for u16 {
    ghost told = { λ n. n };

    fn told(self) -> usize {
        self as usize
    }
}

impl Told for usize {
    ghost told = { λ n. n };

    fn told(self) -> usize {
        self
    }
}

impl Told for bool {
    ghost told = { digit_of };

    fn told(self) -> usize {
        if self { 1 } else { 0 }
    }
}

// A call that only changes what it was lent has no value.
impl Told for () {
    ghost told = { λ done. 0 };

    fn told(self) -> usize {
        0
    }
}

// An answer as C takes it: the kind is 0 where the value holds, else the refusal's number, with the value 0.
#[repr(C)]
#[derive(Clone, Copy)]
pub struct Answer {
    pub value: usize,
    pub kind: u8,
}

impl From<ErrorKind> for Answer {
    ghost from_gives = { λ kind answer. (answer.kind, answer.value) ≡ told (stop kind) };

    fn from(kind: ErrorKind) -> Answer {
        Answer {
            value: 0,
            kind: u8::from(kind),
        }
    }
}

impl From<BadSetup> for Answer {
    ghost from_gives = { λ refused answer. (answer.kind, answer.value) ≡ bad_transport };

    fn from(_refused: BadSetup) -> Answer {
        Answer { value: 0, kind: 10 }
    }
}

impl<T: Told> From<Result<T, ErrorKind>> for Answer {
    ghost from_gives = { λ called answer. (answer.kind, answer.value) ≡ paper_by T.told called };

    fn from(called: Result<T, ErrorKind>) -> Answer {
        match called {
            Ok(v) => Answer {
                value: v.told(),
                kind: 0,
            },
            Err(k) => Answer::from(k),
        }
    }
}
