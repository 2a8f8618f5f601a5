//! Opcodes (RFC 1035 section 4.1.1, and later ones of the IANA registry).

ghost use Rattle.std.specs.Prelude.{◌≡◌, Some};
ghost use Rattle.dns_messages.specs.OpCode.{op_of, op_text};

use std::fmt;

/// The kind of a query.
#[derive(Clone, Copy, Debug, PartialEq, Eq)]
pub enum OpCode {
    /// A standard query, 0.
    Query,
    /// A request for the status of a server, 2.
    Status,
    /// A notification that a zone has changed (RFC 1996), 4.
    Notify,
    /// A dynamic update (RFC 2136), 5.
    Update,
    /// Any other opcode, by its number. A header has four bits for it, and encodes the lowest four.
    Unknown(u8),
}

impl OpCode {
    /// Returns the opcode with this number.
    pub fn from_u8(number: u8) -> OpCode
        ensures { result ≡ op_of number }
    {
        match number {
            0 => OpCode::Query,
            2 => OpCode::Status,
            4 => OpCode::Notify,
            5 => OpCode::Update,
            _ => OpCode::Unknown(number),
        }
    }
}

impl From<u8> for OpCode {
    ghost use Rattle.std.specs.Prelude.{◌≡◌};
    ghost use Rattle.dns_messages.specs.OpCode.{op_of};

    ghost from_gives = { λ number code. code ≡ op_of number };

    fn from(number: u8) -> OpCode {
        OpCode::from_u8(number)
    }
}

impl From<OpCode> for u8 {
    ghost use Rattle.std.specs.Prelude.{◌≡◌};
    ghost use Rattle.dns_messages.specs.OpCode.{op_number};

    ghost from_gives = { λ code number. number ≡ op_number code };

    fn from(code: OpCode) -> u8 {
        match code {
            OpCode::Query => 0,
            OpCode::Status => 2,
            OpCode::Notify => 4,
            OpCode::Update => 5,
            OpCode::Unknown(number) => number,
        }
    }
}

impl fmt::Display for OpCode {
    ghost output = { λ code. Some (op_text code) };

    /// Writes the name in capitals, or `OPCODE` and the number if it has none.
    fn fmt<W: fmt::Write>(&self, f: &mut fmt::Formatter<W>) -> fmt::Result {
        match self {
            OpCode::Query => f.write_str("QUERY"),
            OpCode::Status => f.write_str("STATUS"),
            OpCode::Notify => f.write_str("NOTIFY"),
            OpCode::Update => f.write_str("UPDATE"),
            OpCode::Unknown(number) => write!(f, "OPCODE{number}"),
        }
    }
}
