//! Types, classes and codes that are what their numbers decode to.

ghost use Rattle.std.specs.Prelude.{◌≡◌, ◌<◌, ◌^◌, ◌↔◌, IsTrue};
ghost use Rattle.dns_wire.specs.codes.DNSClass.{class_number, class_of};
ghost use Rattle.dns_wire.specs.codes.RecordType.{type_number, type_of};
ghost use Rattle.dns_messages.specs.Header.{code_number, code_of, op_number, op_of};

use dns_messages::{OpCode, ResponseCode};
use dns_wire::laws::{class_number_round_trips, type_number_round_trips};
use dns_wire::{DNSClass, RecordType};

/// Returns `true` if a type is the variant that its number decodes to.
pub(crate) fn is_named_type(kind: RecordType) -> bool
    ensures named { IsTrue result ↔ (type_of (type_number kind) ≡ kind) }
    ensures fits { type_number kind < 2 ^ 16 }
{
    let _number = u16::from(kind);
    type_number_round_trips();
    match kind {
        RecordType::Unknown(number) => {
            matches!(RecordType::from(number), RecordType::Unknown(_))
        }
        _ => true,
    }
}

/// Returns `true` if a class is the variant that its number decodes to.
pub(crate) fn is_named_class(class: DNSClass) -> bool
    ensures named { IsTrue result ↔ (class_of (class_number class) ≡ class) }
    ensures fits { class_number class < 2 ^ 16 }
{
    let _number = u16::from(class);
    class_number_round_trips();
    match class {
        DNSClass::Unknown(number) => matches!(DNSClass::from(number), DNSClass::Unknown(_)),
        DNSClass::OPT(_) => false,
        _ => true,
    }
}

/// Returns `true` if an opcode has four bits, and is the variant that its number decodes to.
pub(crate) fn is_named_op_code(op_code: OpCode) -> bool
    ensures { IsTrue result
        ↔ ((op_number op_code < 16) × (op_of (op_number op_code) ≡ op_code)) }
{
    match op_code {
        OpCode::Unknown(number) => {
            number < 16 && matches!(OpCode::from_u8(number), OpCode::Unknown(_))
        }
        _ => true,
    }
}

/// Returns `true` if a response code has twelve bits, and is the variant that its number decodes to.
pub(crate) fn is_named_code(code: ResponseCode) -> bool
    ensures { IsTrue result
        ↔ ((code_number code < 4096) × (code_of (code_number code) ≡ code)) }
{
    match code {
        ResponseCode::Unknown(number) => {
            number < 4096 && matches!(ResponseCode::from(number), ResponseCode::Unknown(_))
        }
        // Its number, 16, decodes to `BADSIG`.
        ResponseCode::BADVERS => false,
        _ => true,
    }
}

/// A number of 16 bits is less than 2^16.
pub(crate) fn has_16_bits(number: u16)
    ensures { number < 2 ^ 16 }
{
    let _ = number;
}

/// A number of 32 bits is less than 2^32.
pub(crate) fn has_32_bits(number: u32)
    ensures { number < 2 ^ 32 }
{
    let _ = number;
}
