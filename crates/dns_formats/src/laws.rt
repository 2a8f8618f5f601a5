//! Theorems about the definitions of this crate, as functions with empty bodies.

ghost use Rattle.std.specs.Prelude.{◌≡◌, ◌<◌, ◌^◌, ℕ, List, true, false, Some, length};
ghost use Rattle.dns_wire.specs.codes.RecordType.{type_number};
ghost use Rattle.dns_wire.specs.declared.codes.record_type.RecordType.{RecordType};
ghost use Rattle.dns_names.specs.Print.{AreOctets};
ghost use Rattle.dns_text.specs.Lexer.{LexerState};
ghost use Rattle.dns_formats.specs.Field.{fields_of};
ghost use Rattle.dns_formats.specs.Wire.{fits};
ghost use Rattle.dns_formats.specs.Print.{generic_text, format_text};
ghost use Rattle.dns_formats.specs.ReadBack.{AreDataOf, IsReadAs};
ghost use Rattle.dns_formats.specs.declared.field.Field.{Field};

/// The text of data lexes to tokens that are read as the bytes of the data: in the form of its type, if the bytes are the
/// values of the type's fields, and in the generic form, if they are that or the type has no fields.
pub fn text_is_read_back()
    ensures format { (record_type : RecordType) (fields : List Field) (bytes : List ℕ)
        (p : LexerState) → fields_of (type_number record_type) ≡ Some fields
        → fits fields bytes ≡ true → AreOctets bytes → length bytes < 2 ^ 16
        → p.is_open ≡ false → p.text ≡ format_text (Some fields) bytes
        → IsReadAs (type_number record_type) p bytes }
    ensures generic { (record_type : RecordType) (bytes : List ℕ) (p : LexerState)
        → AreDataOf (fields_of (type_number record_type)) bytes
        → AreOctets bytes → length bytes < 2 ^ 16
        → p.is_open ≡ false → p.text ≡ generic_text bytes
        → IsReadAs (type_number record_type) p bytes }
{}
