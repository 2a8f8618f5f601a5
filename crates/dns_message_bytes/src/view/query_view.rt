//! Questions, borrowed from a message, where their names may be compressed (RFC 1035 section 4.1.2).

ghost use Rattle.std.specs.Prelude.{◌≡◌, IfOk, IfErr};
ghost use Rattle.dns_messages.specs.Grammar.{ReadsQuestion, RefusesQuestion};
ghost use Rattle.dns_messages.specs.declared.query.Query.{Query};

use crate::view::name_view::NameView;
use dns_wire::laws::{class_number_round_trips, type_number_round_trips};
use dns_wire::{BinDecoder, DNSClass, DecodeError, RecordType};

/// A question, borrowed from a message, where its name may be compressed (RFC 1035 section 4.1.2).
#[derive(Drop)]
pub struct QueryView<'a> {
    /// QNAME: the name that records are wanted for.
    pub name: NameView<'a>,
    /// QTYPE: the type of the records.
    pub query_type: RecordType,
    /// QCLASS: the class of the records.
    pub query_class: DNSClass,
}

impl<'a> QueryView<'a> {
    ghost use Rattle.dns_message_bytes.specs.view.QueryView.{IsQueryOf};

    /// Reads a question. A failed read may advance the decoder.
    pub(crate) fn read(decoder: &mut BinDecoder<'a>) -> Result<QueryView<'a>, DecodeError>
        ensures read { IfOk result (λ view. (q : Query)
            × (ReadsQuestion decoder.old.bytes decoder.old.index q decoder.new.index
            × IsQueryOf view q)) }
        ensures refused { IfErr result (λ error.
            RefusesQuestion decoder.old.bytes decoder.old.index error) }
        ensures bytes { decoder.new.bytes ≡ decoder.old.bytes }
    {
        type_number_round_trips();
        class_number_round_trips();
        let name = match NameView::read(decoder) {
            Ok(name) => name,
            Err(error) => return Err(error),
        };
        let Ok(query_type) = decoder.read_u16() else {
            return Err(DecodeError::InsufficientBytes);
        };
        let Ok(query_class) = decoder.read_u16() else {
            return Err(DecodeError::InsufficientBytes);
        };
        Ok(QueryView {
            name,
            query_type: RecordType::from(query_type),
            query_class: DNSClass::from(query_class),
        })
    }
}
