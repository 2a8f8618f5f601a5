//! Questions, borrowed from a message (RFC 1035 section 4.1.2).

ghost use Rattle.std.specs.Prelude.{◌≡◌, ◌++◌, List, ℕ, None, IfOk, IfSome, IsOk};
ghost use Rattle.dns_wire.specs.Decoder.{rest};
ghost use Rattle.dns_wire.specs.Name.{AreLabels};
ghost use Rattle.dns_names.specs.Name.{IsInline};
ghost use Rattle.dns_messages.specs.Sound.{IsSoundQuery};
ghost use Rattle.dns_messages.specs.declared.query.Query.{Query};
ghost use Rattle.dns_message_bytes.specs.view.Request.{question_form, question_of};

use crate::view::plain_name::PlainName;
use dns_messages::Query;
use dns_wire::laws::{class_number_round_trips, type_number_round_trips};
use dns_wire::{BinDecoder, DNSClass, RecordType};
use std::alloc::{AllocError, Global};

/// A question whose name has no compression pointers, borrowed from a message (RFC 1035 section 4.1.2).
#[derive(Drop)]
pub struct QuestionView<'a> {
    /// QNAME: the name that records are wanted for.
    pub name: PlainName<'a>,
    /// QTYPE: the type of the records.
    pub query_type: RecordType,
    /// QCLASS: the class of the records.
    pub query_class: DNSClass,
}

impl<'a> QuestionView<'a> {
    /// Reads a question. Returns `None` if the unread bytes do not begin with one whose name has no compression pointers; the
    /// decoder may then have advanced.
    pub(crate) fn read(decoder: &mut BinDecoder<'a>) -> Option<QuestionView<'a>>
        ensures read { IfSome result (λ question.
            rest decoder.old ≡ question_form (question_of question) ++ rest decoder.new) }
        ensures sound { IfSome result (λ question. IsSoundQuery (question_of question)) }
        ensures labels { IfSome result (λ question. AreLabels question.name.labels) }
        ensures none { result ≡ None → (question : Query) (more : List ℕ)
            → AreLabels question.name.labels
            → rest decoder.old ≡ question_form question ++ more → ⊥ }
        ensures bytes { decoder.new.bytes ≡ decoder.old.bytes }
    {
        type_number_round_trips();
        class_number_round_trips();
        let Some(name) = PlainName::read(decoder) else {
            return None;
        };
        let Ok(query_type) = decoder.read_u16() else {
            return None;
        };
        let Ok(query_class) = decoder.read_u16() else {
            return None;
        };
        Some(QuestionView {
            name,
            query_type: RecordType::from(query_type),
            query_class: DNSClass::from(query_class),
        })
    }

    /// Copies the question. It takes no memory if its name has at most 24 labels of at most 32 bytes in all, which are stored
    /// inline.
    pub fn to_query(&self, alloc: Global) -> Result<Query, AllocError>
        ensures ok { IfOk result (λ query. query ≡ question_of self.now) }
        ensures inline { IsInline self.now.name.labels → IsOk result }
    {
        Ok(Query {
            name: self.name.to_name(alloc)?,
            query_type: self.query_type,
            query_class: self.query_class,
        })
    }
}
