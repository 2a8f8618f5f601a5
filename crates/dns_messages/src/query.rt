//! Questions (RFC 1035 section 4.1.2).

ghost use Rattle.std.specs.Prelude.{◌≡◌, ◌≢◌, ◌<◌, ◌≤◌, ◌+◌, ◌^◌, ◌↔◌, true, [], length, Ok, IfOk, IfErr, IsTrue};
ghost use Rattle.dns_wire.specs.codes.RecordType.{type_of, type_number};
ghost use Rattle.dns_wire.specs.codes.DNSClass.{class_of, class_number};

use dns_names::Name;
use dns_wire::laws::{class_number_round_trips, type_number_round_trips};
use dns_wire::{
    BinDecodable, BinDecoder, BinEncodable, BinEncoder, DNSClass, DecodeError, EncodeError,
    RecordType,
};
use std::alloc::{AllocError, Global};
use std::fmt;

/// A question: a name, a type and a class.
///
/// Questions are equal if their types and classes are, and their names, ignoring ASCII case.
#[derive(Debug, Drop, PartialEq, Eq)]
pub struct Query {
    /// QNAME: the name that records are wanted for.
    pub name: Name,
    /// QTYPE: the type of the records.
    pub query_type: RecordType,
    /// QCLASS: the class of the records.
    pub query_class: DNSClass,
}

impl Query {
    ghost use Rattle.dns_wire.specs.Name.{name_len};
    ghost use Rattle.dns_wire.specs.declared.codes.dns_class.DNSClass.TheVariants.{IN};
    ghost use Rattle.dns_wire.specs.declared.codes.record_type.RecordType.TheVariants.{A};
    ghost use Rattle.dns_messages.specs.Question.{same_question};
    ghost use Rattle.dns_messages.specs.Sound.{IsSoundQuery};
    ghost use Rattle.dns_messages.specs.declared.query.Query.{Query};
    ghost use Rattle.dns_messages.specs.Grammar.{ReadsQuestion, RefusesQuestion};

    /// Creates a question for the addresses of the root: name `.`, type `A`, class `IN`.
    pub fn new(alloc: Global) -> Query
        ensures { result ≡ record {
          name = record { is_fqdn = true; labels = [] };
          query_type = A;
          query_class = IN;
        } }
    {
        Query::query(Name::root(alloc), RecordType::A)
    }

    /// Creates a question of class `IN`.
    pub fn query(name: Name, query_type: RecordType) -> Query
        ensures { result ≡ record { name = name; query_type = query_type; query_class = IN } }
    {
        Query {
            name,
            query_type,
            query_class: DNSClass::IN,
        }
    }

    /// Replaces the name.
    pub fn set_name(&mut self, name: Name)
        ensures { self.new ≡ record self.old { name = name } }
    {
        self.name = name;
    }

    /// Replaces the type.
    pub fn set_query_type(&mut self, query_type: RecordType)
        ensures { self.new ≡ record self.old { query_type = query_type } }
    {
        self.query_type = query_type;
    }

    /// Replaces the class.
    pub fn set_query_class(&mut self, query_class: DNSClass)
        ensures { self.new ≡ record self.old { query_class = query_class } }
    {
        self.query_class = query_class;
    }

    /// Returns the name.
    pub fn name(&self) -> &Name
        ensures { result.now ≡ self.now.name }
    {
        &self.name
    }

    /// Returns the type.
    pub fn query_type(&self) -> RecordType
        ensures { result ≡ self.now.query_type }
    {
        self.query_type
    }

    /// Returns the class.
    pub fn query_class(&self) -> DNSClass
        ensures { result ≡ self.now.query_class }
    {
        self.query_class
    }

    /// Copies the question. It does not fail if the name has at most 24 labels of at most 32 bytes in all, which are stored
    /// inline.
    pub fn clone(&self) -> Result<Query, AllocError>
        ensures ok { IfOk result (λ copy. copy ≡ self.now) }
        ensures inline { length self.now.name.labels ≤ 24
            → name_len self.now.name.labels ≤ length self.now.name.labels + 33
            → result ≡ Ok self.now }
    {
        Ok(Query {
            name: self.name.clone()?,
            query_type: self.query_type,
            query_class: self.query_class,
        })
    }

    /// Reads a question. A failed read may advance the decoder.
    fn read_on(alloc: Global, decoder: &mut BinDecoder<'_>) -> Result<Query, DecodeError>
        ensures read { IfOk result (λ query.
            ReadsQuestion decoder.old.bytes decoder.old.index query decoder.new.index) }
        ensures refused { IfErr result (λ error. error ≢ DecodeError.Memory
            → RefusesQuestion decoder.old.bytes decoder.old.index error) }
        ensures bytes { decoder.new.bytes ≡ decoder.old.bytes }
    {
        type_number_round_trips();
        class_number_round_trips();
        let name = Name::read(alloc, decoder)?;
        let query_type = RecordType::from(u16::read(alloc, decoder)?);
        let query_class = DNSClass::from(u16::read(alloc, decoder)?);
        Ok(Query {
            name,
            query_type,
            query_class,
        })
    }

    /// Returns `true` if the encoded question decodes to itself: its name is fully qualified, and its type and class
    /// are the variants that their numbers decode to.
    pub fn is_sound(&self) -> bool
        ensures sound { IsTrue result → IsSoundQuery self.now }
        ensures only { IsSoundQuery self.now → IsTrue result }
    {
        let has_type = is_named_type(self.query_type);
        let has_class = is_named_class(self.query_class);
        self.name.is_fqdn() && has_type && has_class
    }

    /// Returns `true` if the names have the same labels, ignoring ASCII case, and the types and classes have the same
    /// numbers. Unlike `==`, this ignores whether the names are fully qualified.
    pub fn asks_same(&self, other: &Query) -> bool
        ensures { result ≡ same_question self.now other.now }
    {
        self.name.eq_ignore_root(&other.name)
            && self.query_type == other.query_type
            && self.query_class == other.query_class
    }
}

/// Returns `true` if the type is the variant that its number decodes to.
fn is_named_type(kind: RecordType) -> bool
    ensures named { IsTrue result ↔ (type_of (type_number kind) ≡ kind) }
    ensures fits { type_number kind < 2 ^ 16 }
{
    let _number = u16::from(kind);
    type_number_round_trips();
    match kind {
        RecordType::Unknown(number) => {
            matches!(RecordType::from(number), RecordType::Unknown(_))
        }
        _ => true,
    }
}

/// Returns `true` if the class is the variant that its number decodes to.
fn is_named_class(class: DNSClass) -> bool
    ensures named { IsTrue result ↔ (class_of (class_number class) ≡ class) }
    ensures fits { class_number class < 2 ^ 16 }
{
    let _number = u16::from(class);
    match class {
        DNSClass::OPT(_) => false,
        DNSClass::Unknown(number) => matches!(DNSClass::from(number), DNSClass::Unknown(_)),
        _ => true,
    }
}

impl Clone for Query {
    ghost is_clone = { λ query copy. copy ≡ query };

    fn clone(&self) -> Result<Query, AllocError> {
        Query::clone(self)
    }
}

impl BinDecodable for Query {
    ghost use Rattle.dns_messages.specs.Grammar.{ReadsQuestion, RefusesQuestion};
    ghost use Rattle.dns_messages.specs.internal.Questions.{question_same, question_not_refused};

    ghost decodes = { ReadsQuestion };

    ghost refuses = { RefusesQuestion };

    /// Decodes a question (RFC 1035 section 4.1.2).
    fn read(alloc: Global, decoder: &mut BinDecoder<'_>) -> Result<Query, DecodeError> {
        let mut reader = decoder.clone(decoder.index());
        let query = Query::read_on(alloc, &mut reader)?;
        *decoder = reader;
        Ok(query)
    }

    ghost unambiguous = { question_same };

    ghost not_refused = { question_not_refused };
}

impl BinEncodable for Query {
    ghost use Rattle.dns_messages.specs.Question.{question_pieces};

    ghost pieces = { λ question _. question_pieces question };

    /// Encodes name, type and class. The name is compressed if the encoder compresses names.
    fn emit(&self, encoder: &mut BinEncoder<'_>) -> Result<(), EncodeError> {
        self.name.emit(encoder)?;
        encoder.emit_u16(u16::from(self.query_type))?;
        encoder.emit_u16(u16::from(self.query_class))
    }
}

impl fmt::Display for Query {
    ghost use Rattle.std.specs.Prelude.{Some};
    ghost use Rattle.dns_messages.specs.Question.{question_text};

    ghost output = { λ question. Some (question_text question) };

    /// Writes name, class and type, separated by single spaces, such as `a.t. IN A`.
    fn fmt<W: fmt::Write>(&self, f: &mut fmt::Formatter<W>) -> fmt::Result {
        let Query {
            name,
            query_type,
            query_class,
        } = self;
        write!(f, "{name} {query_class} {query_type}")
    }
}
