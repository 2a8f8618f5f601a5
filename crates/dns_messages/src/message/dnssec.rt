//! Records of DNSSEC, for those who do not ask for them (RFC 3225 section 3).

ghost use Rattle.std.specs.Prelude.{◌≡◌, filter};
ghost use Rattle.dns_messages.specs.Message.{is_without_dnssec};

use super::Message;
use dns_records::{Record, Sequence};
use dns_wire::RecordType;

impl Message {
    ghost use Rattle.dns_messages.specs.Message.{stripped};

    /// Removes the records of DNSSEC from all sections if `dnssec_ok` is false, except those of the type that the
    /// first question asks for. Does nothing without a question.
    pub fn maybe_strip_dnssec_records(&mut self, dnssec_ok: bool)
        ensures { self.new ≡ stripped dnssec_ok self.old }
    {
        if dnssec_ok {
            return;
        }
        let Some(query) = self.queries.as_slice().first() else {
            return;
        };
        let asked = query.query_type;
        strip_dnssec(&mut self.answers, asked);
        strip_dnssec(&mut self.authorities, asked);
        strip_dnssec(&mut self.additionals, asked);
    }
}

/// Removes the records of DNSSEC, except those of one type.
fn strip_dnssec(records: &mut Sequence<Record>, asked: RecordType)
    ensures { records.new ≡ filter (is_without_dnssec asked) records.old }
{
    records.retain(move |record| is_without_dnssec(record, asked));
}

/// Returns `true` if the record is of a type, or of one that does not belong to DNSSEC.
fn is_without_dnssec(record: &Record, asked: RecordType) -> bool
    ensures { result ≡ is_without_dnssec asked «record».now }
{
    let kind = record.record_type();
    kind == asked || !kind.is_dnssec()
}
