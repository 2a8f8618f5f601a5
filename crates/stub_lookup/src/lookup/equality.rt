//! Equality of lookups.

ghost use Rattle.std.specs.Prelude.{◌≡◌, option_copied};

use super::Lookup;
use dns_messages::{Edns, Message, Record};

impl PartialEq for Lookup {
    ghost use Rattle.std.specs.Cmp.{partial_equiv_from_equiv};
    ghost use Rattle.stub_lookup.specs.LookupEquality.{same_lookup};
    ghost use Rattle.stub_lookup.specs.internal.LookupEquality.{same_lookup-equivalence};

    ghost eq = { same_lookup };

    ghost laws = { partial_equiv_from_equiv same_lookup-equivalence };

    /// Returns `true` if the messages and the deadlines are equal.
    ///
    /// Messages are equal if their headers, their questions, the records of each section in order, their OPT records
    /// and their signatures are. The TTLs of records are not compared (RFC 2136 section 1.1.1).
    fn eq(&self, other: &Lookup) -> bool {
        are_same_messages(&self.message, &other.message) && self.valid_until == other.valid_until
    }
}

impl Eq for Lookup {
    ghost use Rattle.stub_lookup.specs.internal.LookupEquality.{same_lookup-equivalence};

    ghost laws = { same_lookup-equivalence };
}

ghost use Rattle.std.specs.Option.{option_eq};
ghost use Rattle.dns_data.specs.rdata.{same_data};
ghost use Rattle.dns_records.specs.Record.{same_record};
ghost use Rattle.stub_lookup.specs.LookupEquality.{same_edns, same_sections, same_extensions, same_message};

/// Returns `true` if the messages are equal.
fn are_same_messages(first: &Message, second: &Message) -> bool
    ensures { result ≡ same_message first.now second.now }
{
    first.metadata == second.metadata
        && first.queries.as_slice() == second.queries.as_slice()
        && have_same_sections(first, second)
        && have_same_extensions(first, second)
}

/// Returns `true` if the records of each section are equal, in order.
fn have_same_sections(first: &Message, second: &Message) -> bool
    ensures { result ≡ same_sections first.now second.now }
{
    first.answers.as_slice() == second.answers.as_slice()
        && first.authorities.as_slice() == second.authorities.as_slice()
        && first.additionals.as_slice() == second.additionals.as_slice()
}

/// Returns `true` if the OPT records and the signatures are equal.
fn have_same_extensions(first: &Message, second: &Message) -> bool
    ensures { result ≡ same_extensions first.now second.now }
{
    are_same_edns(&first.edns, &second.edns)
        && are_same_signatures(first.signature(), second.signature())
}

/// Returns `true` if there are equal OPT records, or none.
fn are_same_edns(first: &Option<Edns>, second: &Option<Edns>) -> bool
    ensures { result ≡ option_eq same_edns first.now second.now }
{
    match (first, second) {
        (Some(first), Some(second)) => has_same_fields(first, second),
        (None, None) => true,
        _ => false,
    }
}

/// Returns `true` if the OPT records are equal.
fn has_same_fields(first: &Edns, second: &Edns) -> bool
    ensures { result ≡ same_edns first.now second.now }
{
    first.rcode_high() == second.rcode_high()
        && first.version() == second.version()
        && *first.flags() == *second.flags()
        && first.max_payload() == second.max_payload()
        && *first.options() == *second.options()
}

/// Returns `true` if there are equal signatures, or none.
fn are_same_signatures(first: Option<&Record>, second: Option<&Record>) -> bool
    ensures { result ≡ option_eq (same_record same_data) (option_copied first.entry)
        (option_copied second.entry) }
{
    match (first, second) {
        (Some(first), Some(second)) => *first == *second,
        (None, None) => true,
        _ => false,
    }
}
