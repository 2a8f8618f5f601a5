//! Encoding the parts of a message under a limit (RFC 1035 section 4.2.1, RFC 2181 section 9).

ghost use Rattle.std.specs.Prelude.{◌≡◌, ◌+◌, ◌||◌, ◌≤◌, ◌<◌, ◌^◌, ◌==◌, [], ◌∷◌, length, nat_lt, not, if◌then◌else◌, true, false, IfOk, IfErr, IsOk, OnOk, OnErr, Err, Option};
ghost use Rattle.std.specs.Borrow.{Bor};
ghost use Rattle.dns_wire.specs.Encoder.{state_of, IsAtEnd, CanRollBack};
ghost use Rattle.dns_wire.specs.Place.{place_start};
ghost use Rattle.dns_wire.specs.Items.{all_pieces, fitting_items, fitting_pieces, append_fitting};
ghost use Rattle.dns_wire.specs.Encodable.{Plain, position_of, reach, append_pieces, AllBehind, AreWritable};
ghost use Rattle.dns_messages.specs.Cut.{query_item, record_item, edns_item, listed, with_code, header_end, twelve_zeros, front_reach, cut, cut_form, is_shorter, IsFresh};
ghost use Rattle.dns_messages.specs.Emit.{extended, lent, message_of, header_at, signature_state, section_count, section_counts, SectionsAreWritable, some_is_cut, header_code};
ghost use Rattle.dns_messages.specs.Grammar.{ReadsMessage};
ghost use Rattle.dns_messages.specs.Sound.{IsSound};

use crate::edns::Edns;
use crate::emit_and_count::EmitAndCount;
use crate::emit_edns::ExtendedEdns;
use crate::header::{Header, HeaderCounts, Metadata};
use crate::query::Query;
use crate::response_code::ResponseCode;
use dns_records::Record;
use dns_wire::{BinEncoder, EncodeError, Place, emit_if_fits};

/// How many items of a section were written, and whether some were not.
#[derive(Clone, Copy, Drop)]
pub(crate) struct SectionCount {
    count: usize,
    is_cut: bool,
}

/// The counts of the sections after the questions. An OPT record and a signature are sections of one record.
#[derive(Clone, Copy, Drop)]
pub(crate) struct SectionCounts {
    answers: SectionCount,
    authorities: SectionCount,
    additionals: SectionCount,
    edns: SectionCount,
    signature: SectionCount,
}

/// What precedes the records: the place of the header, and how many questions were written.
#[derive(Drop)]
struct Front {
    place: Place<Header>,
    queries: usize,
}

/// Leaves a place for the header, and writes the questions, which must fit.
fn emit_front<Q: EmitAndCount<Item = Query>>(
    queries: &mut Q,
    encoder: &mut BinEncoder<'_>,
) -> Result<Front, EncodeError>
    requires fresh { IsFresh (state_of encoder.old) }
    ensures start { IfOk result (λ front. place_start front.place ≡ 0) }
    ensures count { IfOk result (λ front. front.queries ≡ length (Q.items queries.old)) }
    ensures wrote { OnOk result (state_of encoder.new ≡ append_pieces (state_of encoder.old)
        (Plain twelve_zeros ∷ all_pieces query_item header_end (Q.items queries.old))) }
    ensures writable { OnOk result
        (AreWritable (all_pieces query_item header_end (Q.items queries.old))) }
    ensures room { OnOk result (reach (position_of (state_of encoder.old))
        (Plain twelve_zeros ∷ all_pieces query_item header_end (Q.items queries.old))
        ≤ (state_of encoder.old).limit) }
    ensures full { result ≡ Err EncodeError.MaxBufferSizeExceeded
        → (state_of encoder.old).limit < reach (position_of (state_of encoder.old))
        (Plain twelve_zeros ∷ all_pieces query_item header_end (Q.items queries.old)) }
    ensures decided { (state_of encoder.old).limit < 12
        → result ≡ Err EncodeError.MaxBufferSizeExceeded }
    ensures back { OnErr result (CanRollBack (state_of encoder.old) (state_of encoder.new)) }
    ensures lender { (state_of encoder.new).lender ≡ (state_of encoder.old).lender }
{
    let place: Place<Header> = encoder.place()?;
    let len = queries.len();
    let count = queries.emit(encoder)?;
    if count < len {
        return Err(EncodeError::MaxBufferSizeExceeded);
    }
    Ok(Front {
        place,
        queries: count,
    })
}

/// Writes the records of a section that fit.
fn emit_section<S: EmitAndCount<Item = Record>>(
    records: &mut S,
    encoder: &mut BinEncoder<'_>,
) -> Result<SectionCount, EncodeError>
    requires at_end { IsAtEnd (state_of encoder.old) }
    requires behind { AllBehind (position_of (state_of encoder.old)) }
    ensures count { IfOk result
        (λ k. k ≡ section_count record_item (state_of encoder.old) (S.items records.old)) }
    ensures wrote { IsOk result → state_of encoder.new
        ≡ append_fitting record_item (state_of encoder.old) (S.items records.old) }
    ensures writable { IsOk result → AreWritable
        (fitting_pieces record_item (state_of encoder.old) (S.items records.old)) }
    ensures at_end { IsOk result → IsAtEnd (state_of encoder.new) }
    ensures behind { IsOk result → AllBehind (position_of (state_of encoder.new)) }
    ensures memory { IfErr result (λ error. error ≡ EncodeError.Memory) }
    ensures back { OnErr result (CanRollBack (state_of encoder.old) (state_of encoder.new)) }
    ensures lender { (state_of encoder.new).lender ≡ (state_of encoder.old).lender }
{
    let len = records.len();
    let count = records.emit(encoder)?;
    Ok(SectionCount {
        count,
        is_cut: count < len,
    })
}

/// Writes an OPT record with the upper eight bits of the response code, if there is one and it fits.
fn emit_edns(
    edns: Option<&Edns>,
    code: ResponseCode,
    encoder: &mut BinEncoder<'_>,
) -> Result<SectionCount, EncodeError>
    requires at_end { IsAtEnd (state_of encoder.old) }
    requires behind { AllBehind (position_of (state_of encoder.old)) }
    ensures count { IfOk result (λ k. k ≡ section_count edns_item (state_of encoder.old)
        (listed (extended code (lent edns.entry)))) }
    ensures wrote { IsOk result → state_of encoder.new
        ≡ append_fitting edns_item (state_of encoder.old)
        (listed (extended code (lent edns.entry))) }
    ensures writable { IsOk result → AreWritable
        (fitting_pieces edns_item (state_of encoder.old)
        (listed (extended code (lent edns.entry)))) }
    ensures at_end { IsOk result → IsAtEnd (state_of encoder.new) }
    ensures behind { IsOk result → AllBehind (position_of (state_of encoder.new)) }
    ensures memory { IfErr result (λ error. error ≡ EncodeError.Memory) }
    ensures back { OnErr result (CanRollBack (state_of encoder.old) (state_of encoder.new)) }
    ensures lender { (state_of encoder.new).lender ≡ (state_of encoder.old).lender }
{
    match edns {
        Some(edns) => {
            let item = ExtendedEdns::new(edns, code);
            let fits = emit_if_fits(&item, encoder)?;
            Ok(SectionCount::of_one(fits))
        }
        None => Ok(SectionCount::of_none()),
    }
}

/// Writes a record, if there is one and it fits.
fn emit_signature(
    signature: Option<&Record>,
    encoder: &mut BinEncoder<'_>,
) -> Result<SectionCount, EncodeError>
    requires at_end { IsAtEnd (state_of encoder.old) }
    requires behind { AllBehind (position_of (state_of encoder.old)) }
    ensures count { IfOk result (λ k. k ≡ section_count record_item (state_of encoder.old)
        (listed (lent signature.entry))) }
    ensures wrote { IsOk result → state_of encoder.new
        ≡ append_fitting record_item (state_of encoder.old) (listed (lent signature.entry)) }
    ensures writable { IsOk result → AreWritable
        (fitting_pieces record_item (state_of encoder.old) (listed (lent signature.entry))) }
    ensures at_end { IsOk result → IsAtEnd (state_of encoder.new) }
    ensures behind { IsOk result → AllBehind (position_of (state_of encoder.new)) }
    ensures memory { IfErr result (λ error. error ≡ EncodeError.Memory) }
    ensures back { OnErr result (CanRollBack (state_of encoder.old) (state_of encoder.new)) }
    ensures lender { (state_of encoder.new).lender ≡ (state_of encoder.old).lender }
{
    match signature {
        Some(record) => {
            let fits = emit_if_fits(record, encoder)?;
            Ok(SectionCount::of_one(fits))
        }
        None => Ok(SectionCount::of_none()),
    }
}

/// Writes three sections, an OPT record and a signature, as much of each as fits.
fn emit_sections<
    A: EmitAndCount<Item = Record>,
    N: EmitAndCount<Item = Record>,
    D: EmitAndCount<Item = Record>,
>(
    metadata: &Metadata,
    answers: &mut A,
    authorities: &mut N,
    additionals: &mut D,
    edns: Option<&Edns>,
    signature: Option<&Record>,
    encoder: &mut BinEncoder<'_>,
) -> Result<SectionCounts, EncodeError>
    requires at_end { IsAtEnd (state_of encoder.old) }
    requires behind { AllBehind (position_of (state_of encoder.old)) }
    ensures count { IfOk result (λ k. k ≡ section_counts (state_of encoder.old)
        (message_of metadata.now [] (A.items answers.old) (N.items authorities.old)
        (D.items additionals.old) edns.entry signature.entry)) }
    ensures wrote { IsOk result → state_of encoder.new ≡ signature_state (state_of encoder.old)
        (message_of metadata.now [] (A.items answers.old) (N.items authorities.old)
        (D.items additionals.old) edns.entry signature.entry) }
    ensures writable { IsOk result → SectionsAreWritable (state_of encoder.old)
        (message_of metadata.now [] (A.items answers.old) (N.items authorities.old)
        (D.items additionals.old) edns.entry signature.entry) }
    ensures memory { IfErr result (λ error. error ≡ EncodeError.Memory) }
    ensures back { OnErr result (CanRollBack (state_of encoder.old) (state_of encoder.new)) }
    ensures lender { (state_of encoder.new).lender ≡ (state_of encoder.old).lender }
{
    Ok(SectionCounts {
        answers: emit_section(answers, encoder)?,
        authorities: emit_section(authorities, encoder)?,
        additionals: emit_section(additionals, encoder)?,
        edns: emit_edns(edns, metadata.response_code, encoder)?,
        signature: emit_signature(signature, encoder)?,
    })
}

impl SectionCount {
    /// Returns the count of a section of one item, which fits or does not.
    fn of_one(fits: bool) -> SectionCount
        ensures { result ≡ record { count = if fits then 1 else 0; is_cut = not fits } }
    {
        SectionCount {
            count: usize::from(fits),
            is_cut: !fits,
        }
    }

    /// Returns the count of a section without items.
    fn of_none() -> SectionCount
        ensures { result ≡ record { count = 0; is_cut = false } }
    {
        SectionCount {
            count: 0,
            is_cut: false,
        }
    }
}

impl SectionCounts {
    /// Returns `true` if something was dropped.
    fn is_cut(&self) -> bool
        ensures { result ≡ some_is_cut self.now }
    {
        self.answers.is_cut
            || self.authorities.is_cut
            || self.additionals.is_cut
            || self.edns.is_cut
            || self.signature.is_cut
    }

    /// Returns the header of a message of which so much was written. Without an OPT record, only the lower four bits of
    /// the response code remain (RFC 6891 section 6.1.3).
    fn header(&self, metadata: &Metadata, queries: usize) -> Header
        requires queries { queries < 2 ^ 16 }
        requires answers { self.now.answers.count < 2 ^ 16 }
        requires authorities { self.now.authorities.count < 2 ^ 16 }
        requires additionals { self.now.additionals.count
            + (self.now.edns.count + self.now.signature.count) < 2 ^ 16 }
        ensures { result ≡ record {
          metadata = record metadata.now {
            truncation = metadata.now.truncation || some_is_cut self.now;
            response_code = header_code self.now.edns.count metadata.now.response_code;
          };
          counts = record {
            queries = queries;
            answers = self.now.answers.count;
            authorities = self.now.authorities.count;
            additionals = self.now.additionals.count
                + (self.now.edns.count + self.now.signature.count);
          };
        } }
    {
        let response_code = if self.edns.count == 0 {
            ResponseCode::from(u16::from(metadata.response_code) % 16)
        } else {
            metadata.response_code
        };
        Header {
            metadata: Metadata {
                truncation: metadata.truncation || self.is_cut(),
                response_code,
                ..*metadata
            },
            counts: HeaderCounts {
                queries: queries as u16,
                answers: self.answers.count as u16,
                authorities: self.authorities.count as u16,
                additionals: (self.additionals.count
                    + (self.edns.count + self.signature.count)) as u16,
            },
        }
    }
}

/// Writes the message of these parts at the start of an encoder, as much of it as fits, and returns the header that was
/// written. A limit below the 12 bytes of a header is refused before memory is allocated. After an error, `set_offset(0)`
/// and `trim` restore the encoder, except for the number of names that were tried.
pub fn emit_message_parts<
    Q: EmitAndCount<Item = Query>,
    A: EmitAndCount<Item = Record>,
    N: EmitAndCount<Item = Record>,
    D: EmitAndCount<Item = Record>,
>(
    metadata: &Metadata,
    queries: &mut Q,
    answers: &mut A,
    authorities: &mut N,
    additionals: &mut D,
    edns: Option<&Edns>,
    signature: Option<&Record>,
    encoder: &mut BinEncoder<'_>,
) -> Result<Header, EncodeError>
    requires fresh { IsFresh (state_of encoder.old) }
    ensures bytes { OnOk result ((state_of encoder.new).bytes
        ≡ cut_form (state_of encoder.old).limit
        (message_of metadata.now (Q.items queries.old) (A.items answers.old)
        (N.items authorities.old) (D.items additionals.old) edns.entry signature.entry)) }
    ensures decodes { OnOk result (IsSound
        (message_of metadata.now (Q.items queries.old) (A.items answers.old)
        (N.items authorities.old) (D.items additionals.old) edns.entry signature.entry)
        → ReadsMessage (state_of encoder.new).bytes (cut (state_of encoder.old).limit
        (message_of metadata.now (Q.items queries.old) (A.items answers.old)
        (N.items authorities.old) (D.items additionals.old) edns.entry signature.entry))) }
    ensures within { OnOk result
        (length (state_of encoder.new).bytes ≤ (state_of encoder.old).limit) }
    ensures header { IfOk result (λ header. header ≡ header_at (state_of encoder.old).limit
        (message_of metadata.now (Q.items queries.old) (A.items answers.old)
        (N.items authorities.old) (D.items additionals.old) edns.entry signature.entry)) }
    ensures room { OnOk result (front_reach
        (message_of metadata.now (Q.items queries.old) (A.items answers.old)
        (N.items authorities.old) (D.items additionals.old) edns.entry signature.entry)
        ≤ (state_of encoder.old).limit) }
    ensures full { result ≡ Err EncodeError.MaxBufferSizeExceeded
        → (state_of encoder.old).limit < front_reach
        (message_of metadata.now (Q.items queries.old) (A.items answers.old)
        (N.items authorities.old) (D.items additionals.old) edns.entry signature.entry) }
    ensures decided { (state_of encoder.old).limit < 12
        → result ≡ Err EncodeError.MaxBufferSizeExceeded }
    ensures back { OnErr result (CanRollBack (state_of encoder.old) (state_of encoder.new)) }
    ensures lender { (state_of encoder.new).lender ≡ (state_of encoder.old).lender }
{
    let front = emit_front(queries, encoder)?;
    let counts = emit_sections(
        metadata,
        answers,
        authorities,
        additionals,
        edns,
        signature,
        encoder,
    )?;
    let header = counts.header(metadata, front.queries);
    front.place.replace(encoder, header)?;
    Ok(header)
}
