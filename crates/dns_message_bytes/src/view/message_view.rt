//! Messages, borrowed from their bytes (RFC 1035 section 4.1).

ghost use Rattle.std.specs.Prelude.{◌≡◌, ◌<◌, length, Err, IfOk, IfErr};

use crate::view::query_views::{QueryViews, pass_queries};
use crate::view::record_views::{RecordViews, pass_records};
use crate::view::request_view::{HEADER_LEN, read_header};
use dns_messages::Metadata;
use dns_wire::{BinDecoder, DecodeError};

/// A message, borrowed from its bytes (RFC 1035 section 4.1).
///
/// Its structure was checked: the header, and the questions and records of each section, as many as the header says. The data
/// of records is not decoded, and any section may have a record of any type.
#[derive(Drop)]
pub struct MessageView<'a> {
    /// The header, without its counts. The response code is that of the header alone, of four bits.
    pub metadata: Metadata,
    queries: QueryViews<'a>,
    answers: RecordViews<'a>,
    authorities: RecordViews<'a>,
    additionals: RecordViews<'a>,
}

impl<'a> MessageView<'a> {
    ghost use Rattle.dns_message_bytes.specs.view.MessageView.{RawMessage, ReadsRawMessage, RefusesRawMessage, IsMessageOf};

    /// Reads a message in place, without taking memory. Bytes after its last record are ignored.
    ///
    /// Whatever `Message::from_vec` decodes is read. An error is that of the first item that cannot be read.
    pub fn of(bytes: &'a [u8]) -> Result<MessageView<'a>, DecodeError>
        ensures read { IfOk result (λ view. (m : RawMessage)
            × (ReadsRawMessage bytes.now m × IsMessageOf view m)) }
        ensures refused { IfErr result (λ error. RefusesRawMessage bytes.now error) }
        ensures short { length bytes.now < HEADER_LEN
            → result ≡ Err DecodeError.InsufficientBytes }
    {
        if bytes.len() < HEADER_LEN {
            return Err(DecodeError::InsufficientBytes);
        }
        MessageView::read(BinDecoder::new(bytes))
    }

    /// Reads a message from the start of a decoder's bytes.
    fn read(decoder: BinDecoder<'a>) -> Result<MessageView<'a>, DecodeError>
        requires { decoder.index ≡ 0 }
        ensures read { IfOk result (λ view. (m : RawMessage)
            × (ReadsRawMessage decoder.entry.bytes m × IsMessageOf view m)) }
        ensures refused { IfErr result (λ error.
            RefusesRawMessage decoder.entry.bytes error) }
    {
        let mut decoder = decoder;
        let Some(header) = read_header(&mut decoder) else {
            return Err(DecodeError::InsufficientBytes);
        };
        let counts = header.counts;
        let queries = decoder.index();
        pass_queries(&mut decoder, counts.queries)?;
        let answers = decoder.index();
        pass_records(&mut decoder, counts.answers)?;
        let authorities = decoder.index();
        pass_records(&mut decoder, counts.authorities)?;
        let additionals = decoder.index();
        pass_records(&mut decoder, counts.additionals)?;
        Ok(MessageView {
            metadata: header.metadata,
            queries: QueryViews::at(&decoder, queries, counts.queries),
            answers: RecordViews::at(&decoder, answers, counts.answers),
            authorities: RecordViews::at(&decoder, authorities, counts.authorities),
            additionals: RecordViews::at(&decoder, additionals, counts.additionals),
        })
    }

    /// Iterates over the questions (RFC 1035 section 4.1.2).
    pub fn queries(&self) -> QueryViews<'a>
        ensures { result ≡ self.now.queries }
    {
        self.queries.again()
    }

    /// Iterates over the records of the answer section (RFC 1035 section 4.1.3).
    pub fn answers(&self) -> RecordViews<'a>
        ensures { result ≡ self.now.answers }
    {
        self.answers.again()
    }

    /// Iterates over the records of the authority section.
    pub fn authorities(&self) -> RecordViews<'a>
        ensures { result ≡ self.now.authorities }
    {
        self.authorities.again()
    }

    /// Iterates over the records of the additional section, among them an OPT record and a signature.
    pub fn additionals(&self) -> RecordViews<'a>
        ensures { result ≡ self.now.additionals }
    {
        self.additionals.again()
    }
}
