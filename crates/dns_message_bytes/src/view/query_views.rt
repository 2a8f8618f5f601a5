//! The questions of a message, borrowed from it (RFC 1035 section 4.1).

ghost use Rattle.std.specs.Prelude.{◌≡◌, ◌≤◌, List, length, IfOk, IfErr};
ghost use Rattle.dns_messages.specs.Grammar.{ReadsQuestions, RefusesQuestions};
ghost use Rattle.dns_messages.specs.declared.query.Query.{Query};

use crate::view::query_view::QueryView;
use dns_wire::{BinDecoder, DecodeError};

/// An iterator over the questions of a message, in their order (RFC 1035 section 4.1).
#[derive(Drop)]
pub struct QueryViews<'a> {
    /// A decoder at the next question.
    decoder: BinDecoder<'a>,
    /// The number of questions that are left.
    left: u16,
}

impl<'a> QueryViews<'a> {
    /// Creates an iterator over `count` questions that begin at a place, which must not be past the end of the bytes.
    pub(crate) fn at(decoder: &BinDecoder<'a>, place: usize, count: u16) -> QueryViews<'a>
        requires { place ≤ length decoder.now.bytes }
        ensures { result ≡ record {
          decoder = record { bytes = decoder.now.bytes; index = place };
          left = count;
        } }
    {
        QueryViews {
            decoder: decoder.clone(place),
            left: count,
        }
    }

    /// Returns an iterator over the same questions.
    pub(crate) fn again(&self) -> QueryViews<'a>
        ensures { result ≡ self.now }
    {
        QueryViews::at(&self.decoder, self.decoder.index(), self.left)
    }
}

impl<'a> Iterator for QueryViews<'a> {
    ghost use Rattle.std.specs.Iterator.{at_most};
    ghost use Rattle.dns_message_bytes.specs.view.QueryViews.{LendsQuery};

    type Item = QueryView<'a>;

    ghost next_gives = { LendsQuery };

    ghost remaining = { λ views. at_most views.left };

    fn next(&mut self) -> Option<QueryView<'a>> {
        if self.left == 0 {
            return None;
        }
        match QueryView::read(&mut self.decoder) {
            Ok(view) => {
                self.left -= 1;
                Some(view)
            }
            // Each question was read before.
            Err(_) => {
                self.left = 0;
                None
            }
        }
    }
}

/// Passes `count` questions. A failed read may advance the decoder.
pub(crate) fn pass_queries(decoder: &mut BinDecoder<'_>, count: u16) -> Result<(), DecodeError>
    ensures read { IfOk result (λ _. (qs : List Query)
        × ReadsQuestions decoder.old.bytes decoder.old.index count qs decoder.new.index) }
    ensures refused { IfErr result (λ error.
        RefusesQuestions decoder.old.bytes decoder.old.index count error) }
    ensures bytes { decoder.new.bytes ≡ decoder.old.bytes }
{
    for _ in 0..count {
        match QueryView::read(decoder) {
            Ok(_) => {}
            Err(error) => return Err(error),
        }
    }
    Ok(())
}
