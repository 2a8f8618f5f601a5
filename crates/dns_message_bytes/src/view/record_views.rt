//! Sections of records, borrowed from a message (RFC 1035 section 4.1).

ghost use Rattle.std.specs.Prelude.{◌≡◌, ◌≤◌, List, length, IfOk, IfErr};

use crate::view::record_view::RecordView;
use dns_wire::{BinDecoder, DecodeError};

/// An iterator over the records of a section, in their order (RFC 1035 section 4.1).
#[derive(Drop)]
pub struct RecordViews<'a> {
    /// A decoder at the next record.
    decoder: BinDecoder<'a>,
    /// The number of records that are left.
    left: u16,
}

impl<'a> RecordViews<'a> {
    /// Creates an iterator over `count` records that begin at a place, which must not be past the end of the bytes.
    pub(crate) fn at(decoder: &BinDecoder<'a>, place: usize, count: u16) -> RecordViews<'a>
        requires { place ≤ length decoder.now.bytes }
        ensures { result ≡ record {
          decoder = record { bytes = decoder.now.bytes; index = place };
          left = count;
        } }
    {
        RecordViews {
            decoder: decoder.clone(place),
            left: count,
        }
    }

    /// Returns an iterator over the same records.
    pub(crate) fn again(&self) -> RecordViews<'a>
        ensures { result ≡ self.now }
    {
        RecordViews::at(&self.decoder, self.decoder.index(), self.left)
    }
}

impl<'a> Iterator for RecordViews<'a> {
    ghost use Rattle.std.specs.Iterator.{at_most};
    ghost use Rattle.dns_message_bytes.specs.view.RecordViews.{LendsRecord};

    type Item = RecordView<'a>;

    ghost next_gives = { LendsRecord };

    ghost remaining = { λ views. at_most views.left };

    fn next(&mut self) -> Option<RecordView<'a>> {
        if self.left == 0 {
            return None;
        }
        match RecordView::read(&mut self.decoder) {
            Ok(view) => {
                self.left -= 1;
                Some(view)
            }
            // Each record was read before.
            Err(_) => {
                self.left = 0;
                None
            }
        }
    }
}

ghost use Rattle.dns_message_bytes.specs.view.RecordView.{RawRecord};
ghost use Rattle.dns_message_bytes.specs.view.RecordViews.{ReadsRecords, RefusesRecords};

/// Passes `count` records. A failed read may advance the decoder.
pub(crate) fn pass_records(decoder: &mut BinDecoder<'_>, count: u16) -> Result<(), DecodeError>
    ensures read { IfOk result (λ _. (rs : List RawRecord)
        × ReadsRecords decoder.old.bytes decoder.old.index count rs decoder.new.index) }
    ensures refused { IfErr result (λ error.
        RefusesRecords decoder.old.bytes decoder.old.index count error) }
    ensures bytes { decoder.new.bytes ≡ decoder.old.bytes }
{
    for _ in 0..count {
        match RecordView::read(decoder) {
            Ok(_) => {}
            Err(error) => return Err(error),
        }
    }
    Ok(())
}
