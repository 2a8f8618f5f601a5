//! A guard that restores the encoding of names when it is dropped.

ghost use Rattle.std.specs.Prelude.{◌≡◌};

use crate::encoder::BinEncoder;
use crate::name_encoding::{NameEncoding, RDataEncoding};

/// An encoder with an encoding of names that lasts until this guard is dropped.
///
/// Names use the encoding that it was created with, unless its encoder's is set. Dropping it sets the encoding that it
/// holds.
pub struct ModalEncoder<'a, 'e> {
    previous: NameEncoding,
    encoder: &'e mut BinEncoder<'a>,
}

impl<'a, 'e> ModalEncoder<'a, 'e> {
    ghost use Rattle.dns_wire.specs.Encoder.{state_of};
    ghost use Rattle.dns_wire.specs.ModalEncoder.{modal_state};

    /// Returns the encoder, in the mode of this guard.
    pub fn encoder_mut(&mut self) -> &mut BinEncoder<'a>
        ensures { state_of result.now ≡ modal_state self.old }
    {
        self.encoder
    }
}

impl Drop for ModalEncoder<'_, '_> {
    ghost use Rattle.dns_wire.specs.ModalEncoder.{modal_state, saved_encoding, released_state};

    /// Sets the encoding that the guard holds.
    fn drop(self)
        ensures { released_state self.exit
            ≡ record (modal_state self.entry) { encoding = saved_encoding self.entry } }
    {
        let ModalEncoder { previous, encoder } = self;
        encoder.set_name_encoding(previous);
    }
}

impl<'a> BinEncoder<'a> {
    ghost use Rattle.dns_wire.specs.Encoder.{state_of};
    ghost use Rattle.dns_wire.specs.NameEncoding.{rdata_mode};
    ghost use Rattle.dns_wire.specs.ModalEncoder.{modal_state, saved_encoding, modal_lender};

    /// Sets the encoding of names until the guard is dropped.
    pub fn with_name_encoding<'e>(&'e mut self, name_encoding: NameEncoding) -> ModalEncoder<'a, 'e>
        ensures value { modal_state result
            ≡ record (state_of self.old) { encoding = name_encoding } }
        ensures previous { saved_encoding result ≡ (state_of self.old).encoding }
        ensures borrow { modal_lender result ≡ self.entry.ghost_name }
    {
        let previous = self.name_encoding();
        self.set_name_encoding(name_encoding);
        ModalEncoder {
            previous,
            encoder: self,
        }
    }

    /// Sets the encoding of names that this kind of record data requires, until the guard is dropped.
    pub fn with_rdata_behavior<'e>(
        &'e mut self,
        rdata_encoding: RDataEncoding,
    ) -> ModalEncoder<'a, 'e>
        ensures value { modal_state result ≡ record (state_of self.old) {
          encoding = rdata_mode rdata_encoding
              (state_of self.old).canonical (state_of self.old).encoding;
        } }
        ensures previous { saved_encoding result ≡ (state_of self.old).encoding }
        ensures borrow { modal_lender result ≡ self.entry.ghost_name }
    {
        let name_encoding = self.rdata_name_encoding(rdata_encoding);
        self.with_name_encoding(name_encoding)
    }

    /// Returns the encoding of names that this kind of record data requires. To encode a name with it alone, set it,
    /// and set the previous encoding again afterwards.
    pub fn rdata_name_encoding(&self, rdata_encoding: RDataEncoding) -> NameEncoding
        ensures { result ≡ rdata_mode rdata_encoding
            (state_of self.now).canonical (state_of self.now).encoding }
    {
        match (rdata_encoding, self.is_canonical_form()) {
            (RDataEncoding::StandardRecord, false) => self.name_encoding(),
            (RDataEncoding::StandardRecord | RDataEncoding::Canonical, true) => {
                NameEncoding::UncompressedLowercase
            }
            (RDataEncoding::Canonical, false) | (RDataEncoding::Other, _) =>
                NameEncoding::Uncompressed,
        }
    }
}
