//! The OPT record and the signature of a message (RFC 6891 section 6.1, RFC 8945 section 4.2).

ghost use Rattle.std.specs.Prelude.{◌≡◌, Some, None};

use super::Message;
use crate::edns::Edns;
use dns_records::Record;

impl Message {
    ghost use Rattle.std.specs.Option.{option_copied};
    ghost use Rattle.dns_messages.specs.Message.{payload_of, version_of};

    /// Sets the OPT record.
    pub fn set_edns(&mut self, edns: Edns)
        ensures { self.new ≡ record self.old { edns = Some edns } }
    {
        self.edns = Some(edns);
    }

    /// Returns how many bytes a reply may have over UDP: the payload size of the OPT record, and 512 at the least (RFC
    /// 6891 section 6.2.3).
    pub fn max_payload(&self) -> u16
        ensures { result ≡ payload_of self.now.edns }
    {
        match &self.edns {
            Some(edns) => edns.max_payload().max(512),
            None => 512,
        }
    }

    /// Returns the version of the OPT record, or 0 without one.
    pub fn version(&self) -> u8
        ensures { result ≡ version_of self.now.edns }
    {
        match &self.edns {
            Some(edns) => edns.version(),
            None => 0,
        }
    }

    /// Sets the signature, a TSIG record, which is encoded as the last record of the additional section (RFC 8945 section
    /// 5.1).
    ///
    /// The record is not checked. With a record of another type, or one without data, the message is not sound: it is
    /// encoded, but what its bytes decode to need not be the message.
    pub fn set_signature(&mut self, signature: Record)
        ensures { self.new ≡ record self.old { signature = Some signature } }
    {
        self.signature = Some(signature);
    }

    /// Returns the signature.
    pub fn signature(&self) -> Option<&Record>
        ensures { option_copied result ≡ self.now.signature }
    {
        self.signature.as_ref()
    }

    /// Takes the signature out.
    pub fn take_signature(&mut self) -> Option<Record>
        ensures taken { result ≡ self.old.signature }
        ensures left { self.new ≡ record self.old { signature = None } }
    {
        self.signature.take()
    }
}
