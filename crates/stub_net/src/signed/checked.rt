//! Replies that are checked.

ghost use Rattle.std.specs.Prelude.{◌≡◌};
ghost use Rattle.stub_link.specs.Link.{datagram_of, stream_reply_of};
ghost use Rattle.stub_net.specs.signed.Signed.{AsksSigned, ChecksDatagram, ChecksReply, ChecksStream, count_refusal};

use crate::Network;
use crate::signed::network::SignedNetwork;
use dns_tsig::signer::{Accepted, Refusal};
use std::net::SocketAddr;
use stub_link::LinkError;

impl<N: Network> SignedNetwork<N> {
    /// Returns the message of a datagram as it was before it was signed, or an empty one if the datagram is refused.
    pub(crate) fn checked_datagram(&mut self, reply: &[u8]) -> Result<Option<Vec<u8>>, LinkError>
        ensures { ChecksDatagram N.reads_clock self.old reply.now (datagram_of result) self.new }
    {
        match self.checked_reply(reply) {
            Ok(Some(message)) => Ok(Some(message)),
            Ok(None) => Ok(Some(Vec::new(self.alloc))),
            Err(error) => Err(error),
        }
    }

    /// Sends a signed request over a stream, and returns its reply as it was before it was signed.
    pub(crate) fn ask_signed(
        &mut self,
        server: SocketAddr,
        signed: &[u8],
        deadline: u64,
    ) -> Result<Vec<u8>, LinkError>
        ensures { AsksSigned N.streams N.reads_clock self.old server signed.now deadline
            (stream_reply_of result) self.new }
    {
        match self.network.ask_stream(server, signed, deadline) {
            Ok(reply) => self.checked_stream(reply.as_slice()),
            Err(error) => Err(error),
        }
    }

    /// Returns the message over a stream as it was before it was signed. A stream whose reply is refused has failed.
    fn checked_stream(&mut self, reply: &[u8]) -> Result<Vec<u8>, LinkError>
        ensures { ChecksStream N.reads_clock self.old reply.now (stream_reply_of result) self.new }
    {
        match self.checked_reply(reply) {
            Ok(Some(message)) => Ok(message),
            Ok(None) => Err(LinkError::Failed),
            Err(error) => Err(error),
        }
    }

    /// Returns a reply as it was before it was signed, or `None` if it is refused.
    fn checked_reply(&mut self, reply: &[u8]) -> Result<Option<Vec<u8>>, LinkError>
        ensures { ChecksReply N.reads_clock self.old reply.now (datagram_of result) self.new }
    {
        let now = self.time();
        match self.signer.check(self.alloc, reply, now) {
            Ok(Ok(accepted)) => {
                let Accepted { message, error } = accepted;
                self.error = error;
                Ok(Some(message))
            }
            Ok(Err(refusal)) => {
                self.count_refusal(refusal);
                Ok(None)
            }
            // There was no memory for the message.
            Err(_) => Err(LinkError::Memory),
        }
    }

    /// Counts a reply that is refused.
    fn count_refusal(&mut self, refusal: Refusal)
        ensures { self.new ≡ count_refusal refusal self.old }
    {
        self.refused = self.refused.saturating_add(1);
        self.refusal = Some(refusal);
    }
}
