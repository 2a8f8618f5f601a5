//! The network.

ghost use Rattle.std.specs.Prelude.{◌≡◌};
ghost use Rattle.stub_link.specs.Link.{stream_reply_of};
ghost use Rattle.stub_net.specs.signed.Signed.{IsFirst, ReadsTime, Signs, link_error};

use crate::Network;
use dns_tsig::signer::{Refusal, Signer, TsigError};
use dns_tsig::{Key, SignError};
use std::alloc::Global;
use std::net::SocketAddr;
use stub_link::LinkError;

/// A network that signs requests with a key, and hands on the replies that a holder of the key signed for the last request.
///
/// A datagram that is refused is handed on as an empty one, which is the reply to no request, so that whoever waits drops it, counts it
/// and waits on. A stream whose reply is refused has failed.
#[derive(Drop)]
pub struct SignedNetwork<N> {
    pub(crate) alloc: Global,
    pub(crate) network: N,
    pub(crate) signer: Signer,
    pub(crate) base: u64,
    pub(crate) refused: u64,
    pub(crate) refusal: Option<Refusal>,
    pub(crate) error: Option<TsigError>,
}

impl<N> SignedNetwork<N> {
    /// Creates a network over another one. `base` is the time when the clock of that one reads 0, in seconds since 1 January 1970
    /// (UTC).
    pub fn new(alloc: Global, network: N, key: Key, base: u64) -> SignedNetwork<N>
        ensures { IsFirst network key base result }
    {
        SignedNetwork {
            alloc,
            network,
            signer: Signer::new(key),
            base,
            refused: 0,
            refusal: None,
            error: None,
        }
    }

    /// Returns the network below.
    pub fn network(&self) -> &N
        ensures { result.now ≡ self.now.network }
    {
        &self.network
    }

    /// Returns the number of replies that were refused.
    pub fn refused(&self) -> u64
        ensures { result ≡ self.now.refused }
    {
        self.refused
    }

    /// Returns why a reply was refused last.
    pub fn refusal(&self) -> Option<Refusal>
        ensures { result ≡ self.now.refusal }
    {
        self.refusal
    }

    /// Returns the error that the last signed reply reported of the signature of its request, as BADTIME.
    pub fn error(&self) -> Option<TsigError>
        ensures { result ≡ self.now.error }
    {
        self.error
    }
}

impl<N: Network> SignedNetwork<N> {
    /// Returns the time of the clock, in seconds since 1 January 1970 (UTC).
    pub(crate) fn time(&mut self) -> u64
        ensures { ReadsTime N.reads_clock self.old result self.new }
    {
        self.base.saturating_add(self.network.now() / 1_000)
    }

    /// Returns a request with a signature of this moment.
    fn sign(&mut self, bytes: &[u8]) -> Result<Vec<u8>, LinkError>
        ensures { Signs N.reads_clock self.old bytes.now (stream_reply_of result) self.new }
    {
        let now = self.time();
        match self.signer.sign(self.alloc, bytes, now) {
            Ok(signed) => Ok(signed),
            Err(error) => Err(link_error(error)),
        }
    }
}

/// Returns the error of a network for a request that is not signed.
fn link_error(error: SignError) -> LinkError
    ensures { result ≡ link_error error }
{
    match error {
        // There was no memory for the signature.
        SignError::Memory => LinkError::Memory,
        SignError::NoHeader | SignError::Full | SignError::NoKey => LinkError::Failed,
    }
}

impl<N: Network> Network for SignedNetwork<N> {
    ghost use Rattle.stub_net.specs.signed.Signed.{ReadsClock, ReceivesSigned, SendsSigned, StreamsSigned};

    ghost sends = { λ old server bytes result new.
        SendsSigned N.sends N.reads_clock old server bytes result new };

    ghost receives = { λ old deadline result new.
        ReceivesSigned N.receives N.reads_clock old deadline result new };

    ghost streams = { λ old server bytes deadline result new.
        StreamsSigned N.streams N.reads_clock old server bytes deadline result new };

    ghost reads_clock = { λ old now new. ReadsClock N.reads_clock old now new };

    fn send(&mut self, server: SocketAddr, bytes: &[u8]) -> Result<(), LinkError> {
        match self.sign(bytes) {
            Ok(signed) => self.network.send(server, signed.as_slice()),
            Err(error) => Err(error),
        }
    }

    fn receive_until(&mut self, deadline: u64) -> Result<Option<Vec<u8>>, LinkError> {
        match self.network.receive_until(deadline) {
            Ok(Some(reply)) => self.checked_datagram(reply.as_slice()),
            Ok(None) => Ok(None),
            Err(error) => Err(error),
        }
    }

    fn ask_stream(
        &mut self,
        server: SocketAddr,
        bytes: &[u8],
        deadline: u64,
    ) -> Result<Vec<u8>, LinkError> {
        match self.sign(bytes) {
            Ok(signed) => self.ask_signed(server, signed.as_slice(), deadline),
            Err(error) => Err(error),
        }
    }

    fn now(&mut self) -> u64 {
        self.network.now()
    }
}
