//! The server at the other end of a scripted link.

ghost use Rattle.std.specs.Prelude.{◌≡◌, ◌≤◌, ◌<◌, ◌∷◌, ◌++◌, vec_len, vec_capacity, length, true, [], option_map, IfOk, IsOk, OnErr, OnOk, map, reverse, slice_get};
ghost use Rattle.std.specs.Option.{option_copied};
ghost use Rattle.stub_link.specs.ScriptedLink.{bytes_of};

use dns_message_bytes::frames::{FrameError, ListSource, read_frame, write_frame};
use dns_messages::laws::messages_decode_unambiguously;
use dns_zone::{DatagramLimit, Transport, Zone};
use std::alloc::{AllocError, Global};

/// The maximum size of a message, in bytes (RFC 1035 section 4.2.2).
const MAX_MESSAGE_LEN: usize = 65_535;

/// The maximum number of bytes that one read of a stream returns.
const PIECE_LEN: usize = 512;

/// The server of a zone, and its replies to datagrams.
#[derive(Drop)]
pub(crate) struct Server {
    alloc: Global,
    zone: Zone,
    limit: DatagramLimit,
    /// The replies to datagrams, the oldest first.
    replies: Vec<Vec<u8>>,
}

impl Server {
    ghost use Rattle.std.specs.Prelude.{List, Option};
    ghost use Rattle.std.specs.List.{fold};
    ghost use Rattle.dns_messages.specs.declared.message.Message.{Message};
    ghost use Rattle.dns_zone.specs.declared.transport.Transport.TheVariants.{Stream};
    ghost use Rattle.dns_zone.specs.Serving.{sent_reply};
    ghost use Rattle.stub_link.specs.LinkState.{LinkState, deliver, deliver_named, serve};
    ghost use Rattle.stub_link.specs.ScriptedLink.{AreRelated, IsPlace, IsRequest, IsServerOf, IsStreamReply};

    /// Creates the server of a zone whose datagrams have at most `limit` bytes.
    pub(crate) fn new(alloc: Global, zone: Zone, limit: DatagramLimit) -> Server
        ensures zone { result.zone ≡ zone }
        ensures limit { result.limit ≡ limit }
        ensures replies { result.replies.items ≡ [] }
    {
        Server {
            alloc,
            zone,
            limit,
            replies: Vec::new(alloc),
        }
    }

    /// Delivers a datagram, and records its reply. Returns `false` if there is none. An error leaves the zone unchanged.
    pub(crate) fn deliver(&mut self, bytes: &[u8]) -> Result<bool, AllocError>
        ensures ok { IfOk result (λ replied. (state : LinkState) → (m : Message)
            → IsServerOf self.old state → IsRequest bytes.now m
            → (replied ≡ true) × IsServerOf self.new (deliver m state)) }
        ensures err { OnErr result (self.new.zone ≡ self.old.zone) }
    {
        messages_decode_unambiguously();
        self.replies.reserve(1)?;
        match self.zone.serve(bytes, Transport::Datagram(self.limit))? {
            Some(reply) => {
                push_reply(&mut self.replies, reply);
                Ok(true)
            }
            None => Ok(false),
        }
    }

    /// Delivers a datagram, if there is one.
    pub(crate) fn deliver_named(&mut self, named: Option<&[u8]>) -> Result<(), AllocError>
        ensures { OnOk result ((state : LinkState) → (m : Option Message)
            → IsServerOf self.old state → IsPlace (option_copied named.entry) m
            → IsServerOf self.new (deliver_named m state)) }
    {
        match named {
            Some(bytes) => {
                self.deliver(bytes)?;
                Ok(())
            }
            None => Ok(()),
        }
    }

    /// Delivers datagrams, in order.
    pub(crate) fn deliver_all(&mut self, datagrams: &[Vec<u8>]) -> Result<(), AllocError>
        ensures delivers { OnOk result ((state : LinkState) → (sent : List Message)
            → IsServerOf self.old state
            → AreRelated IsRequest (map (λ b. b.items) datagrams.now) sent
            → IsServerOf self.new (fold (λ now m. deliver m now) state sent)) }
        ensures decided { datagrams.now ≡ [] → IsOk result }
    {
        for bytes in datagrams {
            self.deliver(bytes.as_slice())?;
        }
        Ok(())
    }

    /// Returns a copy of a reply, if there is one: of the newest if the number is 0, and of an older one otherwise.
    pub(crate) fn reply(&self, n: usize) -> Result<Option<Vec<u8>>, AllocError>
        ensures { IfOk result (λ reply. option_map (λ bytes. bytes.items) reply
            ≡ slice_get (reverse (bytes_of self.now.replies)) n) }
    {
        match newest(self.replies.as_slice(), n) {
            Some(bytes) => Ok(Some(Vec::from_slice(self.alloc, bytes)?)),
            None => Ok(None),
        }
    }

    /// Serves a message that arrives over a stream, and returns what arrives over the stream then. A message without a reply
    /// has none, and neither has one of more than 65,535 bytes.
    pub(crate) fn ask_stream(&mut self, bytes: &[u8]) -> Result<Option<Vec<u8>>, AllocError>
        ensures ok { IfOk result (λ reply. (state : LinkState) → (m : Message)
            → IsServerOf self.old state → IsRequest bytes.now m → length bytes.now ≤ 65535
            → IsStreamReply (sent_reply state.zone Stream m) reply
            × IsServerOf self.new (serve m state)) }
    {
        messages_decode_unambiguously();
        if bytes.len() > MAX_MESSAGE_LEN {
            return Ok(None);
        }
        let request = through_stream(self.alloc, bytes)?;
        match self.zone.serve(request.as_slice(), Transport::Stream)? {
            Some(reply) => Ok(Some(through_stream(self.alloc, reply.as_slice())?)),
            None => Ok(None),
        }
    }
}

/// Appends a reply, for which there is capacity.
fn push_reply(replies: &mut Vec<Vec<u8>>, reply: Vec<u8>)
    requires { vec_len replies.old < vec_capacity replies.old }
    ensures { bytes_of replies.new ≡ bytes_of replies.old ++ reply.items ∷ [] }
{
    match replies.push(reply) {
        Ok(()) => {}
        Err(_) => unreachable!(),
    }
}

/// Writes a message to a stream, and returns what is read from it.
fn through_stream(alloc: Global, bytes: &[u8]) -> Result<Vec<u8>, AllocError>
    requires { length bytes.now ≤ 65535 }
    ensures { IfOk result (λ read. read.items ≡ bytes.now) }
{
    let mut stream = Vec::new(alloc);
    write_frame(&mut stream, bytes)?;
    let mut source = ListSource::new(stream.as_slice(), PIECE_LEN);
    match read_frame(alloc, &mut source) {
        Ok(Some(message)) => Ok(message),
        // There was no memory for the message.
        Err(FrameError::Memory) => Err(AllocError),
        Ok(None) | Err(FrameError::Truncated) | Err(FrameError::Failed) => unreachable!(),
    }
}

/// Returns an item of a list, if there is one: the last if the number is 0, and an earlier one otherwise.
pub(crate) fn newest(items: &[Vec<u8>], n: usize) -> Option<&[u8]>
    ensures { option_copied result ≡ slice_get (reverse (map (λ b. b.items) items.now)) n }
{
    if n < items.len() {
        Some(items[items.len() - 1 - n].as_slice())
    } else {
        None
    }
}
