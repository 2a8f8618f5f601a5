//! Transfers of zones.

ghost use Rattle.std.specs.Prelude.{◌≡◌, ◌&&◌, not, Bool, IfOk, option_map};
ghost use Rattle.dns_nameserver.specs.Answered.{IsCoverageOf};
ghost use Rattle.dns_sockets.specs.Handler.{message_bytes, messages_of, request_content};
ghost use Rattle.dns_transfers.specs.replies.Reply.{Replies};
ghost use Rattle.dns_zone.specs.declared.transport.Transport.TheVariants as transports;
ghost use Rattle.nameserver_handlers.specs.Transferring.{AreTerms, TransferByDatagram, TransferIf, content_of, last_of, offers_by_datagram};

use crate::clock::WallClock;
use crate::request_log::RequestLog;
use dns_faults::Delivery;
use dns_nameserver::Answered;
use dns_server::AddressList;
use dns_sockets::{Request, Transport as RequestTransport};
use dns_transfers::replies::{Terms, ZoneHistory, may_ask_by_datagram, transfer_reply};
use dns_tsig::Key;
use dns_zone::{Transport, Zone};
use std::alloc::{AllocError, Global};
use std::io::{Eprint, Write};
use std::net::IpAddr;
use std::time::Clock;

/// What is transferred.
#[derive(Clone, Copy)]
pub struct Sources<'a> {
    /// The zones.
    pub zones: &'a [Zone],
    /// Their last differences.
    pub histories: &'a [ZoneHistory],
    /// The keys with which requests may be signed.
    pub keys: &'a [Key],
}

/// To whom zones are transferred.
#[derive(Drop)]
pub struct Transfers {
    /// Whether transfers are offered. If not, requests for them are questions like any others.
    pub are_offered: bool,
    /// The addresses to which zones are transferred.
    pub secondaries: AddressList,
    /// The clock by which signatures are in time.
    pub clock: WallClock,
}

impl Transfers {
    /// Returns the messages of the reply to a request for a transfer over a stream, and logs it. While many transfers wait to be
    /// written, a further one is refused.
    pub fn over_stream<R: AllocGlobal + Clock + Eprint, W: Write>(
        &self,
        rt: &R,
        sources: Sources<'_>,
        request: &Request<'_>,
        is_busy: bool,
        log: &mut Option<RequestLog<W>>,
    ) -> Result<Option<Vec<Vec<u8>>>, AllocError>
        ensures { IfOk result (λ found. TransferIf self.now.are_offered (content_of sources.entry)
            self.now is_busy transports.Stream (request_content request.now)
            (messages_of found)) }
    {
        if !self.are_offered {
            return Ok(None);
        }
        let terms = self.terms(rt, request, Transport::Stream, is_busy);
        let found = reply_to(rt.alloc(), sources, request, &terms)?;
        if let (Some(messages), Some(log)) = (&found, log) {
            log_first(rt, log, request, messages.as_slice())?;
        }
        Ok(found)
    }

    /// Returns the reply to a request for an incremental transfer in a datagram.
    pub fn by_datagram<R: AllocGlobal + Clock>(
        &self,
        rt: &R,
        sources: Sources<'_>,
        request: &Request<'_>,
        transport: Transport,
    ) -> Result<Option<Vec<u8>>, AllocError>
        ensures { IfOk result (λ found. TransferByDatagram (content_of sources.entry) self.now
            transport (request_content request.now) (option_map message_bytes found)) }
    {
        if !self.offers_by_datagram(request) {
            return Ok(None);
        }
        let terms = self.terms(rt, request, transport, false);
        Ok(last_of(reply_to(rt.alloc(), sources, request, &terms)?))
    }

    /// Returns `true` if transfers are offered in datagrams for a request.
    fn offers_by_datagram(&self, request: &Request<'_>) -> bool
        ensures { result ≡ offers_by_datagram self.now (request_content request.now) }
    {
        match request.transport {
            RequestTransport::Datagram => self.are_offered && may_ask_by_datagram(request.bytes),
            RequestTransport::Stream => false,
        }
    }

    /// Returns what decides on the reply to a request for a transfer, beside its bytes.
    fn terms<R: Clock>(
        &self,
        rt: &R,
        request: &Request<'_>,
        transport: Transport,
        is_busy: bool,
    ) -> Terms
        ensures { AreTerms self.now is_busy transport (request_content request.now) result }
    {
        Terms {
            transport,
            is_permitted: self.may_transfer(request.peer.ip(), is_busy),
            time: self.clock.seconds(rt, request.moment),
        }
    }

    /// Returns `true` if zones are transferred to an address, unless the server is busy.
    fn may_transfer(&self, address: IpAddr, is_busy: bool) -> bool
        ensures { (covered : Bool) × (IsCoverageOf self.now.secondaries address covered
            × (result ≡ (not is_busy && covered))) }
    {
        let is_covered = self.secondaries.contains(address);
        !is_busy && is_covered
    }
}

/// Returns the last message of a reply, if there is one.
fn last_of(found: Option<Vec<Vec<u8>>>) -> Option<Vec<u8>>
    ensures { option_map message_bytes result ≡ last_of (messages_of found) }
{
    match found {
        Some(mut messages) => messages.pop(),
        None => None,
    }
}

/// Returns the messages of the reply to a request for a transfer.
fn reply_to(
    alloc: Global,
    sources: Sources<'_>,
    request: &Request<'_>,
    terms: &Terms,
) -> Result<Option<Vec<Vec<u8>>>, AllocError>
    ensures { IfOk result (λ found. Replies sources.entry.zones.now sources.entry.histories.now
        sources.entry.keys.now terms.now request.now.bytes.now (messages_of found)) }
{
    let Sources {
        zones,
        histories,
        keys,
    } = sources;
    transfer_reply(alloc, zones, histories, keys, request.bytes, terms)
}

/// Logs a request with the first message of its reply.
fn log_first<R: AllocGlobal + Eprint, W: Write>(
    rt: &R,
    log: &mut RequestLog<W>,
    request: &Request<'_>,
    messages: &[Vec<u8>],
) -> Result<(), AllocError> {
    let first = match messages.first() {
        Some(message) => Some(message.clone()?),
        None => None,
    };
    let answered = Answered {
        delivery: Delivery::plain(first),
        line: None,
        has_updated: false,
    };
    // Without memory for the line there is none.
    let _logged = log.append_request(rt, request, &answered);
    Ok(())
}
