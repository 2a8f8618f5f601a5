//! How a server of zones answers requests (RFC 1034 section 4.3.2, RFC 2136 section 3).

ghost use Rattle.std.specs.Prelude.{◌≡◌, false, None, Ok, IfOk, OnOk, OnErr, option_map};
ghost use Rattle.dns_messages.specs.Sound.{IsSound};
ghost use Rattle.dns_messages.specs.declared.op_code.OpCode.TheVariants as ops;
ghost use Rattle.dns_server.specs.Maintaining.{IsRecordableOf};
ghost use Rattle.dns_server.specs.Zones.{AreServable};
ghost use Rattle.dns_zone.specs.Serving.{has_query_header};
ghost use Rattle.dns_authority.specs.service.Answering.{IsReplyToOther, IsServiceReply, IsUpdateReply, IsWholeReply, zones_served, zones_updated};

use crate::replies::{respond_to, respond_to_other};
use crate::{AnyAnswer, AuthorityView};
use dns_messages::{Message, OpCode, ResponseCode};
use dns_server::{Served, Server, Updates};
use dns_zone::{Serials, Transport, bare_reply_bytes};
use std::alloc::{AllocError, Global};

/// How requests are answered.
#[derive(Clone, Copy, Debug, PartialEq, Eq)]
pub enum Answering {
    /// Each by the zone of its question alone: there are no wildcards, referrals, DNAME records and additional records, and no
    /// answers to ANY. Updates set serial numbers. Bytes that do not decode have no reply.
    Plain,
    /// By the whole of RFC 1034 section 4.3.2, and of RFC 6891. The data that an update adds has the format of its type, and serial
    /// numbers may rise by themselves (RFC 2136 section 3.6). Bytes with the header of a query that do not decode are answered with
    /// `FormErr`.
    Whole(AnyAnswer, Serials),
}

impl Answering {
    /// Serves a request that is decoded, and returns its reply and what it has changed. Only an update changes a zone, and it changes
    /// no other.
    /// An error leaves the server unchanged.
    pub fn respond_to(
        self,
        alloc: Global,
        server: &mut Server,
        request: &Message,
        transport: Transport,
        updates: Updates,
    ) -> Result<Served, AllocError>
        requires { IsSound request.now }
        ensures reply { IfOk result (λ served.
            IsServiceReply self updates server.old transport request.now served.reply.items) }
        ensures ok { OnOk result (server.new ≡ zones_served self updates server.old request.now) }
        ensures change { IfOk result (λ served.
            IsRecordableOf server.old served.change server.new) }
        ensures err { OnErr result (server.new ≡ server.old) }
        ensures servable { AreServable server.new }
    {
        match (self, request.metadata.op_code) {
            (Answering::Plain, _) => server.serve(request, transport, updates),
            (Answering::Whole(_any, serials), OpCode::Update) => {
                update(alloc, server, request, transport, updates, serials)
            }
            (Answering::Whole(any, _serials), _) => {
                whole_reply(alloc, server, any, request, transport)
            }
        }
    }

    /// Returns the reply to bytes that are not a request, if there is one. Bytes that do not begin with the header of a query have
    /// none, before memory is taken.
    pub fn respond_to_other(
        self,
        alloc: Global,
        bytes: &[u8],
    ) -> Result<Option<Vec<u8>>, AllocError>
        ensures reply { IfOk result (λ found.
            IsReplyToOther self bytes.now (option_map (λ out. out.items) found)) }
        ensures decided { has_query_header bytes.now ≡ false → result ≡ Ok None }
    {
        match self {
            Answering::Plain => Ok(None),
            Answering::Whole(_any, _serials) => respond_to_other(alloc, bytes),
        }
    }
}

/// Serves an update, or refuses it.
fn update(
    alloc: Global,
    server: &mut Server,
    request: &Message,
    transport: Transport,
    updates: Updates,
    serials: Serials,
) -> Result<Served, AllocError>
    requires sound { IsSound request.now }
    requires update { request.now.metadata.op_code ≡ ops.Update }
    ensures reply { IfOk result (λ served.
        IsUpdateReply updates server.old transport request.now served.reply.items) }
    ensures ok { OnOk result (server.new ≡ zones_updated serials updates server.old request.now) }
    ensures change { IfOk result (λ served. IsRecordableOf server.old served.change server.new) }
    ensures err { OnErr result (server.new ≡ server.old) }
    ensures servable { AreServable server.new }
{
    match updates {
        Updates::Allowed => server.update(request, transport, serials),
        Updates::Refused => {
            let _zones = server.zones();
            let reply = bare_reply_bytes(alloc, request, ResponseCode::Refused, transport)?;
            Ok(Served {
                reply,
                change: None,
            })
        }
    }
}

/// Returns the reply to a request by the whole of RFC 1034 section 4.3.2, which changes nothing.
fn whole_reply(
    alloc: Global,
    server: &Server,
    any: AnyAnswer,
    request: &Message,
    transport: Transport,
) -> Result<Served, AllocError>
    ensures reply { IfOk result (λ served.
        IsWholeReply any server.now transport request.now served.reply.items) }
    ensures change { IfOk result (λ served. served.change ≡ None) }
    ensures servable { AreServable server.now }
{
    let _zones = server.zones();
    let authority = AuthorityView {
        zones: server.table(),
        any,
    };
    let reply = respond_to(alloc, &authority, request, transport)?;
    Ok(Served {
        reply,
        change: None,
    })
}
