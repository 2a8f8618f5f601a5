//! Requests are answered, once their updates are on the disk.

ghost use Rattle.std.specs.Prelude.{◌≡◌, ◌<◌, ◌⊎◌, true, false, None, map, IfOk, OnErr};
ghost use Rattle.dns_message_bytes.specs.frames.Frame.{stream_of};
ghost use Rattle.dns_messages.specs.Header.{code_number, code_of};
ghost use Rattle.dns_messages.specs.Sound.{IsSound};
ghost use Rattle.dns_server.specs.Maintaining.{IsRecordableOf};
ghost use Rattle.dns_durable.specs.Changes.{AreChanges, reply_bytes, reply_change};
ghost use Rattle.dns_durable.specs.Durable.{TakesFront};
ghost use Rattle.dns_durable.specs.Incoming.{AreJudged, IsJudged, IsJudgedIfAny, changes_in};
ghost use Rattle.dns_durable.specs.Reply.{AnswersAll, AnswersOne, IsBareReply, IsPlainReply, IsSignedReply, zones_left};
ghost use Rattle.dns_durable.specs.Rule.{step_of};

use crate::incoming::{Admitted, Arrived};
use crate::policy::{Admission, Policy};
use crate::signing::sign_within;
use dns_authority::service::Answering;
use dns_messages::{Message, ResponseCode};
use dns_server::{Served, Server, ZoneChange};
use dns_zone::{Transport, bare_reply_bytes};
use std::alloc::{AllocError, Global};

/// How a request, or what is not one, was answered.
#[derive(Drop)]
pub struct Reply {
    /// The bytes of the reply. What is not a request has none, or some that say so.
    pub bytes: Option<Vec<u8>>,
    /// What the request has changed, if a zone has served it.
    pub change: Option<ZoneChange>,
}

/// Answers what has arrived, in order. If the updates of the requests are not on the disk, each of these is answered with
/// `ServFail`, and changes nothing.
///
/// An error is want of memory. Some of the updates may have been served.
pub(crate) fn answer_all(
    server: &mut Server,
    alloc: Global,
    policy: &Policy,
    is_stored: bool,
    admitted: &[Arrived<'_>],
) -> Result<Vec<Reply>, AllocError>
    requires { AreJudged policy.now admitted.now }
    ensures answered { IfOk result (λ replies. AnswersAll policy.now is_stored server.old
        admitted.now (map reply_bytes replies.items) server.new) }
    ensures changes { IfOk result (λ replies.
        AreChanges server.old (map reply_change replies.items) server.new) }
    ensures failed { OnErr result (is_stored ≡ true → TakesFront (step_of policy.now.answering)
        server.old (stream_of (changes_in admitted.now)) server.new) }
    ensures unchanged { is_stored ≡ false → server.new ≡ server.old }
{
    let mut replies = Vec::new(alloc);
    let mut rest = admitted;
    while let [next, more @ ..] = rest {
        let reply = answer(server, alloc, policy, is_stored, next)?;
        replies.push(reply)?;
        rest = more;
    }
    Ok(replies)
}

/// Answers a request, or bytes that are not one.
fn answer(
    server: &mut Server,
    alloc: Global,
    policy: &Policy,
    is_stored: bool,
    arrived: &Arrived<'_>,
) -> Result<Reply, AllocError>
    requires { IsJudgedIfAny policy.now arrived.now }
    ensures answered { IfOk result (λ reply. AnswersOne policy.now is_stored server.old server.new
        arrived.now (reply_bytes reply)) }
    ensures change { IfOk result (λ reply. IsRecordableOf server.old reply.change server.new) }
    ensures failed { OnErr result ((server.new ≡ server.old) ⊎ (server.new
        ≡ zones_left policy.now.answering is_stored server.old arrived.now)) }
{
    match arrived {
        Arrived::Request(admitted) => {
            let Served { reply, change } = signed_reply(
                server, alloc, policy, is_stored, admitted,
            )?;
            Ok(Reply {
                bytes: Some(reply),
                change,
            })
        }
        Arrived::Other(incoming) => {
            let bytes = policy.answering.respond_to_other(alloc, incoming.bytes)?;
            Ok(Reply {
                bytes,
                change: None,
            })
        }
    }
}

/// Answers a request by a reply that is signed if the request is, within the size that this asks for.
fn signed_reply(
    server: &mut Server,
    alloc: Global,
    policy: &Policy,
    is_stored: bool,
    admitted: &Admitted<'_>,
) -> Result<Served, AllocError>
    requires { IsJudged policy.now admitted.now }
    ensures replied { IfOk result (λ served. IsSignedReply policy.now is_stored server.old
        server.new admitted.now served.reply.items) }
    ensures change { IfOk result (λ served. IsRecordableOf server.old served.change server.new) }
    ensures failed { OnErr result ((server.new ≡ server.old) ⊎ (server.new
        ≡ zones_left policy.now.answering is_stored server.old (Arrived.Request admitted.now))) }
{
    let Served { reply, change } = plain_reply(
        server,
        alloc,
        policy.answering,
        is_stored,
        admitted,
    )?;
    let reply = sign_within(
        alloc,
        policy.keys.as_slice(),
        &admitted.checked,
        &admitted.message,
        admitted.incoming.terms,
        reply,
    )?;
    Ok(Served { reply, change })
}

/// Serves a request, or refuses it.
fn plain_reply(
    server: &mut Server,
    alloc: Global,
    answering: Answering,
    is_stored: bool,
    admitted: &Admitted<'_>,
) -> Result<Served, AllocError>
    requires { IsSound admitted.now.message }
    ensures replied { IfOk result (λ served. IsPlainReply answering is_stored server.old server.new
        admitted.now served.reply.items) }
    ensures change { IfOk result (λ served. IsRecordableOf server.old served.change server.new) }
    ensures failed { OnErr result (server.new ≡ server.old) }
{
    let message = &admitted.message;
    let transport = admitted.incoming.terms.transport();
    if !is_stored && admitted.is_change() {
        return refusal(alloc, message, ResponseCode::ServFail, transport);
    }
    match admitted.admission {
        Admission::Serve(updates) => answering.respond_to(
            alloc, server, message, transport, updates,
        ),
        Admission::Malformed => refusal(alloc, message, ResponseCode::FormErr, transport),
        Admission::NotAuthentic => refusal(alloc, message, ResponseCode::NotAuth, transport),
    }
}

/// Refuses a request, which changes nothing.
fn refusal(
    alloc: Global,
    request: &Message,
    code: ResponseCode,
    transport: Transport,
) -> Result<Served, AllocError>
    requires sound { IsSound request.now }
    requires fits { code_number code < 16 }
    requires named { code_of (code_number code) ≡ code }
    ensures reply { IfOk result (λ served.
        IsBareReply code transport request.now served.reply.items) }
    ensures change { IfOk result (λ served. served.change ≡ None) }
{
    let reply = bare_reply_bytes(alloc, request, code, transport)?;
    Ok(Served {
        reply,
        change: None,
    })
}
