//! The updates of a journal are served again.

ghost use Rattle.std.specs.Prelude.{◌≡◌, ◌≤◌, ◌<◌, ◌++◌, length, map, ℕ, None, Err, IfErr, IfSome, OnErr, OnOk};
ghost use Rattle.dns_message_bytes.specs.frames.Frame.{frame, frame_len};
ghost use Rattle.dns_zone.specs.Request.{DecodesRequest};
ghost use Rattle.dns_durable.specs.Durable.{IsTaken, Replays, TakesEntry};
ghost use Rattle.dns_durable.specs.Replay.{IsEntryRefusal, IsReplayRefusal};
ghost use Rattle.dns_durable.specs.Rule.{step_of};

use crate::error::ReplayError;
use crate::rule::{EntryRule, rule_of};
use dns_authority::service::Answering;
use dns_server::{Server, Updates};
use dns_zone::{Transport, decode_request};
use std::alloc::Global;

/// The first frame of bytes (RFC 1035 section 4.2.2).
#[derive(Clone, Copy, Debug)]
pub struct FirstFrame<'a> {
    /// The message of the frame.
    pub message: &'a [u8],
    /// What follows the frame.
    pub rest: &'a [u8],
}

/// Serves the updates of a journal, in order: those of each entry by the rule by which they were made, which its mark says. Entries
/// without a mark are of older versions, which made all updates by [`Answering::Plain`].
///
/// # Errors
///
/// - [`ReplayError::NotUpdates`] if an entry is not the frames of requests, with its number from 1: then the entries in front of it
///   were served, and the requests in front of what is no frame of one;
/// - [`ReplayError::Memory`] if memory is refused: then some of the updates were served, from the first one on.
pub fn replay(server: &mut Server, alloc: Global, updates: &[&[u8]]) -> Result<(), ReplayError>
    ensures ok { OnOk result (Replays server.old (map (λ u. u.now) updates.now) server.new) }
    ensures refused { IfErr result
        (IsReplayRefusal server.old (map (λ u. u.now) updates.now) server.new) }
{
    let mut rest = updates;
    while let [update, more @ ..] = rest {
        // The number of the entry, from 1.
        let entry = updates.len() - more.len();
        replay_update(server, alloc, entry, update)?;
        rest = more;
    }
    Ok(())
}

/// Serves the requests of an entry by its rule. The number of the entry is that of its error.
fn replay_update(
    server: &mut Server,
    alloc: Global,
    entry: usize,
    update: &[u8],
) -> Result<(), ReplayError>
    ensures ok { OnOk result (TakesEntry server.old update.now server.new) }
    ensures refused { IfErr result (IsEntryRefusal entry server.old update.now server.new) }
{
    let EntryRule { answering, updates } = rule_of(update);
    let mut rest = updates;
    while !rest.is_empty() {
        let Some(first) = first_frame(rest) else {
            return Err(ReplayError::NotUpdates(entry));
        };
        replay_message(server, alloc, answering, entry, first.message)?;
        rest = first.rest;
    }
    Ok(())
}

/// Serves a request of an entry by a rule.
fn replay_message(
    server: &mut Server,
    alloc: Global,
    answering: Answering,
    entry: usize,
    message: &[u8],
) -> Result<(), ReplayError>
    ensures ok { OnOk result (IsTaken (step_of answering) server.old message.now server.new) }
    ensures refused { OnErr result (server.new ≡ server.old) }
    ensures number { (n : ℕ) → result ≡ Err (ReplayError.NotUpdates n)
        → (n ≡ entry) × DecodesRequest message.now None }
{
    let Some(request) = decode_request(alloc, message)? else {
        return Err(ReplayError::NotUpdates(entry));
    };
    let _served = answering.respond_to(
        alloc,
        server,
        &request,
        Transport::Stream,
        Updates::Allowed,
    )?;
    Ok(())
}

/// Returns the first frame of bytes and what follows it, if the whole frame is there.
pub fn first_frame(bytes: &[u8]) -> Option<FirstFrame<'_>>
    ensures parts { IfSome result (λ first. bytes.now
        ≡ frame first.message.now ++ first.rest.now) }
    ensures short { IfSome result (λ first. length first.message.now ≤ 65535) }
    ensures none { result ≡ None → length bytes.now < frame_len bytes.now }
{
    let [high, low, behind @ ..] = bytes else {
        return None;
    };
    let len = usize::from(*high) * 256 + usize::from(*low);
    if behind.len() < len {
        return None;
    }
    Some(FirstFrame {
        message: &behind[..len],
        rest: &behind[len..],
    })
}
