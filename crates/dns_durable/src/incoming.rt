//! Requests that have arrived, are decoded and verified.

ghost use Rattle.std.specs.Prelude.{◌≡◌, ◌≤◌, length, IfOk, OnOk};
ghost use Rattle.dns_messages.specs.Header.{peeked_metadata};
ghost use Rattle.dns_zone.specs.Request.{IsRequest};
ghost use Rattle.dns_durable.specs.Incoming.{AreAdmitted, IsAdmitted, IsJudged, IsShortIfAny, change_of, changes_in, is_change, is_update_header};
ghost use Rattle.dns_durable.specs.Rule.{begun, entry_of, entry_with};

use crate::policy::{Admission, Policy, admission_of};
use crate::rule::mark_of;
use dns_authority::service::Answering;
use dns_message_bytes::frames::write_frame;
use dns_messages::{Message, Metadata, OpCode};
use dns_server::Updates;
use dns_tsig::{Checked, verify_request};
use dns_zone::{Transport, decode_request};
use std::alloc::{AllocError, Global};

/// The greatest length of a message in a frame.
const MAX_REQUEST_LEN: usize = 65_535;

/// What decides on the reply to a request, beside its bytes.
#[derive(Clone, Copy, Debug, PartialEq, Eq)]
pub struct Terms {
    /// The transport, with its limit.
    pub transport: Transport,
    /// Whether its address may update without a key.
    pub local: Updates,
    /// The time, in seconds since 1 January 1970 (UTC).
    pub time: u64,
}

impl Terms {
    /// Returns the transport, with its limit.
    pub fn transport(&self) -> Transport
        ensures { result ≡ self.now.transport }
    {
        match self.transport {
            Transport::Datagram(limit) => Transport::Datagram(limit),
            Transport::Stream => Transport::Stream,
        }
    }
}

/// A request that has arrived.
#[derive(Clone, Copy, Debug)]
pub struct Incoming<'a> {
    /// The message.
    pub bytes: &'a [u8],
    /// What else decides on its reply.
    pub terms: &'a Terms,
}

/// A request that is decoded and verified.
#[derive(Drop)]
pub struct Admitted<'a> {
    /// The request as it has arrived.
    pub incoming: Incoming<'a>,
    /// The message.
    pub message: Message,
    /// By whom it was signed.
    pub checked: Checked<'a>,
    /// What is done with it.
    pub admission: Admission,
}

/// Bytes that have arrived.
#[derive(Drop)]
pub enum Arrived<'a> {
    /// They are a request.
    Request(Admitted<'a>),
    /// They do not decode, are a response, or are too long for a message.
    Other(Incoming<'a>),
}

impl Admitted<'_> {
    /// Returns `true` for an update that may be made.
    pub(crate) fn is_change(&self) -> bool
        ensures { result ≡ is_change self.now.admission self.now.message.metadata.op_code }
    {
        match (self.admission, self.message.metadata.op_code) {
            (Admission::Serve(Updates::Allowed), OpCode::Update) => true,
            _ => false,
        }
    }
}

/// Returns `true` for bytes that begin with the header of an update (RFC 2136 section 2.2).
pub fn is_update(bytes: &[u8]) -> bool
    ensures { result ≡ is_update_header (peeked_metadata bytes.now) }
{
    match Metadata::peek(bytes) {
        Some(metadata) => match metadata.op_code {
            OpCode::Update => true,
            _ => false,
        },
        None => false,
    }
}

/// Requests that are decoded and verified, and the entry of a journal for the updates that may be made.
#[derive(Drop)]
pub(crate) struct Batch<'a> {
    /// What has arrived, in order.
    pub(crate) admitted: Vec<Arrived<'a>>,
    /// The entry: the mark of the rule by which the updates are made, and their frames, or nothing if there are none.
    pub(crate) entry: Vec<u8>,
}

impl<'a> Batch<'a> {
    /// Creates a batch of these requests.
    pub(crate) fn new(
        alloc: Global,
        policy: &Policy,
        requests: &[Incoming<'a>],
    ) -> Result<Batch<'a>, AllocError>
        ensures admitted { IfOk result (λ batch.
            AreAdmitted policy.now requests.now batch.admitted.items) }
        ensures entry { IfOk result (λ batch.
            batch.entry.items ≡ entry_of policy.now.answering (changes_in batch.admitted.items)) }
    {
        let mut admitted = Vec::new(alloc);
        let mut entry = Vec::new(alloc);
        let mut rest = requests;
        while let [incoming, more @ ..] = rest {
            let next = admit(alloc, policy, *incoming)?;
            push_change(&mut entry, policy.answering, &next)?;
            admitted.push(next)?;
            rest = more;
        }
        Ok(Batch { admitted, entry })
    }
}

/// Adds the frame of an update that may be made to an entry, which begins with the mark of its rule.
fn push_change(
    entry: &mut Vec<u8>,
    answering: Answering,
    arrived: &Arrived<'_>,
) -> Result<(), AllocError>
    requires { IsShortIfAny arrived.now }
    ensures { OnOk result (entry.new.items
        ≡ entry_with answering entry.old.items (change_of arrived.now)) }
{
    match arrived {
        Arrived::Request(admitted) if admitted.is_change() => {
            begin_entry(entry, answering)?;
            write_frame(entry, admitted.incoming.bytes)
        }
        _ => Ok(()),
    }
}

/// Adds the mark of a rule to an entry that has nothing yet.
fn begin_entry(entry: &mut Vec<u8>, answering: Answering) -> Result<(), AllocError>
    ensures { OnOk result (entry.new.items ≡ begun answering entry.old.items) }
{
    if entry.is_empty() {
        entry.extend_from_slice(mark_of(answering))
    } else {
        Ok(())
    }
}

/// Decodes and verifies a request, if the bytes are one.
fn admit<'a>(
    alloc: Global,
    policy: &Policy,
    incoming: Incoming<'a>,
) -> Result<Arrived<'a>, AllocError>
    ensures { IfOk result (λ arrived. IsAdmitted policy.now incoming.entry arrived) }
{
    if incoming.bytes.len() > MAX_REQUEST_LEN {
        return Ok(Arrived::Other(incoming));
    }
    match decode_request(alloc, incoming.bytes)? {
        Some(message) => Ok(Arrived::Request(judge(alloc, policy, incoming, message)?)),
        None => Ok(Arrived::Other(incoming)),
    }
}

/// Verifies a request that is decoded, and says what is done with it.
fn judge<'a>(
    alloc: Global,
    policy: &Policy,
    incoming: Incoming<'a>,
    message: Message,
) -> Result<Admitted<'a>, AllocError>
    requires request { IsRequest incoming.bytes.now message }
    requires short { length incoming.bytes.now ≤ 65535 }
    ensures judged { IfOk result (λ admitted. IsJudged policy.now admitted) }
    ensures incoming { IfOk result (λ admitted. admitted.incoming ≡ incoming.entry) }
{
    let checked = verify_request(
        alloc,
        policy.keys.as_slice(),
        incoming.bytes,
        incoming.terms.time,
    )?;
    let admission = admission_of(policy, checked.verdict, &message, incoming.terms.local);
    Ok(Admitted {
        incoming,
        message,
        checked,
        admission,
    })
}
