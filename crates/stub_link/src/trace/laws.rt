//! Laws of links that note their calls, as functions with empty bodies.

ghost use Rattle.std.specs.Prelude.{ℕ, Result};
ghost use Rattle.dns_messages.specs.declared.message.Message.{Message};
ghost use Rattle.dns_messages.specs.declared.response_code.ResponseCode.{ResponseCode};
ghost use Rattle.stub_lookup.specs.declared.error.NetError.{NetError};
ghost use Rattle.stub_client.specs.Handle.{Outcome};
ghost use Rattle.stub_client.specs.declared.request.DnsRequest.{DnsRequest};
ghost use Rattle.stub_link.specs.WireHandle.{Asks, SendsUpdate};
ghost use Rattle.stub_link.specs.declared.wire_handle.WireHandle.{WireHandle};
ghost use Rattle.stub_link.specs.trace.Trace.{traced_count, traced_receives, traced_sends, traced_streams, untraced};
ghost use Rattle.stub_link.specs.declared.trace.traced_link.TracedLink.{TracedLink};

use crate::Link;

/// A handle over a link that notes its calls asks questions and sends updates as a handle over the other link does: the notes change
/// nothing.
pub fn traced_handles_ask_as_others<L: Link>()
    ensures asks { (old new : WireHandle (TracedLink L)) (request : DnsRequest) (now : ℕ)
        (outcome : Outcome) → Asks (traced_sends L.sends) (traced_receives L.receives)
        (traced_streams L.streams) (traced_count L.failure_count) old request now outcome new
        → Asks L.sends L.receives L.streams L.failure_count (untraced old) request now outcome
        (untraced new) }
    ensures updates { (old new : WireHandle (TracedLink L)) (update : Message)
        (reply : Result ResponseCode NetError)
        → SendsUpdate (traced_sends L.sends) (traced_receives L.receives)
        (traced_streams L.streams) (traced_count L.failure_count) old update reply new
        → SendsUpdate L.sends L.receives L.streams L.failure_count (untraced old) update reply
        (untraced new) }
{}
