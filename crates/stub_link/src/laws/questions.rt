//! Sound questions, which a handle never refuses.

ghost use Rattle.std.specs.Prelude.{◌≡◌, ◌<◌, ◌^◌, false, ℕ};
ghost use Rattle.dns_messages.specs.declared.query.Query.{Query};
ghost use Rattle.stub_config.specs.declared.request_options.DnsRequestOptions.{DnsRequestOptions};
ghost use Rattle.stub_client.specs.Handle.{Outcome};
ghost use Rattle.stub_client.specs.Request.{request_of};
ghost use Rattle.stub_client.specs.declared.request.DnsRequest.{DnsRequest};
ghost use Rattle.stub_link.specs.AskState.{AskState, AskZone};
ghost use Rattle.stub_link.specs.Request.{IsQuestion};
ghost use Rattle.stub_link.specs.SoundQuestion.{IsReplyOrFault, IsSoundQuestion, IsSoundReply};
ghost use Rattle.stub_link.specs.WireHandle.{Asks};
ghost use Rattle.stub_link.specs.declared.wire_handle.WireHandle.{WireHandle};

use crate::link::Link;

/// The request for a sound question is sound, has this one question, and has at most 65,535 bytes, whatever its options are.
pub fn requests_for_sound_questions_are_supported()
    ensures { (q : Query) (options : DnsRequestOptions) → IsSoundQuestion q
        → options.edns_payload_len < 2 ^ 16 → IsQuestion (request_of q options) q }
{}

/// A request that asks a question ends in a response, in a fault of the link, which is counted, or in want of memory, and in no
/// other error. So if no fault was counted, it ends in a response or in want of memory.
pub fn questions_end_in_replies_or_faults<L: Link>()
    ensures { (old new : WireHandle L) (request : DnsRequest) (q : Query) (now : ℕ)
        (outcome : Outcome) → IsQuestion request.message q
        → Asks L.sends L.receives L.streams L.failure_count old request now outcome new
        → IsReplyOrFault outcome old.faults new.faults }
{}

/// [`questions_end_in_replies_or_faults`] for a question to the zone's server, unless the link or the server runs out of
/// memory.
pub fn questions_to_the_zone_end_in_replies_or_faults()
    ensures { (old new : AskState) (request : DnsRequest) (q : Query) (now : ℕ) (outcome : Outcome)
        → IsQuestion request.message q → AskZone old request now outcome new
        → new.link.out_of_memory ≡ false → IsReplyOrFault outcome old.faults new.faults }
{}

/// The aliases and services in a response of a handle lead to fully qualified names of at most 255 bytes. So do those in a
/// response of the zone's server, unless the link or the server runs out of memory.
pub fn replies_lead_to_full_names<L: Link>()
    ensures any_link { (old new : WireHandle L) (request : DnsRequest) (now : ℕ) (outcome : Outcome)
        → Asks L.sends L.receives L.streams L.failure_count old request now outcome new
        → IsSoundReply outcome }
    ensures zone { (old new : AskState) (request : DnsRequest) (now : ℕ) (outcome : Outcome)
        → AskZone old request now outcome new → new.link.out_of_memory ≡ false
        → IsSoundReply outcome }
{}
