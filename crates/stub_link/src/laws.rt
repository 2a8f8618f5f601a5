//! Theorems about requests over the scripted link.

ghost use Rattle.std.specs.Prelude.{◌≡◌, ℕ, None, Result};
ghost use Rattle.dns_messages.specs.declared.message.Message.{Message};
ghost use Rattle.dns_messages.specs.declared.response_code.ResponseCode.{ResponseCode};
ghost use Rattle.stub_lookup.specs.declared.error.NetError.{NetError};
ghost use Rattle.stub_client.specs.Handle.{Outcome};
ghost use Rattle.stub_client.specs.declared.request.DnsRequest.{DnsRequest};
ghost use Rattle.stub_link.specs.AskState.{AskState, AskZone, UpdateZone};
ghost use Rattle.stub_link.specs.Ask.{Ask};
ghost use Rattle.stub_link.specs.History.{AreQuestions, IsAsking, KeepsUnlessOut, past_after_script, past_of, past_to_come};
ghost use Rattle.stub_link.specs.Link.{messages};
ghost use Rattle.stub_link.specs.LinkState.{LinkState, begin_event, link_calls};
ghost use Rattle.stub_link.specs.Request.{IsUpdate};
ghost use Rattle.stub_link.specs.ScriptedLink.{Receives, Sends, Streams};
ghost use Rattle.stub_link.specs.WireHandle.{Asks, IsIn, SendsUpdate};
ghost use Rattle.stub_link.specs.declared.link.script.Script.{Script};
ghost use Rattle.stub_link.specs.declared.link.scripted.ScriptedLink.{ScriptedLink};
ghost use Rattle.stub_link.specs.declared.wire_handle.WireHandle.{WireHandle};

mod questions;

use dns_messages::laws::{headers_are_peeked, messages_decode_unambiguously};
pub use questions::{
    questions_end_in_replies_or_faults, questions_to_the_zone_end_in_replies_or_faults,
    replies_lead_to_full_names, requests_for_sound_questions_are_supported,
};

/// A handle over the scripted link asks the zone of the link's server: from a state that the handle is in, its question leads
/// to a state that it is in afterwards.
pub fn handles_over_the_scripted_link_ask_the_zone()
    ensures { (failure_count : ScriptedLink → ℕ) (old new : WireHandle ScriptedLink)
        (state : AskState) (request : DnsRequest) (now : ℕ) (outcome : Outcome) → IsIn old state
        → Asks Sends Receives Streams failure_count old request now outcome new
        → (after : AskState) × IsIn new after × AskZone state request now outcome after }
{
    messages_decode_unambiguously();
    headers_are_peeked();
}

/// A handle over the scripted link updates the zone of the link's server: from a state that the handle is in, its update leads
/// to a state that it is in afterwards.
pub fn handles_over_the_scripted_link_update_the_zone()
    ensures { (failure_count : ScriptedLink → ℕ) (old new : WireHandle ScriptedLink)
        (state : AskState) (update : Message) (reply : Result ResponseCode NetError)
        → IsIn old state → IsUpdate update
        → SendsUpdate Sends Receives Streams failure_count old update reply new
        → (after : AskState) × IsIn new after × UpdateZone state update reply after }
{
    messages_decode_unambiguously();
    headers_are_peeked();
}

/// The history of a zone does not depend on questions: what the zone and its versions will be when an event ends is decided
/// as the event begins, by its script. A question leaves it as it is, unless the link or its server runs out of memory.
pub fn questions_keep_the_history()
    ensures begins { (moment : ℕ) (script : Script) (state : LinkState)
        → AreQuestions state.datagrams → IsAsking (begin_event moment script state)
        × (past_to_come (begin_event moment script state)
        ≡ past_after_script moment script None (past_of state)) }
    ensures asks { (m : Message) (old new : AskState) (outcome : Outcome) → IsAsking old.link
        → Ask messages link_calls m old outcome new → KeepsUnlessOut old.link new.link }
{}
