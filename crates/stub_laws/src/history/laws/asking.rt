//! Questions and updates over the scripted link: which rows answer them.

ghost use Rattle.std.specs.Prelude.{◌≡◌, ◌≤◌, ◌++◌, ℕ, List, [], ◌∷◌, Result, Ok, Some, false, length, slice_get};
ghost use Rattle.dns_names.specs.Name.{DomainName};
ghost use Rattle.dns_messages.specs.declared.message.Message.{Message};
ghost use Rattle.dns_messages.specs.declared.query.Query.{Query};
ghost use Rattle.dns_messages.specs.declared.response.DnsResponse.{DnsResponse};
ghost use Rattle.dns_messages.specs.declared.response_code.ResponseCode.{ResponseCode};
ghost use Rattle.dns_zone.specs.Rows.{IsZone, ZoneContent};
ghost use Rattle.stub_lookup.specs.declared.error.NetError.{NetError};
ghost use Rattle.stub_client.specs.Handle.{Outcome};
ghost use Rattle.stub_link.specs.Ask.{Ask};
ghost use Rattle.stub_link.specs.AskState.{AskState, UpdateZone, begin, begin_with_update, end, first_asks};
ghost use Rattle.stub_link.specs.Link.{messages};
ghost use Rattle.stub_link.specs.LinkState.{link_calls};
ghost use Rattle.stub_link.specs.Request.{IsUpdate, with_id};
ghost use Rattle.stub_link.specs.declared.link.script.Script.{Script};
ghost use Rattle.stub_laws.specs.history.Answered.{IsAnsweredBy, IsCodeAtDelivery, IsMadeFor};
ghost use Rattle.stub_laws.specs.history.Faithful.{HasNoReuse, IsFaithful, IsNoMismatch, StaysFaithful, StaysFaithfulUnlessOut};

use dns_zone::laws::updates_keep_zones_well_formed;

/// A handle over the scripted link is faithful to the history of its zone: at first, and as events begin and end.
pub fn events_keep_states_faithful()
    ensures first { (zone : ZoneContent) (limit : ℕ) (ids : List ℕ) → IsZone zone
        → IsFaithful zone.origin (first_asks zone limit ids) }
    ensures begins { (origin : DomainName) (moment : ℕ) (script : Script) (state : AskState)
        → state.link.moment ≤ moment → IsFaithful origin state
        → IsFaithful origin (begin moment script state) }
    ensures begins_update { (origin : DomainName) (moment : ℕ) (script : Script)
        (state : AskState) → state.link.moment ≤ moment → IsFaithful origin state
        → IsFaithful origin (begin_with_update moment script state) }
    ensures ends { (origin : DomainName) (state : AskState) → IsFaithful origin state
        → StaysFaithful origin state (end state) }
    ensures memory { (state : AskState)
        → (end state).link.out_of_memory ≡ state.link.out_of_memory }
{
    updates_keep_zones_well_formed();
}

/// A question keeps a handle faithful, unless the link or its server runs out of memory. Where no id ever serves two equal
/// questions, its outcome is a fault, or holds what the zone answers by rows that stand at the moment of the question.
pub fn outcomes_hold_answers_that_stood()
    ensures stays { (origin : DomainName) (m : Message) (old new : AskState) (outcome : Outcome)
        → IsFaithful origin old → Ask messages link_calls m old outcome new
        → StaysFaithfulUnlessOut origin old new }
    ensures answers { (origin : DomainName) (m : Message) (q : Query) (old new : AskState)
        (outcome : Outcome) (later : List (ℕ × Query)) → IsFaithful origin old
        → Ask messages link_calls m old outcome new → m.queries ≡ q ∷ []
        → HasNoReuse (new.sent ++ later)
        → IsAnsweredBy origin new.link.history (record {
          moment = old.link.moment;
          ask = record { question = q; outcome = outcome };
        }) }
{
    updates_keep_zones_well_formed();
}

/// An update that is sent keeps a handle faithful, unless the link or its server runs out of memory.
pub fn updates_keep_states_faithful()
    ensures { (origin : DomainName) (update : Message) (old new : AskState)
        (reply : Result ResponseCode NetError) → IsFaithful origin old → IsUpdate update
        → UpdateZone old update reply new → StaysFaithfulUnlessOut origin old new }
{
    updates_keep_zones_well_formed();
}

/// Over the scripted link the stream brings the reply to the question: no outcome is one of the faults of a reply that cannot be
/// read, F7, and of another message, F8.
pub fn streams_bring_the_reply()
    ensures { (m : Message) (old new : AskState) (outcome : Outcome)
        → Ask messages link_calls m old outcome new → IsNoMismatch outcome }
{}

/// The response to a question is the server's reply to the datagram of this question, under the next id, and was made while the
/// question was open: by rows that hold since before it. No id serves two equal questions.
pub fn replies_are_made_for_open_questions()
    ensures { (origin : DomainName) (m : Message) (q : Query) (old new : AskState)
        (response : DnsResponse) (later : List (ℕ × Query)) → IsFaithful origin old
        → Ask messages link_calls m old (Ok response) new → m.queries ≡ q ∷ []
        → HasNoReuse (new.sent ++ later)
        → (id : ℕ) × (slice_get old.ids (length old.sent) ≡ Some id)
        × IsMadeFor origin old.link.history new.link.history old.link.moment (with_id id m)
        response.message }
{
    updates_keep_zones_well_formed();
}

/// The code of an update is the one that the server's reply has for the zone as it was when the datagram of the update was
/// delivered, or that of another update with the same id.
pub fn updates_have_the_code_of_a_delivery()
    ensures { (origin : DomainName) (update : Message) (old new : AskState) (code : ResponseCode)
        → IsFaithful origin old → IsUpdate update → UpdateZone old update (Ok code) new
        → new.link.out_of_memory ≡ false
        → IsCodeAtDelivery origin new.link.history old.link.moment update.metadata.id code }
{
    updates_keep_zones_well_formed();
}
