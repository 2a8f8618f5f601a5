//! Questions of a resolver: they are sound, and where no fault is counted they are answered.

ghost use Rattle.std.specs.Prelude.{◌≡◌, ◌≢◌, ◌<◌, ◌^◌, false, All, IfOk, List, ℕ, Option, Result, Err};
ghost use Rattle.std.specs.declared.net.ip_addr.IpAddr.{IpAddr};
ghost use Rattle.dns_wire.specs.codes.RecordType.{type_number};
ghost use Rattle.dns_wire.specs.declared.codes.record_type.RecordType.{RecordType};
ghost use Rattle.dns_names.specs.Name.{DomainName};
ghost use Rattle.dns_names.specs.Parse.{name_of_text};
ghost use Rattle.dns_names.specs.declared.error.ParseError.{ParseError};
ghost use Rattle.stub_config.specs.declared.request_options.DnsRequestOptions.{DnsRequestOptions};
ghost use Rattle.stub_lookup.specs.declared.error.NetError.{NetError};
ghost use Rattle.stub_client.specs.Handle.{Ask, Led};
ghost use Rattle.stub_client.specs.Looks.{Reply};
ghost use Rattle.stub_core.specs.Resolver.{LooksUpHost, ResolvesName};
ghost use Rattle.stub_core.specs.Resolver.{asks_of as asks_of_client};
ghost use Rattle.stub_core.specs.declared.resolver.Resolver.{Resolver};
ghost use Rattle.stub_link.specs.AskState.{AskState, AskZone};
ghost use Rattle.stub_link.specs.SoundQuestion.{IsShort, Supported};
ghost use Rattle.stub_link.specs.WireHandle.{Asks};
ghost use Rattle.stub_link.specs.declared.wire_handle.WireHandle.{WireHandle};
ghost use Rattle.stub_run.specs.Questions.{AsksZone, IsAskable, IsReplyUnlessMemory, RepliesByQuestions};
ghost use Rattle.stub_run.specs.Run.{RepliesByZone, RunState};
ghost use Rattle.stub_run.specs.declared.event.Action.{Action};
ghost use Rattle.stub_run.specs.declared.report.EventReply.{EventReply};

use dns_names::laws::parsing_follows_the_grammar;
use dns_wire::codes::laws::type_number_round_trips;
use stub_link::Link;

/// Every request that a resolver makes for a name of at most 255 bytes is a sound question, over any link, and so it is never
/// refused as [`NetError::Unsupported`](stub_lookup::NetError::Unsupported). A text spells no longer name.
pub fn resolvers_ask_sound_questions<L: Link>()
    ensures name { (now : ℕ) (name : Result DomainName ParseError) (kind : RecordType)
        (old new : Resolver (WireHandle L)) (reply : Reply) → IfOk name (λ found. IsShort found)
        → type_number kind < 2 ^ 16 → old.settings.options.edns_payload_len < 2 ^ 16
        → ResolvesName (Asks L.sends L.receives L.streams L.failure_count) now name kind old reply
        new
        → ResolvesName (Supported (Asks L.sends L.receives L.streams L.failure_count)) now name kind
        old reply new }
    ensures host { (now : ℕ) (address : Option IpAddr) (name : Result DomainName ParseError)
        (old new : Resolver (WireHandle L)) (reply : Reply) → IfOk name (λ found. IsShort found)
        → old.settings.options.edns_payload_len < 2 ^ 16
        → LooksUpHost old.settings now
        (asks_of_client (Asks L.sends L.receives L.streams L.failure_count) now old) address name
        old.client reply new.client
        → LooksUpHost old.settings now
        (asks_of_client (Supported (Asks L.sends L.receives L.streams L.failure_count)) now old)
        address name old.client reply new.client }
    ensures outcomes { (options : DnsRequestOptions) (now : ℕ) (old new : WireHandle L)
        (asks : List Ask)
        → Led (Supported (Asks L.sends L.receives L.streams L.failure_count)) options now old asks
        new
        → All (λ ask. ask.outcome ≢ Err NetError.Unsupported) asks }
    ensures texts { (text : List ℕ) → IfOk (name_of_text text) (λ name. IsShort name) }
{
    type_number_round_trips();
    parsing_follows_the_grammar();
}

/// Every request of a resolver to the zone's server is a sound question, too, until the link or the server runs out of memory.
/// In a run, every lookup asks it sound questions alone.
pub fn resolvers_ask_the_zone_sound_questions()
    ensures name { (now : ℕ) (name : Result DomainName ParseError) (kind : RecordType)
        (old new : RunState) (reply : Reply) → IfOk name (λ found. IsShort found)
        → type_number kind < 2 ^ 16 → old.settings.options.edns_payload_len < 2 ^ 16
        → ResolvesName (λ asks request now outcome after. AskZone asks request now outcome after)
        now name kind old reply new
        → ResolvesName (λ asks request now outcome after. AsksZone asks request now outcome after)
        now name kind old reply new }
    ensures host { (now : ℕ) (address : Option IpAddr) (name : Result DomainName ParseError)
        (old new : RunState) (reply : Reply) → IfOk name (λ found. IsShort found)
        → old.settings.options.edns_payload_len < 2 ^ 16
        → LooksUpHost old.settings now (asks_of_client
        (λ asks request now outcome after. AskZone asks request now outcome after) now old)
        address name old.client reply new.client
        → LooksUpHost old.settings now (asks_of_client
        (λ asks request now outcome after. AsksZone asks request now outcome after) now old)
        address name old.client reply new.client }
    ensures events { (old new : RunState) (at : ℕ) (action : Action) (reply : EventReply)
        → IsAskable action
        → old.settings.options.edns_payload_len < 2 ^ 16 → RepliesByZone old at action reply new
        → RepliesByQuestions old at action reply new }
{
    type_number_round_trips();
    parsing_follows_the_grammar();
}

/// Where no fault was counted, and neither the link nor the server ran out of memory, each of these questions ended in a response
/// or in want of memory.
pub fn questions_without_faults_are_answered()
    ensures { (options : DnsRequestOptions) (now : ℕ) (old new : AskState) (asks : List Ask)
        → Led (λ old request now outcome new. AsksZone old request now outcome new) options now old
        asks new
        → new.link.out_of_memory ≡ false → new.faults ≡ 0
        → All (λ ask. IsReplyUnlessMemory ask.outcome) asks }
{}
