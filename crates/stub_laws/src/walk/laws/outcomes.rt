//! What questions come to where a zone answers them.

ghost use Rattle.std.specs.Prelude.{◌≡◌, false, All, List, ℕ, Ok, Err};
ghost use Rattle.dns_names.specs.Name.{DomainName};
ghost use Rattle.dns_records.specs.Rows.{Rows};
ghost use Rattle.dns_messages.specs.declared.message.Message.{Message};
ghost use Rattle.dns_messages.specs.declared.query.Query.{Query};
ghost use Rattle.dns_messages.specs.declared.response.DnsResponse.{DnsResponse};
ghost use Rattle.dns_zone.specs.Rows.{IsZone, ZoneContent};
ghost use Rattle.stub_lookup.specs.declared.error.NetError.{NetError};
ghost use Rattle.stub_client.specs.Conclusions.{Conclusion};
ghost use Rattle.stub_client.specs.Handle.{Ask, Outcome};
ghost use Rattle.stub_client.specs.Origins.{asked_at};
ghost use Rattle.stub_client.specs.Outcomes.{ChainsEnd, ComesTo};
ghost use Rattle.stub_client.specs.declared.caching_client.step.LookupSettings.{LookupSettings};
ghost use Rattle.stub_link.specs.Ask as one_question;
ghost use Rattle.stub_link.specs.AskState.{AskState};
ghost use Rattle.stub_link.specs.Link.{messages};
ghost use Rattle.stub_link.specs.LinkState.{Version, link_calls};
ghost use Rattle.stub_link.specs.Request.{IsQuestion};
ghost use Rattle.stub_laws.specs.history.Answered.{IsAnsweredBy, zone_with};
ghost use Rattle.stub_laws.specs.history.Stands.{StandAt};
ghost use Rattle.stub_laws.specs.walk.Answered.{HasShortAliases, IsAskError, IsAsked, IsOrdinary, IsPlainAsk, IsZoneOutcome, IsZoneReply};
ghost use Rattle.stub_laws.specs.walk.Walk.{AgreesWithWalk};

/// Where a zone answers all questions, and aliases are not preserved, a question of a type that rows may have comes to what its walk
/// comes to, if a lookup of this type walks from the name, and no chain of aliases through the name passes seven links.
pub fn outcomes_of_answers_are_walks()
    ensures { (zone : ZoneContent) (settings : LookupSettings) (asks : List Ask) (q : Query)
        (conclusion : Conclusion) → IsZone zone
        → settings.preserve_intermediates ≡ false → All (IsAsked zone) asks
        → All IsOrdinary asks → ComesTo settings asks q conclusion
        → AgreesWithWalk zone q conclusion }
{}

/// Aliases from one response to the next lead out of the zone, or to a special-use name. So their chains end.
pub fn alias_chains_of_answers_end()
    ensures { (zone : ZoneContent) (settings : LookupSettings) (asks : List Ask)
        → IsZone zone → HasShortAliases zone → settings.preserve_intermediates ≡ false
        → All (IsAsked zone) asks → All IsOrdinary asks → All IsPlainAsk asks
        → ChainsEnd settings asks }
{}

/// A question that can be sent over the scripted link fails by a fault of the link, or by want of memory. So its outcome is one of the
/// zone if each response is.
pub fn questions_fail_by_faults()
    ensures errors { (m : Message) (q : Query) (old new : AskState) (outcome : Outcome)
        (error : NetError) → IsQuestion m q
        → one_question.Ask messages link_calls m old outcome new → outcome ≡ Err error
        → IsAskError error }
    ensures outcome { (zone : ZoneContent) (q : Query) (outcome : Outcome)
        → ((response : DnsResponse) → outcome ≡ Ok response
        → IsZoneReply zone q response.message)
        → ((error : NetError) → outcome ≡ Err error → IsAskError error)
        → IsZoneOutcome zone q outcome }
{}

/// Where the same rows stand during a lookup, all its outcomes that are answered by rows that stand are those of the zone with these rows.
pub fn answers_of_steady_rows_are_of_a_zone()
    ensures { (origin : DomainName) (history : List Version) (rows : Rows) (now : ℕ)
        (asks : List Ask) → ((other : Rows) → StandAt history now other → other ≡ rows)
        → All (IsAnsweredBy origin history) (asked_at now asks)
        → All (λ ask. (error : NetError) → ask.outcome ≡ Err error → IsAskError error) asks
        → All (IsAsked (zone_with origin rows)) asks }
{}
