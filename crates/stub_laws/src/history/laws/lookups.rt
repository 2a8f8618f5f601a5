//! The questions of a lookup, over the scripted link.

ghost use Rattle.std.specs.Prelude.{◌≡◌, ◌++◌, ℕ, List, All, false};
ghost use Rattle.dns_names.specs.Name.{DomainName};
ghost use Rattle.dns_messages.specs.declared.query.Query.{Query};
ghost use Rattle.stub_config.specs.declared.request_options.DnsRequestOptions.{DnsRequestOptions};
ghost use Rattle.stub_client.specs.Handle.{Ask, Led};
ghost use Rattle.stub_client.specs.Origins.{asked_at};
ghost use Rattle.stub_link.specs.AskState.{AskState, AskZone};
ghost use Rattle.stub_laws.specs.history.Answered.{IsAnsweredBy, IsAnsweredSince};
ghost use Rattle.stub_laws.specs.history.Faithful.{HasNoReuse, IsFaithful, StaysFaithful};

use dns_zone::laws::updates_keep_zones_well_formed;

/// The questions of a lookup, asked one after another at one moment, keep a handle faithful, and each outcome that is a response holds
/// what the zone answers by rows that stand at that moment, if no id ever serves two equal questions. The link and its server
/// have not run out of memory by then.
pub fn lookups_have_answers_that_stood()
    ensures { (origin : DomainName) (options : DnsRequestOptions) (now : ℕ) (old new : AskState)
        (asks : List Ask) (later : List (ℕ × Query)) → IsFaithful origin old
        → old.link.moment ≡ now
        → Led (λ old request now outcome new. AskZone old request now outcome new) options now old
        asks new
        → new.link.out_of_memory ≡ false → HasNoReuse (new.sent ++ later)
        → StaysFaithful origin old new
        × All (IsAnsweredBy origin new.link.history) (asked_at now asks) }
{
    updates_keep_zones_well_formed();
}

/// Each such outcome also holds what the zone answers by rows that hold since before the lookup: those that stand as it begins, or
/// later ones. Rows that were replaced before it began, even at the same moment, are not among them.
pub fn lookups_have_current_answers()
    ensures { (origin : DomainName) (options : DnsRequestOptions) (now : ℕ) (old new : AskState)
        (asks : List Ask) (later : List (ℕ × Query)) → IsFaithful origin old
        → old.link.moment ≡ now
        → Led (λ old request now outcome new. AskZone old request now outcome new) options now old
        asks new
        → new.link.out_of_memory ≡ false → HasNoReuse (new.sent ++ later)
        → All (IsAnsweredSince origin old.link.history new.link.history) asks }
{
    updates_keep_zones_well_formed();
}
