//! Authoritative servers of zones (RFC 1034 section 4.3.2).

ghost use Rattle.std.specs.Prelude.{◌≡◌, ◌∷◌, ◌++◌, [], true, Ok, Err, IfOk, OnOk, OnErr};
ghost use Rattle.dns_server.specs.Zones.{has_origin, AreServable};
ghost use Rattle.dns_server.specs.declared.error.AddZoneError.{AddZoneError};
ghost use Rattle.dns_authority.specs.Answer.{authority_answer, is_unanswered};
ghost use Rattle.dns_authority.specs.Step.{refusal};
ghost use Rattle.dns_authority.specs.declared.asked.AnyAnswer.{AnyAnswer};

use crate::answer::AuthorityAnswer;
use crate::asked::AnyAnswer;
use crate::view::AuthorityView;
use dns_messages::{Query, ResponseCode};
use dns_server::{AddZoneError, Server};
use dns_zone::Zone;
use std::alloc::{AllocError, Global};

/// An authoritative server of zones. No two zones have the same origin, ignoring ASCII case.
#[derive(Drop)]
pub struct Authority {
    alloc: Global,
    server: Server,
    any: AnyAnswer,
}

impl Authority {
    /// Creates an authority without zones, which answers questions for the type ANY with all sets of the name.
    pub fn new(alloc: Global) -> Authority
        ensures zones { result.server ≡ [] }
        ensures any { result.any ≡ AnyAnswer.AllSets }
    {
        Authority {
            alloc,
            server: Server::new(alloc),
            any: AnyAnswer::AllSets,
        }
    }

    /// Sets the records that a question for the type ANY is answered with.
    pub fn set_any(&mut self, any: AnyAnswer)
        ensures { self.new ≡ record self.old { any = any } }
    {
        self.any = any;
    }

    /// Returns the zones, in the order in which they were added.
    pub fn zones(&self) -> &[Zone]
        ensures zones { result.now ≡ self.now.server }
        ensures servable { AreServable self.now.server }
    {
        self.server.zones()
    }

    /// Returns the zones, borrowed, with what questions for the type ANY are answered with.
    pub fn view(&self) -> AuthorityView<'_>
        ensures zones { result.zones.now ≡ self.now.server }
        ensures any { result.any ≡ self.now.any }
    {
        AuthorityView {
            zones: self.server.table(),
            any: self.any,
        }
    }

    /// Adds a zone. An error leaves the authority unchanged.
    ///
    /// # Errors
    ///
    /// - [`AddZoneError::Duplicate`] if there is a zone with this origin, ignoring ASCII case, before memory is taken;
    /// - [`AddZoneError::Memory`] if memory is refused.
    pub fn add_zone(&mut self, zone: Zone) -> Result<(), AddZoneError>
        ensures ok { OnOk result (self.new ≡ record self.old {
          server = self.old.server ++ zone ∷ [];
        }) }
        ensures err { OnErr result (self.new ≡ self.old) }
        ensures duplicate { result ≡ Err AddZoneError.Duplicate
            → has_origin self.old.server zone.origin.labels ≡ true }
        ensures decided { has_origin self.old.server zone.origin.labels ≡ true
            → result ≡ Err AddZoneError.Duplicate }
    {
        self.server.add_zone(zone)
    }

    /// Returns the answer to a question, along at most seven aliases (RFC 1034 section 4.3.2).
    ///
    /// The code is `NotImp` for a type other than ANY that no record has, before memory is taken; otherwise it is `Refused` for
    /// a class other than `IN`.
    pub fn answer(&self, query: &Query) -> Result<AuthorityAnswer, AllocError>
        ensures answer { IfOk result (λ answer. answer
            ≡ authority_answer self.now.any self.now.server query.now) }
        ensures unanswered { is_unanswered query.now.query_type ≡ true
            → result ≡ Ok (refusal ResponseCode.NotImp) }
    {
        self.view().answer(self.alloc, query)
    }
}
