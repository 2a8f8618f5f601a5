//! The text of a zone takes the place of its journal.

ghost use Rattle.std.specs.Prelude.{◌≡◌, ◌<◌, ◌↔◌, ◌∷◌, [], List, ℕ, string_bytes, false, Ok, option_map, unwrap_or, IfErr, IfOk, IfSome, IsOk, IsTrue};
ghost use Rattle.sha2.specs.Sha256.{sha256};
ghost use Rattle.dns_journal.specs.Storage.{Performs};
ghost use Rattle.dns_journal.specs.declared.journal.State.TheVariants as states;
ghost use Rattle.dns_durable.specs.Compaction.{HasOtherText, IsCompactRefusal, IsFileText, IsSuccessor, IsRewritten, IsStatedText, IsTextRefusal, Rewrites, is_want_of_memory};
ghost use Rattle.dns_durable.specs.zone_texts.Stated.{with_origin};

use crate::durable_server::DurableServer;
use crate::error::CompactError;
use crate::recovery::{NewText, compact};
use crate::zone_texts::is_stated;
use dns_journal::format::digest_of;
use dns_journal::{State, Storage};
use dns_names::Name;
use dns_server::Server;
use dns_zone::{Zone, ZoneFault};
use dns_zone_file::Types;
use std::alloc::{AllocError, Global};

/// The text of a zone for its file.
#[derive(Drop)]
pub struct Rewritten {
    /// The text.
    pub text: String,
    /// Its SHA-256 digest.
    pub digest: [u8; 32],
    /// The entry of the updates that it lacks, because they were made while it was written, or nothing.
    pub carried: Vec<u8>,
    /// The zone that was read from it, unless that is known to be the same zone.
    pub zone: Option<Zone>,
}

/// The text of a zone, and the zone that was read from it.
#[derive(Drop)]
struct ReadText {
    text: String,
    zone: Zone,
}

impl<S: Storage> DurableServer<S> {
    /// Returns `true` if a journal that takes updates is longer than a limit, in bytes.
    pub fn is_due(&self, limit: usize) -> bool
        ensures { IsTrue result ↔ ((self.now.journal.position.state ≡ states.Ready)
            × (limit < self.now.journal.position.end)) }
    {
        self.journal.position.state == State::Ready && self.journal.position.end > limit
    }

    /// Returns the text of the zone for its file. The zone that is read from it has the same text. If a zone file can state all data of
    /// the zone, it is the same zone, and is not read.
    ///
    /// # Errors
    ///
    /// - [`CompactError::Zones`] if there is not exactly one zone;
    /// - [`CompactError::Text`] if no zone with the same text is read from the text of the zone;
    /// - [`CompactError::Memory`] if memory is refused.
    pub fn rewrite(&self, alloc: Global) -> Result<Rewritten, CompactError>
        ensures ready { IfOk result (λ r.
            IsSuccessor self.now.server (string_bytes r.text) r.carried.items r.zone) }
        ensures digest { IfOk result (λ r. r.digest ≡ sha256 (string_bytes r.text)) }
        ensures refused { IfErr result (IsTextRefusal self.now.server) }
    {
        match stated_text(alloc, self.server.zones())? {
            Some(text) => {
                let digest = digest_of(text.as_bytes());
                Ok(Rewritten {
                    text,
                    digest,
                    carried: Vec::new(alloc),
                    zone: None,
                })
            }
            None => {
                let ReadText { text, zone } = zone_text(alloc, self.server.zones())?;
                let digest = digest_of(text.as_bytes());
                Ok(Rewritten {
                    text,
                    digest,
                    carried: Vec::new(alloc),
                    zone: Some(zone),
                })
            }
        }
    }

    /// Replaces the text of the journal by one of the zone, and begins a new journal with this key, which has to be drawn at random, and
    /// with the updates that the text lacks. From then on, the zone that is read from the text is served, after these updates.
    ///
    /// # Errors
    ///
    /// - [`CompactError::Journal`] if the journal does not take the mark of the text, as for [`Journal::append`](dns_journal::Journal::append),
    ///   or the storage fails: then the journal has to be opened again;
    /// - [`CompactError::Memory`] if memory is refused before the journal is asked.
    ///
    /// Unless the journal refuses, nothing is asked of the storage, and nothing is changed.
    pub fn replace(
        &mut self,
        alloc: Global,
        key: [u8; 16],
        rewritten: Rewritten,
    ) -> Result<(), CompactError>
        requires digest { rewritten.digest ≡ sha256 (string_bytes rewritten.text) }
        ensures ready { IsOk result → self.old.journal.position.state ≡ states.Ready }
        ensures refused { IsSuccessor self.old.server (string_bytes rewritten.text)
            rewritten.carried.items rewritten.zone
            → IfErr result (IsCompactRefusal self.old.server
            self.old.journal.position self.new.journal.position) }
        ensures key { IsOk result → self.new.journal.position.key ≡ key }
        ensures performs { IsSuccessor self.old.server (string_bytes rewritten.text)
            rewritten.carried.items rewritten.zone
            → Performs S.performs self.old.journal.storage self.new.journal.storage
            (λ es. Rewrites (string_bytes rewritten.text) rewritten.carried.items result
            self.old.journal.position self.new.journal.position self.old.server self.new.server es) }
    {
        let Rewritten {
            text,
            digest,
            carried,
            zone,
        } = rewritten;
        let server = server_of(alloc, zone)?;
        let new = NewText {
            text: text.as_bytes(),
            digest,
            carried: carried.as_slice(),
        };
        match compact(&mut self.journal, alloc, new, key) {
            Ok(()) => {
                serve_again(&mut self.server, server);
                Ok(())
            }
            Err(error) => Err(CompactError::Journal(error)),
        }
    }
}

/// Returns the text of the only zone for its file, if a zone file can state all of its data: then the zone is read from it.
fn stated_text(alloc: Global, zones: &[Zone]) -> Result<Option<String>, AllocError>
    ensures { IfOk result (λ found. IfSome found (λ text.
        IsStatedText zones.now (string_bytes text))) }
{
    let [zone] = zones else {
        return Ok(None);
    };
    if !is_stated(zone) {
        return Ok(None);
    }
    Ok(Some(file_text(alloc, zone)?))
}

/// Returns the text of the only zone for its file, and the zone that is read from it, if that has the same text.
fn zone_text(alloc: Global, zones: &[Zone]) -> Result<ReadText, CompactError>
    ensures rewritten { IfOk result (λ r. IsRewritten zones.now (string_bytes r.text) r.zone) }
    ensures refused { IfErr result (IsTextRefusal zones.now) }
{
    let [zone] = zones else {
        return Err(CompactError::Zones);
    };
    let text = file_text(alloc, zone)?;
    match Zone::from_text_with(alloc, text.as_str(), &[], None, Types::All) {
        Ok(again) => {
            if has_text(alloc, &again, text.as_str())? {
                Ok(ReadText { text, zone: again })
            } else {
                Err(CompactError::Text)
            }
        }
        // Memory was refused while the zone was read.
        Err(fault) if is_want_of_memory(&fault) => Err(CompactError::Memory),
        Err(_) => Err(CompactError::Text),
    }
}

/// Returns `true` if memory was refused while a zone was read.
fn is_want_of_memory(fault: &ZoneFault) -> bool
    ensures { result ≡ is_want_of_memory fault.now }
{
    matches!(fault, ZoneFault::Memory)
}

/// Returns the text of a zone for its file: the line of its origin, which completes the names that are added by hand, and its records.
fn file_text(alloc: Global, zone: &Zone) -> Result<String, AllocError>
    ensures { IfOk result (λ text. IsFileText zone.now (string_bytes text)) }
{
    let records = zone.to_text()?;
    with_origin(alloc, zone.origin(), records.as_str())
}

/// Returns a text behind the line that states an origin.
pub(crate) fn with_origin(alloc: Global, origin: &Name, text: &str) -> Result<String, AllocError>
    ensures { IfOk result (λ whole. string_bytes whole ≡ with_origin origin.now text.now) }
{
    format!(in alloc; "$ORIGIN {origin}\n{text}")
}

/// Returns `true` if a zone has this text.
fn has_text(alloc: Global, zone: &Zone, text: &str) -> Result<bool, CompactError>
    ensures has { IfOk result (λ has. IsTrue has → IsFileText zone.now text.now) }
    ensures lacks { result ≡ Ok false → HasOtherText zone.now text.now }
    ensures refused { IfErr result (λ error. error ≡ CompactError.Memory) }
{
    let other = file_text(alloc, zone)?;
    Ok(other.as_str() == text)
}

/// Returns a server of a zone that was read again, if one was.
fn server_of(alloc: Global, zone: Option<Zone>) -> Result<Option<Server>, CompactError>
    ensures ok { IfOk result (λ server. server ≡ option_map (λ z. z ∷ []) zone) }
    ensures refused { IfErr result (λ error. error ≡ CompactError.Memory) }
{
    let Some(zone) = zone else {
        return Ok(None);
    };
    let mut server = Server::new(alloc);
    match server.add_zone(zone) {
        Ok(()) => Ok(Some(server)),
        // Memory for the zone was refused: there is no other one.
        Err(_) => Err(CompactError::Memory),
    }
}

/// Lets a server take the place of another one, if there is one.
fn serve_again(server: &mut Server, again: Option<Server>)
    ensures { server.new ≡ unwrap_or again server.old }
{
    if let Some(again) = again {
        *server = again;
    }
}
