//! A link to the server of a zone, in memory, which follows a script.

ghost use Rattle.std.specs.Prelude.{◌≡◌, ◌∷◌, ◌++◌, ◌≤◌, [], ℕ, List, Option, None, Some, Ok, Err, false, true, OnOk, OnErr, IfOk, IsOk, map, option_map, reverse, slice_get};
ghost use Rattle.std.specs.Option.{option_copied};
ghost use Rattle.stub_link.specs.LinkState.{with_last};
ghost use Rattle.stub_link.specs.ScriptedLink.{named_place, places_of};

use crate::link::script::{LinkEvent, Script};
use crate::link::server::{Server, newest};
use crate::link::{Link, LinkError};
use dns_zone::{DatagramLimit, Zone};
use std::alloc::{AllocError, Global};

/// A link to the server of a zone, in memory, which follows a script.
///
/// Under [`Script::Listed`] it loses, repeats, delays and reorders datagrams. A new link follows [`Script::Honest`].
#[derive(Drop)]
pub struct ScriptedLink {
    alloc: Global,
    server: Server,
    is_honest: bool,
    /// The datagrams that the honest script has not delivered yet, the oldest first.
    under_way: Vec<Vec<u8>>,
    /// What is left of a listed script, the next event last.
    events: Vec<LinkEvent>,
    /// Whether the event is an update.
    is_update: bool,
    /// The datagrams that were sent, but for those of updates, the oldest first.
    datagrams: Vec<Vec<u8>>,
    /// The datagram of each update event, the oldest first, or `None` if it was not sent.
    updates: Vec<Option<Vec<u8>>>,
    failures: u64,
    out_of_memory: bool,
}

impl ScriptedLink {
    ghost use Rattle.std.specs.Prelude.{Result};
    ghost use Rattle.std.specs.List.{fold, list_any};
    ghost use Rattle.dns_messages.specs.declared.message.Message.{Message};
    ghost use Rattle.stub_link.specs.Link.{Rises, datagram_of};
    ghost use Rattle.stub_link.specs.LinkState.{Course, LinkState, first_link_state, begin_event, begin_update, course_of, deliver_event, deliver_rest, end_event, is_delivery, receive, send};
    ghost use Rattle.stub_link.specs.ScriptedLink.{AreRelated, CountsFailure, FrontDecides, HasSent, IsAt, IsBegun, IsCourse, IsDecided, IsDelivered, IsEnded, IsListed, IsReceived, IsRequest, ReceivesHonestly, ReceivesListed, Shows, TakesFail, UnlessMemory, bytes_of, is_out_of_memory};

    /// Creates a link to a server of the zone whose datagrams have at most `limit` bytes.
    pub fn new(alloc: Global, zone: Zone, limit: DatagramLimit) -> Self
        ensures state { IsAt result (first_link_state zone limit) }
        ensures memory { is_out_of_memory result ≡ false }
    {
        ScriptedLink {
            alloc,
            server: Server::new(alloc, zone, limit),
            is_honest: true,
            under_way: Vec::new(alloc),
            events: Vec::new(alloc),
            is_update: false,
            datagrams: Vec::new(alloc),
            updates: Vec::new(alloc),
            failures: 0,
            out_of_memory: false,
        }
    }

    /// Returns `true` if the link or its server has run out of memory.
    pub fn is_out_of_memory(&self) -> bool
        ensures { result ≡ is_out_of_memory self.now }
    {
        self.out_of_memory
    }

    /// Begins an event, during which the link follows a script. What was left of the script before is dropped.
    pub fn begin_event(&mut self, script: &Script) -> Result<(), AllocError>
        ensures begins { IsBegun self.old result self.new
            (λ moment state. begin_event moment script.now state) }
        ensures refused { OnErr result (IsListed script.now) }
    {
        let begun = self.follow(script);
        self.is_update = false;
        self.note_refusal(begun)
    }

    /// Begins an event that sends an update: the next datagram is the update's.
    pub fn begin_update(&mut self, script: &Script) -> Result<(), AllocError>
        ensures { IsBegun self.old result self.new
            (λ moment state. begin_update moment script.now state) }
    {
        let begun = self.follow_with_update(script);
        self.is_update = true;
        self.note_refusal(begun)
    }

    /// Ends an event: the datagrams that its script has not delivered yet are delivered. If there are none, no memory is
    /// taken.
    pub fn end_event(&mut self) -> Result<(), AllocError>
        ensures { IsEnded self.old result self.new }
    {
        let ended = self.deliver_rest();
        self.is_honest = true;
        self.note_refusal(ended)
    }

    /// Follows a script from its beginning.
    fn follow(&mut self, script: &Script) -> Result<(), AllocError>
        ensures course { OnOk result (IsCourse self.new (course_of script.now)) }
        ensures refused { OnErr result (IsListed script.now) }
        ensures rest { self.new ≡ record self.old {
          is_honest = self.new.is_honest;
          under_way = self.new.under_way;
          events = self.new.events;
        } }
    {
        self.under_way.clear();
        self.events.clear();
        match script {
            Script::Honest => self.is_honest = true,
            Script::Listed(events) => {
                self.is_honest = false;
                self.events.extend_from_slice(events.as_slice())?;
                self.events.reverse();
            }
        }
        Ok(())
    }

    /// Follows a script from its beginning, with a place for the datagram of an update.
    fn follow_with_update(&mut self, script: &Script) -> Result<(), AllocError>
        ensures course { OnOk result (IsCourse self.new (course_of script.now)) }
        ensures place { OnOk result (places_of self.new.updates
            ≡ places_of self.old.updates ++ None ∷ []) }
        ensures rest { self.new ≡ record self.old {
          is_honest = self.new.is_honest;
          under_way = self.new.under_way;
          events = self.new.events;
          updates = self.new.updates;
        } }
    {
        self.follow(script)?;
        self.updates.push(None)?;
        Ok(())
    }

    /// Delivers what the script has not delivered yet.
    fn deliver_rest(&mut self) -> Result<(), AllocError>
        ensures ends { OnOk result ((state : LinkState) → (course : Course) → HasSent self.old state
            → IsCourse self.old course → HasSent self.new (deliver_rest course state)) }
        ensures empty { OnOk result (
            (self.new.under_way.items ≡ []) × (self.new.events.items ≡ [])) }
        ensures decided { IsDelivered self.old → IsOk result }
        ensures rest { self.new ≡ record self.old {
          server = self.new.server;
          under_way = self.new.under_way;
          events = self.new.events;
        } }
    {
        self.server.deliver_all(self.under_way.as_slice())?;
        self.under_way.clear();
        self.deliver_events()
    }

    /// Delivers the questions and updates that are left of a listed script, and drops the rest of it.
    fn deliver_events(&mut self) -> Result<(), AllocError>
        ensures ends { OnOk result ((state : LinkState) → HasSent self.old state
            → HasSent self.new (fold deliver_event state (reverse self.old.events.items))) }
        ensures empty { OnOk result (self.new.events.items ≡ []) }
        ensures decided { list_any is_delivery self.old.events.items ≡ false → IsOk result }
        ensures rest { self.new ≡ record self.old {
          server = self.new.server;
          events = self.new.events;
        } }
    {
        while let Some(event) = self.events.pop() {
            self.deliver_event(event)?;
        }
        Ok(())
    }

    /// Delivers the datagram that an event names, if it names one.
    fn deliver_event(&mut self, event: LinkEvent) -> Result<(), AllocError>
        ensures delivers { OnOk result ((state : LinkState) → HasSent self.old state
            → HasSent self.new (deliver_event state event)) }
        ensures decided { is_delivery event ≡ false → IsOk result }
        ensures rest { self.new ≡ record self.old { server = self.new.server } }
    {
        match event {
            LinkEvent::Question(n) => {
                self.server
                    .deliver_named(newest(self.datagrams.as_slice(), n))
            }
            LinkEvent::Update(k) => self.server.deliver_named(place(self.updates.as_slice(), k)),
            LinkEvent::Reply(_) | LinkEvent::Quiet | LinkEvent::Fail => Ok(()),
        }
    }

    /// Receives by the script.
    fn receive(&mut self) -> Result<Option<Vec<u8>>, LinkError>
        ensures receives { UnlessMemory result ((state : LinkState) → Shows self.old state
            → (datagram : Result (Option Message) LinkError) × (after : LinkState)
            × IsReceived (datagram_of result) datagram × Shows self.new after
            × (receive state ≡ record { datagram = datagram; state = after })
            × (after.out_of_memory ≡ state.out_of_memory)) }
        ensures memory { self.new.out_of_memory ≡ self.old.out_of_memory }
        ensures decided { IsDecided self.old (datagram_of result) }
        ensures counts { CountsFailure result self.old.failures self.new.failures }
        ensures kept { self.old.failures ≤ self.new.failures }
        ensures fails { result ≡ Err LinkError.Failed → Rises self.old.failures self.new.failures }
    {
        if self.is_honest {
            Ok(self.receive_honestly()?)
        } else {
            self.receive_listed()
        }
    }

    /// Delivers the oldest datagram that the honest script has not delivered yet, and returns its reply.
    fn receive_honestly(&mut self) -> Result<Option<Vec<u8>>, AllocError>
        ensures receives { IfOk result (λ received. (state : LinkState) → (under_way : List Message)
            → HasSent self.old state → AreRelated IsRequest (bytes_of self.old.under_way) under_way
            → ReceivesHonestly self.old (option_map (λ bytes. bytes.items) received) self.new state
            under_way) }
        ensures decided { self.old.under_way.items ≡ [] → result ≡ Ok None }
        ensures rest { self.new ≡ record self.old {
          server = self.new.server;
          under_way = self.new.under_way;
        } }
    {
        if self.under_way.is_empty() {
            return Ok(None);
        }
        let bytes = self.under_way.remove(0);
        if self.server.deliver(bytes.as_slice())? {
            self.server.reply(0)
        } else {
            Ok(None)
        }
    }

    /// Receives by a listed script: follows it up to a reply, `Quiet`, `Fail` or its end.
    fn receive_listed(&mut self) -> Result<Option<Vec<u8>>, LinkError>
        ensures receives { UnlessMemory result ((state : LinkState) → HasSent self.old state
            → ReceivesListed self.old (datagram_of result) self.new state) }
        ensures decided { FrontDecides (reverse self.old.events.items) (datagram_of result) }
        ensures counts { CountsFailure result self.old.failures self.new.failures }
        ensures rest { self.new ≡ record self.old {
          server = self.new.server;
          events = self.new.events;
          failures = self.new.failures;
        } }
        ensures kept { self.old.failures ≤ self.new.failures }
        ensures fails { result ≡ Err LinkError.Failed → Rises self.old.failures self.new.failures }
    {
        while let Some(event) = self.events.pop() {
            match event {
                LinkEvent::Quiet => return Ok(None),
                LinkEvent::Fail => return Err(self.fail()),
                LinkEvent::Reply(n) => {
                    if let Some(bytes) = self.server.reply(n)? {
                        return Ok(Some(bytes));
                    }
                }
                LinkEvent::Question(_) => self.deliver_event(event)?,
                LinkEvent::Update(_) => self.deliver_event(event)?,
            }
        }
        Ok(None)
    }

    /// Uses up `Fail`, if it is in front of the script.
    fn takes_fail(&mut self) -> bool
        ensures { TakesFail self.old result self.new }
    {
        match self.events.last() {
            Some(LinkEvent::Fail) => {
                self.events.pop();
                true
            }
            _ => false,
        }
    }

    /// Counts a failure.
    fn fail(&mut self) -> LinkError
        ensures error { result ≡ LinkError.Failed }
        ensures rises { Rises self.old.failures self.new.failures }
        ensures kept { self.old.failures ≤ self.new.failures }
        ensures rest { self.new ≡ record self.old { failures = self.new.failures } }
    {
        self.failures = self.failures.saturating_add(1);
        LinkError::Failed
    }

    /// Records a datagram that is sent.
    fn record_datagram(&mut self, bytes: &[u8]) -> Result<(), AllocError>
        ensures sent { OnOk result ((state : LinkState) → (m : Message) → Shows self.old state
            → IsRequest bytes.now m → Shows self.new (send m state)) }
        ensures memory { self.new.out_of_memory ≡ self.old.out_of_memory }
        ensures failures { self.new.failures ≡ self.old.failures }
    {
        self.put_under_way(bytes)?;
        if self.is_update {
            replace_last(self.alloc, &mut self.updates, bytes)
        } else {
            push_copy(self.alloc, &mut self.datagrams, bytes)
        }
    }

    /// Puts a copy of a datagram under way, if the script is honest.
    fn put_under_way(&mut self, bytes: &[u8]) -> Result<(), AllocError>
        ensures honest { OnOk result (self.old.is_honest ≡ true
            → bytes_of self.new.under_way ≡ bytes_of self.old.under_way ++ bytes.now ∷ []) }
        ensures listed { self.old.is_honest ≡ false → self.new.under_way ≡ self.old.under_way }
        ensures rest { self.new ≡ record self.old { under_way = self.new.under_way } }
    {
        if self.is_honest {
            push_copy(self.alloc, &mut self.under_way, bytes)?;
        }
        Ok(())
    }

    /// Remembers that memory was refused.
    fn note_refusal(&mut self, done: Result<(), AllocError>) -> Result<(), AllocError>
        ensures same { result ≡ done }
        ensures ok { OnOk done (self.new ≡ self.old) }
        ensures err { OnErr done (self.new ≡ record self.old { out_of_memory = true }) }
    {
        if done.is_err() {
            self.out_of_memory = true;
        }
        done
    }
}

/// Returns the datagram of an update, if it was sent.
fn place(updates: &[Option<Vec<u8>>], k: usize) -> Option<&[u8]>
    ensures { option_copied result
        ≡ named_place (slice_get (map (option_map (λ b. b.items)) updates.now) k) }
{
    match updates.get(k) {
        Some(Some(bytes)) => Some(bytes.as_slice()),
        _ => None,
    }
}

/// Replaces the last place with a copy of the datagram of an update.
fn replace_last(
    alloc: Global,
    updates: &mut Vec<Option<Vec<u8>>>,
    bytes: &[u8],
) -> Result<(), AllocError>
    ensures { OnOk result (places_of updates.new
        ≡ with_last (Some bytes.now) (places_of updates.old)) }
{
    let copy = Vec::from_slice(alloc, bytes)?;
    updates.pop();
    updates.push(Some(copy))?;
    Ok(())
}

/// Appends a copy of a datagram.
fn push_copy(alloc: Global, datagrams: &mut Vec<Vec<u8>>, bytes: &[u8]) -> Result<(), AllocError>
    ensures { OnOk result (map (λ b. b.items) datagrams.new.items
        ≡ map (λ b. b.items) datagrams.old.items ++ bytes.now ∷ []) }
{
    let copy = Vec::from_slice(alloc, bytes)?;
    datagrams.push(copy)?;
    Ok(())
}

impl Link for ScriptedLink {
    ghost use Rattle.stub_link.specs.ScriptedLink.{Receives, Sends, Streams};

    ghost sends = { λ old bytes result new. Sends old bytes result new };

    ghost receives = { λ old received new. Receives old received new };

    ghost streams = { λ old bytes result new. Streams old bytes result new };

    ghost failure_count = { λ link. link.failures };

    fn send_datagram(&mut self, bytes: &[u8]) -> Result<(), LinkError> {
        if self.takes_fail() {
            return Err(self.fail());
        }
        let sent = self.record_datagram(bytes);
        Ok(self.note_refusal(sent)?)
    }

    fn next_datagram(&mut self) -> Result<Option<Vec<u8>>, LinkError> {
        match self.receive() {
            Ok(received) => Ok(received),
            Err(LinkError::Failed) => Err(LinkError::Failed),
            Err(LinkError::Memory) => {
                self.out_of_memory = true;
                // The link ran out of memory.
                Err(LinkError::Memory)
            }
        }
    }

    fn ask_stream(&mut self, bytes: &[u8]) -> Result<Vec<u8>, LinkError> {
        if self.takes_fail() {
            return Err(self.fail());
        }
        match self.server.ask_stream(bytes) {
            Ok(Some(reply)) => Ok(reply),
            Ok(None) => Err(self.fail()),
            Err(error) => {
                self.out_of_memory = true;
                Err(LinkError::from(error))
            }
        }
    }

    fn failures(&self) -> u64 {
        self.failures
    }
}
