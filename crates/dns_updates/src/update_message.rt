//! Messages that are dynamic updates (RFC 2136 section 2).

ghost use Rattle.std.specs.Prelude.{◌≡◌, ◌++◌, ◌∷◌, [], OnOk, OnErr};
ghost use Rattle.std.specs.Option.{option_copied};
ghost use Rattle.std.specs.Iterator.{IsFiniteIterable, ExtendsWithItems};

use dns_messages::{Message, Query, Record};
use std::alloc::AllocError;

/// The sections of a message as an update names them (RFC 2136 section 2): zones are its questions, prerequisites its
/// answers, and updates its authority section.
pub trait UpdateMessage {
    ghost use Rattle.dns_messages.specs.declared.message.Message.{Message};

    /// The message.
    ghost message: { Self → Message };

    /// Returns the ID of the message.
    fn id(&self) -> u16
        ensures { result ≡ (message self.now).metadata.id };

    /// Adds a zone.
    fn add_zone(&mut self, zone: Query) -> Result<(), AllocError>
        ensures ok { OnOk result (message self.new
            ≡ record (message self.old) { queries = (message self.old).queries ++ zone ∷ [] }) }
        ensures err { OnErr result (message self.new ≡ message self.old) };

    /// Adds a prerequisite.
    fn add_pre_requisite(&mut self, prerequisite: Record) -> Result<(), AllocError>
        ensures ok { OnOk result (message self.new ≡ record (message self.old)
            { answers = (message self.old).answers ++ prerequisite ∷ [] }) }
        ensures err { OnErr result (message self.new ≡ message self.old) };

    /// Adds prerequisites. If memory runs out, those before are added.
    fn add_pre_requisites<I: IntoIterator<Item = Record>>(
        &mut self,
        prerequisites: I,
    ) -> Result<(), AllocError>
        requires { IsFiniteIterable I.into_iter_gives I.IntoIter.can_next I.IntoIter.remaining
            prerequisites }
        ensures { ExtendsWithItems I.into_iter_gives I.IntoIter.next_gives
            (λ old more new. new ≡ record old { answers = old.answers ++ more })
            prerequisites (message self.old) (message self.new) result };

    /// Adds an update.
    fn add_update(&mut self, update: Record) -> Result<(), AllocError>
        ensures ok { OnOk result (message self.new ≡ record (message self.old)
            { authorities = (message self.old).authorities ++ update ∷ [] }) }
        ensures err { OnErr result (message self.new ≡ message self.old) };

    /// Adds updates. If memory runs out, those before are added.
    fn add_updates<I: IntoIterator<Item = Record>>(&mut self, updates: I) -> Result<(), AllocError>
        requires { IsFiniteIterable I.into_iter_gives I.IntoIter.can_next I.IntoIter.remaining
            updates }
        ensures { ExtendsWithItems I.into_iter_gives I.IntoIter.next_gives
            (λ old more new. new ≡ record old { authorities = old.authorities ++ more })
            updates (message self.old) (message self.new) result };

    /// Adds a record to the additional section.
    fn add_additional(&mut self, additional: Record) -> Result<(), AllocError>
        ensures ok { OnOk result (message self.new ≡ record (message self.old)
            { additionals = (message self.old).additionals ++ additional ∷ [] }) }
        ensures err { OnErr result (message self.new ≡ message self.old) };

    /// Returns the zones. A sound update has one.
    fn zones(&self) -> &[Query]
        ensures { result.now ≡ (message self.now).queries };

    /// Returns the prerequisites.
    fn prerequisites(&self) -> &[Record]
        ensures { result.now ≡ (message self.now).answers };

    /// Returns the updates.
    fn updates(&self) -> &[Record]
        ensures { result.now ≡ (message self.now).authorities };

    /// Returns the additional section, without the OPT record and the signature.
    fn additionals(&self) -> &[Record]
        ensures { result.now ≡ (message self.now).additionals };

    /// Returns the signature.
    fn signature(&self) -> Option<&Record>
        ensures { option_copied result ≡ (message self.now).signature };
}

impl UpdateMessage for Message {
    ghost message = { λ m. m };

    fn id(&self) -> u16 {
        self.metadata.id
    }

    fn add_zone(&mut self, zone: Query) -> Result<(), AllocError> {
        self.queries.push(zone)
    }

    fn add_pre_requisite(&mut self, prerequisite: Record) -> Result<(), AllocError> {
        self.answers.push(prerequisite)
    }

    fn add_pre_requisites<I: IntoIterator<Item = Record>>(
        &mut self,
        prerequisites: I,
    ) -> Result<(), AllocError> {
        self.answers.extend(prerequisites)
    }

    fn add_update(&mut self, update: Record) -> Result<(), AllocError> {
        self.authorities.push(update)
    }

    fn add_updates<I: IntoIterator<Item = Record>>(
        &mut self,
        updates: I,
    ) -> Result<(), AllocError> {
        self.authorities.extend(updates)
    }

    fn add_additional(&mut self, additional: Record) -> Result<(), AllocError> {
        self.additionals.push(additional)
    }

    fn zones(&self) -> &[Query] {
        self.queries.as_slice()
    }

    fn prerequisites(&self) -> &[Record] {
        self.answers.as_slice()
    }

    fn updates(&self) -> &[Record] {
        self.authorities.as_slice()
    }

    fn additionals(&self) -> &[Record] {
        self.additionals.as_slice()
    }

    fn signature(&self) -> Option<&Record> {
        Message::signature(self)
    }
}
