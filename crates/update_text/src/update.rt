//! The words of an update (RFC 2136 section 2): `<action> <name> ..`.
//!
//! The actions are `create` and `append` (`<ttl> <type> <data>`), `swap` (`<ttl> <type> <data> -> <data>`),
//! `delete-record` (`<type> <data>`), `delete-set` (`<type>`), and `delete-name`. The zone's origin completes names.
//!
//! - `action`: the actions; `additions`, `swap` and `deletions`: the messages of each
//! - `record_words`: a TTL, a type, and the words of data; `sets`: sets of one record

ghost use Rattle.std.specs.Prelude.{◌≡◌, ◌<◌, [], IfOk, IsOk, length, map};
ghost use Rattle.update_text.specs.Update.{IsAction, IsMessage, IsSendable, IsUpdateOf, IsUpdateText, owner_of};
ghost use Rattle.update_text.specs.Words.{texts};

use crate::words::words_alone;
use action::{Action, parse_action};
use dns_messages::Message;
use dns_names::{Name, ParseError};
use dns_zone_file::Types;
use std::alloc::{AllocError, Global};
use std::marker::Model;
use stub_link::UpdateEvent;

mod action;
mod additions;
mod deletions;
mod record_words;
mod sets;
mod swap;

/// Parses the text of an update: words without a semicolon. `origin` is that of the zone, `id` is that of the message, and
/// `types` are those that data may have.
///
/// The result is `None` if the text is no update of the zone, or if its message cannot be sent. An empty text takes no memory.
pub fn parse_update(
    alloc: Global,
    text: &[u8],
    origin: &Name,
    id: u16,
    types: Types,
) -> Result<Option<UpdateEvent>, AllocError>
    ensures update { IfOk result (IsUpdateText types origin.now id text.now) }
    ensures empty { text.now ≡ [] → IsOk result }
{
    if text.is_empty() {
        return Ok(None);
    }
    match words_alone(alloc, text)? {
        Some(words) => read_update(alloc, words.as_slice(), origin, id, types),
        None => Ok(None),
    }
}

/// Reads an update from its words: an action, an owner, and what the action says of it. The origin is that of the zone, the update
/// has this id, and its data is of the types that zone files may have.
///
/// The result is `None` if the words are no update of the zone, or if its message cannot be sent: one that deletes a set of type
/// `OPT` would be decoded as another, and one may be too long. Fewer than two words take no memory.
pub fn read_update(
    alloc: Global,
    arguments: &[Vec<u8>],
    origin: &Name,
    id: u16,
    types: Types,
) -> Result<Option<UpdateEvent>, AllocError>
    ensures update { IfOk result
        (IsUpdateOf types origin.now id (map (λ word. word.items) arguments.now)) }
    ensures short { length arguments.now < 2 → IsOk result }
{
    let reader = UpdateReader {
        alloc,
        origin,
        id,
        types,
    };
    match reader.read_message(arguments)? {
        Some(message) => Ok(sendable(message)),
        None => Ok(None),
    }
}

/// Returns the update of a message, if it can be sent.
fn sendable(message: Message) -> Option<UpdateEvent>
    ensures { IsSendable (Some message) result }
{
    match UpdateEvent::new(message) {
        Ok(update) => Some(update),
        Err(_) => None,
    }
}

/// A reader of the words of updates of a zone.
#[derive(Drop)]
struct UpdateReader<'a> {
    /// Allocates what the updates own.
    alloc: Global,
    /// The origin of the zone, which completes names.
    origin: &'a Name,
    /// The id of the messages.
    id: u16,
    /// The types that data may have.
    types: Types,
}

impl<'a> Model for UpdateReader<'a> {
    ghost use Rattle.update_text.specs.Update.{UpdateContext};

    ghost Value = { UpdateContext };

    ghost view = { λ reader. record {
      origin = reader.origin.now;
      id = reader.id;
      types = reader.types;
    } };
}

impl<'a> UpdateReader<'a> {
    /// Reads the message of an update: an action, an owner, and what the action says of it.
    fn read_message(&self, arguments: &[Vec<u8>]) -> Result<Option<Message>, AllocError>
        ensures message { IfOk result (IsMessage self.now (texts arguments.now)) }
        ensures short { length arguments.now < 2 → IsOk result }
    {
        let [action, owner, arguments @ ..] = arguments else {
            return Ok(None);
        };
        let Some(action) = parse_action(action) else {
            return Ok(None);
        };
        match self.parse_owner(owner)? {
            Some(owner) => self.read_action(action, owner, arguments),
            None => Ok(None),
        }
    }

    /// Parses the owner of an update, which is at or below the origin.
    fn parse_owner(&self, word: &[u8]) -> Result<Option<Name>, AllocError>
        ensures { IfOk result (λ owner. owner ≡ owner_of self.now.origin word.now) }
    {
        match Name::parse_bytes(self.alloc, word, Some(self.origin)) {
            Ok(owner) => {
                if self.origin.zone_of(&owner) {
                    Ok(Some(owner))
                } else {
                    Ok(None)
                }
            }
            // The memory for the name was refused.
            Err(ParseError::Memory) => Err(AllocError),
            Err(_) => Ok(None),
        }
    }

    /// Reads the message of an action on an owner.
    fn read_action(
        &self,
        action: Action,
        owner: Name,
        arguments: &[Vec<u8>],
    ) -> Result<Option<Message>, AllocError>
        ensures { IfOk result
            (IsAction self.now (Some action) (Some owner) (texts arguments.now)) }
    {
        match action {
            Action::Create => self.read_create(owner, arguments),
            Action::Append => self.read_append(owner, arguments),
            Action::Swap => self.read_swap(owner, arguments),
            Action::DeleteRecord => self.read_delete_record(owner, arguments),
            Action::DeleteSet => self.read_delete_set(owner, arguments),
            Action::DeleteName => self.read_delete_name(owner, arguments),
        }
    }
}
