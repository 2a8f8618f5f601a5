//! What replies to the messages of a stream.

ghost use Rattle.std.specs.Prelude.{◌≡◌, [], ◌∷◌, IfOk, OnErr, option_map, map};

use crate::server::Server;
use crate::updates::Updates;
use dns_zone::Transport;
use std::alloc::{AllocError, Global};

/// Replies to messages that arrive over a stream.
pub trait Responder {
    ghost use Rattle.std.specs.Prelude.{List, ℕ, Option};
    ghost use Rattle.dns_server.specs.declared.updates.Updates.{Updates};

    /// Whether a message from a requestor has a reply, or none, and leaves the responder in a state.
    ghost replies: { Self → Updates → List ℕ → Option (List ℕ) → Self → Type 0 };

    /// Returns the reply to a message, or `None` if it has none. An error leaves the responder unchanged.
    fn reply_to(&mut self, message: &[u8], updates: Updates) -> Result<Option<Vec<u8>>, AllocError>
        ensures ok { IfOk result (λ reply. replies self.old updates message.now
            (option_map (λ bytes. bytes.items) reply) self.new) }
        ensures err { OnErr result (self.new ≡ self.old) };
}

impl Responder for Server {
    ghost use Rattle.dns_zone.specs.declared.transport.Transport.TheVariants.{Stream};
    ghost use Rattle.dns_server.specs.Server.{Responds};

    ghost replies = { λ server updates message reply after.
        Responds server Stream updates message reply after };

    fn reply_to(
        &mut self,
        message: &[u8],
        updates: Updates,
    ) -> Result<Option<Vec<u8>>, AllocError> {
        self.respond(message, Transport::Stream, updates)
    }
}

/// Gives the replies of a list one after another, whatever the messages, and then none.
#[derive(Drop)]
pub struct ListResponder<'a> {
    alloc: Global,
    left: &'a [Vec<u8>],
}

impl<'a> ListResponder<'a> {
    /// Creates a responder that gives these replies.
    pub fn new(alloc: Global, replies: &'a [Vec<u8>]) -> ListResponder<'a>
        ensures { result.left.now ≡ replies.now }
    {
        ListResponder {
            alloc,
            left: replies,
        }
    }
}

impl<'a> Responder for ListResponder<'a> {
    ghost use Rattle.dns_server.specs.Serving.{GivesNext};

    ghost replies = { λ now _ _ reply after.
        GivesNext (map (λ bytes. bytes.items) now.left.now) reply
        (map (λ bytes. bytes.items) after.left.now) };

    fn reply_to(
        &mut self,
        _message: &[u8],
        _updates: Updates,
    ) -> Result<Option<Vec<u8>>, AllocError> {
        let [first, rest @ ..] = self.left else {
            return Ok(None);
        };
        let reply = Vec::from_slice(self.alloc, first.as_slice())?;
        self.left = rest;
        Ok(Some(reply))
    }
}
