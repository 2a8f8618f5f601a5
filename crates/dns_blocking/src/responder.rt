//! What replies to the requests of a server.

ghost use Rattle.std.specs.Prelude.{◌≡◌, IfOk, OnErr, option_map};

use dns_server::{ListResponder, Responder, Server, Updates};
use dns_zone::{Transport, Zone};
use std::alloc::AllocError;

/// Replies to requests, whose transport limits the size of their replies.
pub trait DatagramResponder {
    ghost use Rattle.std.specs.Prelude.{List, ℕ, Option};
    ghost use Rattle.dns_zone.specs.declared.transport.Transport.{Transport};

    /// Whether a request that arrives over a transport has a reply, or none, and leaves the responder in a state.
    ghost replies: { Self → Transport → List ℕ → Option (List ℕ) → Self → Type 0 };

    /// Returns the reply to a request that arrives over a transport, or `None` if it has none. An error leaves the responder
    /// unchanged.
    fn reply_by(
        &mut self,
        request: &[u8],
        transport: Transport,
    ) -> Result<Option<Vec<u8>>, AllocError>
        ensures ok { IfOk result (λ reply. replies self.old transport request.now
            (option_map (λ bytes. bytes.items) reply) self.new) }
        ensures err { OnErr result (self.new ≡ self.old) };
}

/// A zone serves queries, and updates from anyone.
impl DatagramResponder for Zone {
    ghost use Rattle.dns_zone.specs.Serving.{Serves};

    ghost replies = { λ zone transport request reply after. Serves zone transport request reply after };

    fn reply_by(
        &mut self,
        request: &[u8],
        transport: Transport,
    ) -> Result<Option<Vec<u8>>, AllocError> {
        self.serve(request, transport)
    }
}

/// A server of zones serves queries, and updates from anyone.
impl DatagramResponder for Server {
    ghost use Rattle.dns_server.specs.Server.{Responds};
    ghost use Rattle.dns_server.specs.declared.updates.Updates.TheVariants.{Allowed};

    ghost replies = { λ server transport request reply after.
        Responds server transport Allowed request reply after };

    fn reply_by(
        &mut self,
        request: &[u8],
        transport: Transport,
    ) -> Result<Option<Vec<u8>>, AllocError> {
        self.respond(request, transport, Updates::Allowed)
    }
}

/// Gives the replies of a list, whatever the requests and their transports.
impl<'a> DatagramResponder for ListResponder<'a> {
    ghost use Rattle.std.specs.Prelude.{map};
    ghost use Rattle.dns_server.specs.Serving.{GivesNext};

    ghost replies = { λ now _ _ reply after.
        GivesNext (map (λ bytes. bytes.items) now.left.now) reply
        (map (λ bytes. bytes.items) after.left.now) };

    fn reply_by(
        &mut self,
        request: &[u8],
        _transport: Transport,
    ) -> Result<Option<Vec<u8>>, AllocError> {
        self.reply_to(request, Updates::Refused)
    }
}
