//! The zones from before the last update that changed records.

ghost use Rattle.std.specs.Prelude.{◌≡◌, None, IfOk, IfSome, OnOk, OnErr};
ghost use Rattle.dns_messages.specs.Sound.{IsSound};
ghost use Rattle.dns_server.specs.declared.updates.Updates.TheVariants as may;
ghost use Rattle.dns_authority.specs.service.Answering.{IsServiceReply};
ghost use Rattle.dns_nameserver.specs.Former.{former_after, has_changed, updated};

use dns_authority::service::Answering;
use dns_messages::Message;
use dns_server::{Server, Updates, ZoneChange};
use dns_zone::Transport;
use std::alloc::{AllocError, Global};
use std::marker::Model;

/// The zones of a server from before the last update that changed its records. They follow one update behind.
#[derive(Drop)]
pub struct FormerZones {
    /// How updates are made.
    answering: Answering,
    server: Server,
    /// An update that is part of the zones, and still to be applied to those of `server`.
    missing: Option<Message>,
    /// The last update, which is no part of the zones.
    last: Option<Message>,
}

impl Model for FormerZones {
    ghost use Rattle.std.specs.Prelude.{IfSome};
    ghost use Rattle.std.specs.Coded.{codes};
    ghost use Rattle.std.specs.FinMap as rows_map;
    ghost use Rattle.dns_messages.specs.Sound.{IsSound};
    ghost use Rattle.dns_nameserver.specs.Former.{Former, updated};

    ghost Value = { Former };

    ghost coded = { Prim.hlevel (codes, rows_map.code) };

    ghost view = { λ f. record {
      answering = f.answering;
      zones = updated f.answering f.server f.missing;
      last = f.last;
    } };

    ghost invariant = { λ f. IfSome f.missing IsSound × IfSome f.last IsSound };
}

impl FormerZones {
    /// Creates the zones from before the last update of a server that none has changed, given the same zones, and how updates are
    /// made.
    pub fn new(server: Server, answering: Answering) -> FormerZones
        ensures { result ≡ record { answering = answering; zones = server; last = None } }
    {
        FormerZones {
            answering,
            server,
            missing: None,
            last: None,
        }
    }

    /// Follows an update that has changed records of the current zones: what came before it becomes the zones from before the last
    /// update. An error leaves them unchanged.
    pub fn follow(&mut self, alloc: Global, update: &Message) -> Result<(), AllocError>
        requires { IsSound update.now }
        ensures ok { OnOk result (self.new ≡ former_after self.old update.now) }
        ensures err { OnErr result (self.new ≡ self.old) }
    {
        catch_up(alloc, self.answering, &mut self.server, &mut self.missing)?;
        let update = update.clone()?;
        self.missing = self.last.take();
        self.last = Some(update);
        Ok(())
    }

    /// Serves a request by the zones from before the last update. No update is allowed: the zones stay.
    pub fn serve(
        &mut self,
        alloc: Global,
        answering: Answering,
        request: &Message,
        transport: Transport,
    ) -> Result<Vec<u8>, AllocError>
        requires { IsSound request.now }
        ensures reply { IfOk result (λ out.
            IsServiceReply answering may.Refused self.old.zones transport request.now out.items) }
        ensures same { self.new ≡ self.old }
    {
        catch_up(alloc, self.answering, &mut self.server, &mut self.missing)?;
        let served = answering.respond_to(
            alloc,
            &mut self.server,
            request,
            transport,
            Updates::Refused,
        )?;
        Ok(served.reply)
    }
}

/// Applies an update that is missing in zones, if there is one. An error leaves both as they are.
fn catch_up(
    alloc: Global,
    answering: Answering,
    server: &mut Server,
    missing: &mut Option<Message>,
) -> Result<(), AllocError>
    requires { IfSome missing.old IsSound }
    ensures zones { OnOk result (server.new ≡ updated answering server.old missing.old) }
    ensures none { OnOk result (missing.new ≡ None) }
    ensures err { OnErr result (server.new ≡ server.old) }
    ensures still { OnErr result (missing.new ≡ missing.old) }
{
    if let Some(update) = missing {
        let _served = answering.respond_to(
            alloc,
            server,
            update,
            Transport::Stream,
            Updates::Allowed,
        )?;
    }
    *missing = None;
    Ok(())
}

/// Returns `true` for a change that deletes or adds a record.
pub fn has_changed(change: &Option<ZoneChange>) -> bool
    ensures { result ≡ has_changed change.now }
{
    match change {
        Some(change) => !change.difference.is_empty(),
        None => false,
    }
}
