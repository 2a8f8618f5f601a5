//! Theorems about what the handler of this crate does, as functions with empty bodies.

ghost use Rattle.std.specs.Prelude.{◌≡◌, ◌++◌, [], ◌∷◌, false, true, List, Option, Some, ℕ};
ghost use Rattle.std.specs.declared.net.socket_addr.SocketAddr.{SocketAddr};
ghost use Rattle.dns_sockets.specs.Handler.{RequestContent};
ghost use Rattle.dns_sockets.specs.Ledger.{Earns};
ghost use Rattle.dns_sockets.specs.Trace.{Act, At, Leads};
ghost use Rattle.dns_sockets.specs.World.{Sent};
ghost use Rattle.dns_sockets.specs.declared.datagrams.WaitingReply.{WaitingReply};
ghost use Rattle.dns_sockets.specs.schedule.Schedule.{Waiting};
ghost use Rattle.nameserver_handlers.specs.ByRules.{Steps};
ghost use Rattle.nameserver_handlers.specs.Handling.{Keeping, KeepsHistories, Serves, keeping};
ghost use Rattle.nameserver_handlers.specs.History.{IsAnswer, NoneUpdates, requests_in};
ghost use Rattle.nameserver_handlers.specs.declared.handler.RequestHandler.{RequestHandler};

use crate::host::Host;
use crate::text_file::TextFile;
use dns_sockets::World;
use std::io::Write;

/// Each datagram that a service sends, and that the system takes, is what its server answered to a request that the same peer had sent
/// to the same socket, in a state to which everything before may have led; or a datagram without a request, as a notification is. Premise:
/// no reply waits when the service begins.
pub fn every_datagram_is_an_answer<D: World, R: Host, S: TextFile, W: Write>()
    ensures { (world new : D) (old after : RequestHandler R S W) (before rest : List Act)
        (socket : ℕ) (bytes : List ℕ) (peer : SocketAddr) (left : List (Waiting WaitingReply))
        → Leads D.performs (λ old event new. Steps S.performs (keeping old) event (keeping new))
        world old (before ++ At (Sent socket bytes peer true) ∷ rest) new after
        → Earns [] left (before ++ At (Sent socket bytes peer true) ∷ rest)
        → IsAnswer D.performs (λ old event new. Steps S.performs (keeping old) event (keeping new))
        world old socket bytes peer before }
{}

/// Whatever happens, the settings of a server stay: how it answers, its keys and grants, the limit of datagrams, the addresses from which
/// it takes updates, and those to which it transfers zones.
pub fn settings_stay<D: World, R: Host, S: TextFile, W: Write>()
    ensures { (world new : D) (old after : RequestHandler R S W) (acts : List Act)
        → Leads D.performs (λ old event new. Steps S.performs (keeping old) event (keeping new))
        world old acts new after
        → after.settings ≡ old.settings }
{}

/// Whatever happens, a server without a journal keeps its zones as they were, unless a request is an update that may be made.
pub fn zones_change_by_permitted_updates<D: World, R: Host, S: TextFile, W: Write>()
    ensures { (world new : D) (old after : RequestHandler R S W) (acts : List Act)
        → Leads D.performs (λ old event new. Steps S.performs (keeping old) event (keeping new))
        world old acts new after
        → old.settings.has_journal ≡ false
        → NoneUpdates old.settings (requests_in acts)
        → after.server.server ≡ old.server.server }
{}

/// After requests that were served, the differences that are kept of each zone lead to its rows, if they did before (RFC 1995 section 4).
pub fn differences_lead_to_zones<S: TextFile>()
    ensures { (old new : Keeping S) (rs : List RequestContent) (replies : List (Option (List ℕ)))
        → Serves S.performs old rs (Some replies) new → KeepsHistories old new }
{}
