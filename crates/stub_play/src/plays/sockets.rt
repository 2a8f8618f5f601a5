//! A whole run over sockets.

ghost use Rattle.std.specs.Prelude.{◌≡◌, ◌≤◌, true, IfOk};
ghost use Rattle.stub_play.specs.Plays.{IsLoaded, IsPlayed, TellsOver};

use crate::plays::events::play_over_link;
use crate::plays::watcher::Unwatched;
use crate::plays::{Loaded, PlayFault, PlayInput};
use crate::sockets::SocketLink;
use dns_zone::{DatagramLimit, Zone};
use std::alloc::Global;
use std::io;
use std::net::{Net, TcpListener, TcpStream};
use stub_link::LinkError;

/// Runs the events of a script in a world over sockets, and writes each result.
pub(super) fn play_over_sockets<
    R: Net<Listener = TcpListener, Stream = TcpStream> + Drop,
    W: io::Write,
>(net: R, alloc: Global, input: &PlayInput, loaded: Loaded, writer: &mut W) -> Result<(), PlayFault>
    requires limit { 512 ≤ input.now.limit }
    requires datagram { input.now.limit ≤ 65507 }
    requires udp { input.now.udp ≡ true }
    requires loaded { IsLoaded input.now loaded }
    ensures { IsPlayed (TellsOver R input.now) input.now (writer.new ≡ writer.old)
        (W.contents writer.old) (W.contents writer.new) result }
{
    let Loaded {
        zone,
        script,
        hosts,
    } = loaded;
    let link = open_link(net, alloc, input, zone)?;
    play_over_link(alloc, input, link, hosts, &script, writer, &mut Unwatched)
}

/// Opens the sockets of a link to a server of a zone.
pub(super) fn open_link<R: Net<Listener = TcpListener, Stream = TcpStream> + Drop>(
    net: R,
    alloc: Global,
    input: &PlayInput,
    zone: Zone,
) -> Result<SocketLink<R>, LinkError>
    requires limit { 512 ≤ input.now.limit }
    requires datagram { input.now.limit ≤ 65507 }
    ensures zone { IfOk result (λ link. link.zone ≡ zone) }
    ensures limit { IfOk result (λ link. link.limit ≡ input.now.limit) }
{
    let limit = DatagramLimit::new(input.limit).unwrap();
    SocketLink::new(net, alloc, zone, limit)
}
