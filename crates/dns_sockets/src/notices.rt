//! Datagrams that are sent without a request, and the responses to them.

ghost use Rattle.std.specs.Prelude.{◌≡◌};
ghost use Rattle.dns_sockets.specs.Events.{Performs};
ghost use Rattle.dns_sockets.specs.Notices.{AreNotices, AreTries, is_response, sooner};
ghost use Rattle.dns_sockets.specs.Trace.{Traces};

use crate::clock::Milliseconds;
use crate::handler::{Handler, Notice};
use crate::world::World;

/// How many datagrams are sent without a request before others have their turn.
const MAX_BATCH: usize = 64;

/// The bit of the third byte of a message that says that it is a response (RFC 1035 section 4.1.1).
const RESPONSE_BIT: u8 = 0x80;

/// Returns `true` for bytes that begin as a response does.
pub(crate) fn is_response(bytes: &[u8]) -> bool
    ensures { result ≡ is_response bytes.now }
{
    match bytes {
        [_, _, flags, ..] => *flags >= RESPONSE_BIT,
        _ => false,
    }
}

/// Returns the earlier of a moment and another, if there is one.
pub(crate) fn sooner(moment: Milliseconds, other: Option<Milliseconds>) -> Milliseconds
    ensures { result ≡ sooner moment other }
{
    match other {
        Some(other) => moment.min(other),
        None => moment,
    }
}

/// Sends the datagrams that are due without a request, at most 64 of them, from one of so many sockets.
pub(crate) fn send_notices<W: World, H: Handler>(
    world: &mut W,
    sockets: usize,
    handler: &mut H,
    now: Milliseconds,
)
    ensures { Traces W.performs H.steps world.old handler.old world.new handler.new
        (AreNotices 64 sockets now) }
{
    for _notice in 0..MAX_BATCH {
        let Some(notice) = handler.next_notice(now) else {
            return;
        };
        send(world, sockets, &notice);
    }
}

/// Sends a datagram from the first socket that can send to its address. One that none takes is lost, as any datagram may be.
fn send<W: World>(world: &mut W, sockets: usize, notice: &Notice)
    ensures { Performs W.performs world.old world.new
        (AreTries 0 sockets notice.now.bytes.items notice.now.peer) }
{
    for socket in 0..sockets {
        if world.send(socket, notice.bytes.as_slice(), notice.peer) {
            return;
        }
    }
}
