//! The frames of a connection are served.

ghost use Rattle.std.specs.Prelude.{◌≡◌, None, IfOk, OnOk, OnErr};
ghost use Rattle.dns_server.specs.Connection.{next_message};
ghost use Rattle.dns_server.specs.Serving.{IsServed, IsServedInPart, ServesNext, MayHaveReplied};

use crate::connection::Connection;
use crate::responder::Responder;
use crate::updates::Updates;
use std::alloc::AllocError;

/// Serves the whole frames of a connection, in order, until only a part of one is left or too many bytes wait to be written.
///
/// An error leaves the frames that are not served. The message of the first of them may have changed the responder if the
/// connection had no memory for its reply.
pub fn serve_frames<R: Responder>(
    connection: &mut Connection,
    responder: &mut R,
    updates: Updates,
) -> Result<(), AllocError>
    ensures ok { OnOk result (IsServed (λ s. R.replies s updates) responder.old connection.old
        responder.new connection.new) }
    ensures done { OnOk result (next_message connection.new ≡ None) }
    ensures err { OnErr result (IsServedInPart (λ s. R.replies s updates)
        responder.old connection.old responder.new connection.new) }
{
    while serve_frame(connection, responder, updates)? {}
    Ok(())
}

/// Serves the next message of a connection, and returns `false` if there is none.
fn serve_frame<R: Responder>(
    connection: &mut Connection,
    responder: &mut R,
    updates: Updates,
) -> Result<bool, AllocError>
    ensures ok { IfOk result (ServesNext (λ s. R.replies s updates) responder.old connection.old
        responder.new connection.new) }
    ensures connection { OnErr result (connection.new ≡ connection.old) }
    ensures err { OnErr result (MayHaveReplied (λ s. R.replies s updates)
        responder.old connection.old responder.new) }
{
    let Some(message) = connection.next_message() else {
        return Ok(false);
    };
    match responder.reply_to(message, updates)? {
        Some(reply) => connection.complete(Some(reply.as_slice()))?,
        None => connection.complete(None)?,
    }
    Ok(true)
}
