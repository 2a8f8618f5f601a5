//! The examples of the README: a name server for tests, and the answers of a message.

use dns_messages::Message;
use dns_wire::DecodeError;
use dns_zone::{Transport, Zone, ZoneFault};
use std::alloc::Global;
use std::fmt::Write;
use std::test::Fail;

/// Returns the reply of a name server with a small zone, or `None` if the bytes are not a query.
fn reply_to(alloc: Global, request: &[u8]) -> Result<Option<Vec<u8>>, ZoneFault> {
    let text = "$ORIGIN t.\n\
                $TTL 60\n\
                @ SOA ns h ( 1 1h 10m 1d 30 )\n\
                a A 10.0.0.1\n";
    let mut zone = Zone::from_text(alloc, text, &[], None)?;
    Ok(zone.serve(request, Transport::Stream)?)
}

/// Decodes a message and formats the records of its answer section, one per line.
fn answer_lines(alloc: Global, message: &[u8]) -> Result<String, DecodeError> {
    let message = Message::from_vec(alloc, message)?;
    let mut lines = String::new(alloc);
    for record in message.answers.as_slice() {
        writeln!(lines, "{record}")?;
    }
    Ok(lines)
}

/// A request for `a.t. A` with the id 1 and RD (RFC 1035 section 4.1).
const REQUEST: [u8; 21] = [
    0, 1, 1, 0, 0, 1, 0, 0, 0, 0, 0, 0, 1, b'a', 1, b't', 0, 0, 1, 0, 1,
];

#[test]
fn the_server_replies_with_the_address(rt: HostRuntime) -> Result<(), Fail> {
    let Some(reply) = reply_to(rt.alloc(), &REQUEST)? else {
        return Err(Fail::new("no reply"));
    };
    let lines = answer_lines(rt.alloc(), reply.as_slice())?;
    assert_eq!(rt; lines.as_str(), "a.t. 60 IN A 10.0.0.1\n");
    Ok(())
}

#[test]
fn the_server_ignores_a_truncated_request(rt: HostRuntime) -> Result<(), Fail> {
    let reply = reply_to(rt.alloc(), &REQUEST[..20])?;
    assert!(rt; reply.is_none());
    Ok(())
}
