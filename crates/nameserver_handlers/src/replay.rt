//! The requests of a script.

use dns_messages::{MessageType, Metadata};
use dns_sockets::{Handler, Milliseconds, Request, Transport};
use nameserver_cli::replay::{Event, Part, show_answered, show_messages, show_notice};
use std::alloc::{AllocError, Global};

/// Makes the requests of a part of a script, and returns what is printed of them. Before each, the datagrams that are due without a
/// request are sent.
pub fn make_all<H: Handler>(
    alloc: Global,
    part: &Part,
    handler: &mut H,
) -> Result<String, AllocError> {
    let mut printed = String::new(alloc);
    for event in part.events.as_slice() {
        show_notices(alloc, handler, event.moment, &mut printed)?;
        make(alloc, handler, event, &mut printed)?;
    }
    Ok(printed)
}

/// Prints the datagrams that are sent without a request up to a moment.
fn show_notices<H: Handler>(
    alloc: Global,
    handler: &mut H,
    until: Milliseconds,
    printed: &mut String,
) -> Result<(), AllocError> {
    // Each notification is repeated a bounded number of times.
    for _sent in 0..u64::MAX {
        let Some(moment) = handler.next_moment() else {
            return Ok(());
        };
        if moment > until {
            return Ok(());
        }
        let Some(notice) = handler.next_notice(moment) else {
            return Ok(());
        };
        show_notice(alloc, moment, notice.peer, notice.bytes.as_slice(), printed)?;
    }
    Ok(())
}

/// Makes a request as the service does that receives it, and prints what it led to.
fn make<H: Handler>(
    alloc: Global,
    handler: &mut H,
    event: &Event,
    printed: &mut String,
) -> Result<(), AllocError> {
    let request = Request {
        bytes: event.bytes.as_slice(),
        peer: event.peer,
        transport: event.transport,
        moment: event.moment,
    };
    match event.transport {
        Transport::Datagram => {
            if is_response(request.bytes) && handler.take_response(&request) {
                printed.push_str(event.line.as_str())?;
                return printed.push_str(": taken\n");
            }
        }
        Transport::Stream => {
            if let Some(messages) = handler.transfer(&request, false)? {
                return show_messages(alloc, event, messages.as_slice(), printed);
            }
        }
    }
    let deliveries = handler.handle(&[request])?;
    for delivery in deliveries.as_slice() {
        show_answered(alloc, event, delivery, printed)?;
    }
    Ok(())
}

/// Returns `true` for bytes that begin with the header of a response.
fn is_response(bytes: &[u8]) -> bool {
    match Metadata::peek(bytes) {
        Some(metadata) => matches!(metadata.message_type, MessageType::Response),
        None => false,
    }
}
