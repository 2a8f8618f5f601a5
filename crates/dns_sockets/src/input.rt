//! The end of standard input.

use crate::tokens::SocketToken;
use mio::unix::SourceFd;
use mio::{Interest, Registry};
use std::io::{self, ErrorKind, Input, Read};

/// The descriptor of standard input.
const STANDARD_INPUT: i32 = 0;

/// The number of bytes that are read at once, and dropped.
const PIECE_LEN: usize = 4_096;

/// Asks the system for events of standard input. Returns `false` if it is a file, or closed, for which nobody can wait.
pub(crate) fn watch_input(registry: &Registry) -> bool {
    let mut source = SourceFd(&STANDARD_INPUT);
    let token = SocketToken::Input.to_token();
    registry
        .register(&mut source, token, Interest::READABLE)
        .is_ok()
}

/// Asks the system for another event of standard input, also of what is there already. Returns `false` if it cannot be waited for.
fn watch_again(registry: &Registry) -> bool {
    let mut source = SourceFd(&STANDARD_INPUT);
    let token = SocketToken::Input.to_token();
    registry
        .reregister(&mut source, token, Interest::READABLE)
        .is_ok()
}

/// Reads what has arrived at standard input, and returns `true` if it is at its end, or cannot be read. If it is not, a further
/// event follows as soon as there is more to read, or the end.
pub(crate) fn has_ended<I: Input>(input: &I, registry: &Registry) -> bool {
    let mut piece = [0u8; PIECE_LEN];
    match input.reader().read(&mut piece) {
        Ok(count) => count == 0 || !watch_again(registry),
        Err(error) => error.kind() != ErrorKind::Interrupted
            && error.kind() != ErrorKind::WouldBlock,
    }
}
