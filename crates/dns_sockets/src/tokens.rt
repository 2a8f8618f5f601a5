//! The tokens of sockets.

ghost use Rattle.std.specs.Prelude.{◌≡◌, ◌+◌, ◌*◌, ◌/◌, ◌%◌, ◌<◌};
ghost use Rattle.dns_sockets.specs.Tokens.{index_of, kind_of, socket_of};

use mio::Token;

/// Which socket has an event.
#[derive(Clone, Copy, Debug, PartialEq, Eq)]
pub(crate) enum SocketToken {
    /// The datagram socket at the address of this index.
    Datagrams(usize),
    /// The listener at the address of this index.
    Listener(usize),
    /// The connection at this index of the table.
    Stream(usize),
    /// Standard input.
    Input,
}

/// The number of kinds of sockets.
const KINDS: usize = 4;

impl SocketToken {
    /// Returns the token under which the socket is registered: another one for each socket, as there are fewer than 2^62 of a kind.
    pub(crate) fn to_token(self) -> Token
        ensures { index_of self * 4 + kind_of self < 18446744073709551616
            → result.0 ≡ index_of self * 4 + kind_of self }
    {
        let (index, kind) = match self {
            SocketToken::Datagrams(index) => (index, 0),
            SocketToken::Listener(index) => (index, 1),
            SocketToken::Stream(index) => (index, 2),
            SocketToken::Input => (0, 3),
        };
        Token(index.saturating_mul(KINDS).saturating_add(kind))
    }

    /// Returns the socket that is registered under a token.
    pub(crate) fn from_token(token: Token) -> SocketToken
        ensures { result ≡ socket_of (token.0 % 4) (token.0 / 4) }
    {
        let index = token.0 / KINDS;
        match token.0 % KINDS {
            0 => SocketToken::Datagrams(index),
            1 => SocketToken::Listener(index),
            2 => SocketToken::Stream(index),
            _ => SocketToken::Input,
        }
    }
}
