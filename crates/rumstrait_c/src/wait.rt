//! What a lookup waits for.

ghost use Rattle.std.specs.Prelude.{◌≡◌};
ghost use Rattle.rumstrait_c.specs.Waits.{transport_of, wait_of};

use api::lookups::{ENDPOINT_LEN, endpoint_bytes};
use api_resolver::Awaited;
use stub_config::Protocol;

/// What a lookup waits for, as C sees it.
#[repr(C)]
#[derive(Clone, Copy)]
pub struct Wait {
    /// How many questions of the lookup have had their exchange.
    pub exchanges: u64,
    /// How many messages the exchange has sent, with this one.
    pub number: u64,
    /// When the wait ends, in milliseconds of the caller's clock.
    pub deadline: u64,
    /// How the message is sent, by the number of a transport.
    pub transport: u32,
    /// The server that it is sent to.
    pub server: [u8; ENDPOINT_LEN],
}

/// Returns what a lookup waits for, after so many exchanges.
pub(crate) fn wait_of(exchanges: usize, awaited: &Awaited) -> Wait
    ensures { result ≡ wait_of exchanges awaited.now }
{
    Wait {
        exchanges: exchanges as u64,
        number: awaited.number,
        deadline: awaited.deadline,
        transport: transport_of(awaited.outgoing.protocol),
        server: endpoint_bytes(awaited.outgoing.server),
    }
}

/// Returns the number of the transport of a protocol.
fn transport_of(protocol: Protocol) -> u32
    ensures { result ≡ transport_of protocol }
{
    match protocol {
        Protocol::Udp => 0,
        Protocol::Tcp => 1,
    }
}
