//! Events over sockets.

ghost use Rattle.std.specs.Prelude.{◌≡◌, Ok};

use crate::sockets::socket_link::SocketLink;
use std::alloc::AllocError;
use std::net::{Net, TcpListener, TcpStream};
use stub_run::{Event, EventLink};

/// Sockets follow no script: an event begins and ends as the link is.
impl<R: Net<Listener = TcpListener, Stream = TcpStream> + Drop> EventLink for SocketLink<R> {
    ghost begins = { λ old _ new. new ≡ old };

    ghost ends = { λ old result new. (result ≡ Ok tt) × (new ≡ old) };

    ghost is_out = { λ link. link.out_of_memory };

    fn begin(&mut self, _event: &Event) -> Result<(), AllocError> {
        Ok(())
    }

    fn end(&mut self) -> Result<(), AllocError> {
        Ok(())
    }

    fn has_run_out(&self) -> bool {
        self.is_out_of_memory()
    }
}
