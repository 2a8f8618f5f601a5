//! Where requests come from.

use dns_sockets::{Handler, Service, SocketWorld};
use nameserver_cli::replay::Part;
use nameserver_cli::{Arguments, Ending, Until};
use nameserver_handlers::{WallClock, make_all};

/// Where requests come from.
pub(crate) enum Source<'s> {
    /// Sockets, until something ends the service.
    Sockets(Sockets<'s>, Until),
    /// A part of a script.
    Script(&'s Part),
}

impl Drop for Source<'_> {
    fn drop(self) {
        match self {
            Source::Sockets(sockets, _until) => drop(sockets),
            Source::Script(_part) => {}
        }
    }
}

/// The sockets of a service.
#[derive(Drop)]
pub(crate) struct Sockets<'s> {
    world: SocketWorld<'s, HostRuntime>,
    service: Service,
}

impl<'s> Source<'s> {
    /// Takes a part of a script, if there is one; else opens the sockets that the arguments name, and prints a line for each address.
    pub(crate) fn open(
        rt: &'s HostRuntime,
        arguments: &Arguments,
        part: Option<&'s Part>,
    ) -> Result<Source<'s>, Ending> {
        match part {
            Some(part) => Ok(Source::Script(part)),
            None => Ok(Source::Sockets(open_sockets(rt, arguments)?, arguments.until)),
        }
    }

    /// Returns the clock that goes with the requests.
    pub(crate) fn clock(&self) -> WallClock {
        match self {
            Source::Sockets(_, _) => WallClock::System,
            Source::Script(part) => WallClock::From(part.start),
        }
    }

    /// Handles the requests, and returns what is printed of those of a script.
    pub(crate) fn run<H: Handler>(
        self,
        rt: &HostRuntime,
        handler: &mut H,
    ) -> Result<String, Ending> {
        match self {
            Source::Sockets(sockets, until) => {
                let Sockets { world, service } = sockets;
                let mut world = world;
                let mut service = service;
                if until == Until::InputEnds {
                    world.end_with_input();
                }
                match service.run(&mut world, handler) {
                    Ok(()) => Ok(String::new(rt.alloc())),
                    Err(error) => Err(Ending::Failed(error)),
                }
            }
            Source::Script(part) => Ok(make_all(rt.alloc(), part, handler)?),
        }
    }
}

/// Opens the sockets, and prints a line for each address.
fn open_sockets<'s>(rt: &'s HostRuntime, arguments: &Arguments) -> Result<Sockets<'s>, Ending> {
    let mut world = match SocketWorld::new(rt, rt.alloc()) {
        Ok(world) => world,
        Err(error) => return Err(Ending::Failed(error)),
    };
    let mut service = Service::new(rt.alloc())?;
    let mut lines = String::new(rt.alloc());
    for address in arguments.addresses.as_slice() {
        match world.listen(*address) {
            Ok(address) => {
                lines.push_str(format!(in rt.alloc(); "listening on {address}\n")?.as_str())?;
            }
            Err(error) => return Err(Ending::CannotListen(*address, error)),
        }
        service.add()?;
    }
    match rt.print(lines.as_str()) {
        Ok(()) => Ok(Sockets { world, service }),
        Err(_) => Err(Ending::CannotPrint),
    }
}
