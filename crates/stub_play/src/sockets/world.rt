//! Resolvers over sockets, and runs of events over these.

ghost use Rattle.std.specs.Prelude.{◌≡◌, ◌↔◌, true, false, [], IfOk, IfSome, IsErrOf, IsOk, IsOkAnd, Err};
ghost use Rattle.stub_core.specs.ResolverBuilder.{is_unsupported};
ghost use Rattle.stub_run.specs.Event.{AreHonest};
ghost use Rattle.stub_run.specs.Run.{InOrder, memory_report};
ghost use Rattle.stub_run.specs.RunOver.{IsReportBeforeOver, IsReportOver};
ghost use Rattle.stub_run.specs.World.{IsFirstOver};
ghost use Rattle.stub_play.specs.sockets.SocketLink.{socket_rules};
ghost use Rattle.stub_play.specs.sockets.SocketWorld.{resolver_of};

use crate::sockets::socket_link::SocketLink;
use std::alloc::Global;
use std::net::{Net, TcpListener, TcpStream};
use stub_config::{ResolverConfig, ResolverOpts};
use stub_core::Resolver;
use stub_hosts::Hosts;
use stub_link::WireHandle;
use stub_lookup::NetError;
use stub_run::{Event, Report, Stopped, resolver_over, run_events};

/// A resolver that asks the server of a zone over sockets, to which nothing has happened.
#[derive(Drop)]
pub struct SocketWorld<R> {
    alloc: Global,
    resolver: Resolver<WireHandle<SocketLink<R>>>,
}

impl<R: Net<Listener = TcpListener, Stream = TcpStream> + Drop> SocketWorld<R> {
    /// Creates a world over a link. Its resolver draws the ids in order, one for each question, and begins with an empty cache.
    ///
    /// The error is [`NetError::Unsupported`] if no resolver has these options, as
    /// [`ResolverBuilder::build`](stub_core::ResolverBuilder::build) says. There is no other error.
    pub fn new(
        alloc: Global,
        link: SocketLink<R>,
        ids: Vec<u16>,
        config: ResolverConfig,
        options: ResolverOpts,
        hosts: Hosts,
    ) -> Result<SocketWorld<R>, NetError>
        ensures unsupported { is_unsupported options ≡ true
            → IsErrOf result NetError.Unsupported }
        ensures supported { is_unsupported options ≡ false → IsOkAnd result (λ world.
            IsFirstOver link ids.items config options hosts (resolver_of world)) }
    {
        let resolver = resolver_over(alloc, link, ids, config, options, hosts)?;
        Ok(SocketWorld { alloc, resolver })
    }
}

/// Runs the events in a world over sockets, in order, as [`run`](stub_run::run) does over a scripted link.
///
/// The errors are those of `run`. Whatever the sockets do, each reply is the resolver's, by what its questions and updates came
/// to over the link (`run`); that a datagram arrives is not known.
pub fn run_sockets<R: Net<Listener = TcpListener, Stream = TcpStream> + Drop>(
    world: SocketWorld<R>,
    events: &[Event],
) -> Result<Report, Stopped>
    requires { AreHonest events.now }
    ensures moments { (result ≡ Err Stopped.Moments) ↔ ¬ InOrder 0 events.now }
    ensures run { IfOk result (λ report.
        IsReportOver (socket_rules R) (resolver_of world) events.now report) }
    ensures stopped { IfSome (memory_report result) (λ report.
        IsReportBeforeOver (socket_rules R) (resolver_of world) events.now report) }
    ensures decided { events.now ≡ [] → IsOk result }
{
    let SocketWorld { alloc, resolver } = world;
    run_events(alloc, resolver, events)
}
