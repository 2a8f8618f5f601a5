//! Worlds: a zone's server, a link to it, and a resolver that asks over it; and resolvers over any link.

ghost use Rattle.std.specs.Prelude.{◌≡◌, ◌<◌, ◌^◌, true, false, IfOk, IsErrOf, IsOkAnd};
ghost use Rattle.stub_core.specs.ResolverBuilder.{is_unsupported};
ghost use Rattle.stub_run.specs.Headline.{IsMadeOf};
ghost use Rattle.stub_run.specs.Run.{RunState};
ghost use Rattle.stub_run.specs.World.{BeginsWith, IsFirst, IsFirstOver};

use dns_zone::{DatagramLimit, Zone};
use std::alloc::Global;
use stub_config::{ResolverConfig, ResolverOpts};
use stub_core::Resolver;
use stub_hosts::Hosts;
use stub_link::{Link, ScriptedLink, WireHandle};
use stub_lookup::NetError;

/// A zone's server, a link to it, and a resolver that asks over it, to which nothing has happened.
#[derive(Drop)]
pub struct World {
    pub(crate) alloc: Global,
    pub(crate) resolver: Resolver<WireHandle<ScriptedLink>>,
}

impl World {
    /// Creates a world over a zone, whose server's datagrams have at most `limit` bytes. Its resolver draws the ids in order,
    /// one for each question, and begins with an empty cache.
    ///
    /// The error is [`NetError::Unsupported`] if no resolver has these options, as
    /// [`ResolverBuilder::build`](stub_core::ResolverBuilder::build) says. There is no other error.
    pub fn new(
        alloc: Global,
        zone: Zone,
        limit: DatagramLimit,
        ids: Vec<u16>,
        config: ResolverConfig,
        options: ResolverOpts,
        hosts: Hosts,
    ) -> Result<World, NetError>
        ensures unsupported { is_unsupported options ≡ true
            → IsErrOf result NetError.Unsupported }
        ensures supported { is_unsupported options ≡ false → IsOkAnd result (λ world.
            (state : RunState) × IsFirst zone limit ids.items config options hosts state
            × BeginsWith world state) }
        ensures content { IfOk result (λ world. IsMadeOf world (record {
          zone = zone;
          limit = limit;
          ids = ids.items;
          config = config;
          options = options;
          hosts = hosts;
        })) }
    {
        // Tells the prover that the zone is well formed, and what fits its type.
        let _origin = zone.origin();
        let _payload = payload_len(&options);
        let link = ScriptedLink::new(alloc, zone, limit);
        let resolver = resolver_over(alloc, link, ids, config, options, hosts)?;
        Ok(World { alloc, resolver })
    }
}

/// Creates a resolver that asks over a link, draws the ids in order, one for each question, and begins with an empty cache.
///
/// The error is [`NetError::Unsupported`] if no resolver has these options, as
/// [`ResolverBuilder::build`](stub_core::ResolverBuilder::build) says. There is no other error.
pub fn resolver_over<L: Link + Drop>(
    alloc: Global,
    link: L,
    ids: Vec<u16>,
    config: ResolverConfig,
    options: ResolverOpts,
    hosts: Hosts,
) -> Result<Resolver<WireHandle<L>>, NetError>
    ensures unsupported { is_unsupported options ≡ true → IsErrOf result NetError.Unsupported }
    ensures supported { is_unsupported options ≡ false
        → IsOkAnd result (IsFirstOver link ids.items config options hosts) }
{
    let handle = WireHandle::new(alloc, link, ids);
    let builder = Resolver::builder_with_config(alloc, config, handle);
    builder.with_options(options).with_hosts(hosts).build()
}

/// Returns the payload size that requests announce.
fn payload_len(options: &ResolverOpts) -> u16
    ensures { options.now.edns_payload_len < 2 ^ 16 }
{
    options.edns_payload_len
}
