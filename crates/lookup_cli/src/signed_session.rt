//! Signed updates.

ghost use Rattle.std.specs.Prelude.{◌≡◌, IfOk};
ghost use Rattle.stub_net.specs.Network.{network_calls};
ghost use Rattle.stub_net.specs.signed.Update.{IsSignedCode};
ghost use Rattle.lookup_cli.specs.Session.{IsPool, request_count, servers_by};

use crate::session::pool_of;
use dns_messages::ResponseCode;
use dns_tsig::Key;
use dns_tsig::signer::TsigError;
use std::alloc::Global;
use stub_config::{ResolverConfig, ResolverOpts};
use stub_link::UpdateEvent;
use stub_lookup::NetError;
use stub_net::signed::{SignedNetwork, UpdateError, send_signed_update};
use stub_net::{IdSource, NameServerPool, Network};
use stub_servers::ServerList;

/// Sends signed updates to the servers of a configuration.
#[derive(Drop)]
pub struct SignedSession<N, I> {
    pool: NameServerPool<SignedNetwork<N>, I>,
}

impl<N: Network + Drop, I: IdSource + Drop> SignedSession<N, I> {
    /// Creates a session over a network that signs. A time-out in milliseconds takes the place of that of the options.
    pub fn new(
        alloc: Global,
        network: SignedNetwork<N>,
        ids: I,
        config: &ResolverConfig,
        options: &ResolverOpts,
        timeout: u64,
        streams_alone: bool,
    ) -> Result<SignedSession<N, I>, NetError>
        ensures { IfOk result (λ session. IsPool network ids (servers_by config.now options.now)
            options.now timeout streams_alone session.pool) }
    {
        let servers = ServerList::from_config(alloc, config, options)?;
        let pool = pool_of(
            alloc,
            network,
            ids,
            servers,
            options,
            timeout,
            streams_alone,
        );
        Ok(SignedSession { pool })
    }

    /// Sends an update with a signature, and returns the response code of its reply, which a holder of the key has signed for it.
    pub fn send_update(&mut self, update: &UpdateEvent) -> Result<ResponseCode, UpdateError>
        ensures { IfOk result (IsSignedCode
            (network_calls N.sends N.receives N.streams N.reads_clock)
            self.old.pool.requester.network.signer.key self.old.pool.requester.network.base
            update.now self.old.pool.requester.network.network
            self.new.pool.requester.network.network) }
    {
        send_signed_update(&mut self.pool, update)
    }

    /// Returns the error of the signature of the update that its signed reply reports, as BADTIME.
    pub fn error(&self) -> Option<TsigError>
        ensures { result ≡ self.now.pool.requester.network.error }
    {
        self.pool.network().error()
    }

    /// Returns the number of requests that were sent to servers, or were to be.
    pub fn questions(&self) -> u64
        ensures { result ≡ request_count self.now.pool.requester.counts }
    {
        let counts = self.pool.counts();
        counts.datagrams.saturating_add(counts.streams)
    }
}
