//! Signed updates.

use crate::files::read_key;
use crate::{Ids, Sockets, open_network, read_settings, timeout_of};
use lookup_cli::{Arguments, Ending, KeyArguments, SignedSession};
use std::time::{Instant, SystemTime};
use stub_net::signed::SignedNetwork;
use stub_net_sockets::{RandomIds, SystemEntropy};
use stub_servers::resolv_conf::SystemConf;

/// Opens what sends a signed update, if the arguments name a key.
pub(crate) fn open_signed<'a>(
    rt: &'a HostRuntime,
    arguments: &Arguments,
    start: Instant,
) -> Result<Option<SignedSession<Sockets<'a>, Ids<'a>>>, Ending> {
    match &arguments.update {
        Some(update) => match &update.key {
            Some(key) => Ok(Some(signed_session(rt, arguments, key, start)?)),
            None => Ok(None),
        },
        None => Ok(None),
    }
}

/// Opens what sends an update that is signed with a key.
fn signed_session<'a>(
    rt: &'a HostRuntime,
    arguments: &Arguments,
    key: &KeyArguments,
    start: Instant,
) -> Result<SignedSession<Sockets<'a>, Ids<'a>>, Ending> {
    let SystemConf { config, options } = read_settings(rt, arguments)?;
    let network = signed_network(rt, arguments, key, start)?;
    let session = SignedSession::new(
        rt.alloc(),
        network,
        RandomIds::new(SystemEntropy::new(rt)),
        &config,
        &options,
        timeout_of(arguments, &options),
        arguments.tcp,
    );
    match session {
        Ok(session) => Ok(session),
        // Want of memory is the only error: a resolver has these options.
        Err(_) => Err(Ending::Memory),
    }
}

/// Opens a network that signs with a key. Its clock begins now.
fn signed_network<'a>(
    rt: &'a HostRuntime,
    arguments: &Arguments,
    key: &KeyArguments,
    start: Instant,
) -> Result<SignedNetwork<Sockets<'a>>, Ending> {
    let key = read_key(rt, key)?;
    let network = open_network(rt, arguments, start)?;
    Ok(SignedNetwork::new(rt.alloc(), network, key, seconds(rt)?))
}

/// Returns the time of the system, in seconds since 1 January 1970 (UTC), or 0 if that is to come.
fn seconds(rt: &HostRuntime) -> Result<u64, Ending> {
    match SystemTime::now(rt) {
        Ok(time) => match time.duration_since(SystemTime::UNIX_EPOCH) {
            Ok(since) => Ok(since.as_secs()),
            Err(_) => Ok(0),
        },
        Err(error) => Err(Ending::NoClock(error)),
    }
}
