//! Updates that are sent signed.

ghost use Rattle.std.specs.Prelude.{◌≡◌, IfOk};
ghost use Rattle.stub_net.specs.Network.{network_calls};
ghost use Rattle.stub_net.specs.signed.Update.{IsSignedCode, SendsUpdate, error_after, is_fault, outcome_of, refused_error};

use crate::signed::error::UpdateError;
use crate::signed::network::SignedNetwork;
use crate::{IdSource, NameServerPool, Network};
use dns_messages::ResponseCode;
use dns_tsig::signer::Refusal;
use stub_link::UpdateEvent;
use stub_lookup::NetError;

/// Sends an update under its own id, signed with the key of the network, and returns the response code of its reply, which a holder of
/// the key has signed.
///
/// # Errors
///
/// - [`UpdateError::Refused`] if a reply arrived that may be forged, and none that is signed;
/// - [`UpdateError::Net`] if no reply arrived, or the network failed, as for [`NameServerPool::send_update`].
pub fn send_signed_update<N: Network, I: IdSource>(
    pool: &mut NameServerPool<SignedNetwork<N>, I>,
    update: &UpdateEvent,
) -> Result<ResponseCode, UpdateError>
    ensures sent { SendsUpdate (network_calls N.sends N.receives N.streams N.reads_clock) pool.old
        update.now result pool.new }
    ensures signed { IfOk result (IsSignedCode
        (network_calls N.sends N.receives N.streams N.reads_clock)
        pool.old.requester.network.signer.key pool.old.requester.network.base update.now
        pool.old.requester.network.network pool.new.requester.network.network) }
{
    let before = pool.network().refused();
    let outcome = pool.send_update(update);
    outcome_of(outcome, before, pool.network())
}

/// Returns the outcome of an update, before which so many replies had been refused.
fn outcome_of<N: Network>(
    outcome: Result<ResponseCode, NetError>,
    before: u64,
    network: &SignedNetwork<N>,
) -> Result<ResponseCode, UpdateError>
    ensures { result ≡ outcome_of outcome before network.now.refused network.now.refusal }
{
    match outcome {
        Ok(code) => Ok(code),
        Err(error) => Err(error_after(error, before, network.refused(), network.refusal())),
    }
}

/// Returns why there is no reply, if so many replies were refused before and after.
fn error_after(error: NetError, before: u64, after: u64, refusal: Option<Refusal>) -> UpdateError
    ensures { result ≡ error_after error before after refusal }
{
    if is_fault(&error) && before < after {
        refused_error(refusal, error)
    } else {
        UpdateError::Net(error)
    }
}

/// Returns `true` if an error says that no reply came.
fn is_fault(error: &NetError) -> bool
    ensures { result ≡ is_fault error.now }
{
    matches!(error, NetError::Link(_))
}

/// Returns a refusal as an error, or another error if there is none.
fn refused_error(refusal: Option<Refusal>, error: NetError) -> UpdateError
    ensures { result ≡ refused_error refusal error }
{
    match refusal {
        Some(refusal) => UpdateError::Refused(refusal),
        None => UpdateError::Net(error),
    }
}
