//! What holds of every exchange over a signed network, over whatever network below.

ghost use Rattle.std.specs.Prelude.{◌*◌, ℕ, Ok};
ghost use Rattle.dns_messages.specs.declared.message.Message.{Message};
ghost use Rattle.dns_messages.specs.declared.response.DnsResponse.{DnsResponse};
ghost use Rattle.stub_net.specs.Exchange.{Exchanges};
ghost use Rattle.stub_net.specs.Network.{network_calls};
ghost use Rattle.stub_net.specs.declared.pool.NameServerPool.{NameServerPool};
ghost use Rattle.stub_net.specs.Script.{ScriptState, script_calls};
ghost use Rattle.stub_net.specs.Time.{IsClock, IsTimed};
ghost use Rattle.stub_net.specs.signed.Arrival.{IsSignedArrival};
ghost use Rattle.stub_net.specs.signed.Reply.{IsSignedReply};
ghost use Rattle.stub_net.specs.signed.Signed.{signed_calls};
ghost use Rattle.stub_net.specs.declared.signed.network.SignedNetwork.{SignedNetwork};

use crate::{IdSource, Network};
use dns_messages::laws::messages_decode_unambiguously;

/// A reply that a pool returns was signed by a holder of the key for the very request of the pool. Of the calls of the network below,
/// the last ones are these: the clock is read, the request is sent with a signature of that time, a reply is received, and the clock is
/// read. The MAC in the bytes of that reply covers the MAC of that request, the reply and the fields of its signature, and the time of
/// its signature is within its fudge of the clock that was read then.
pub fn replies_are_signed<N: Network, I: IdSource>()
    ensures { (m : Message) (old new : NameServerPool (SignedNetwork N) I) (response : DnsResponse)
        → Exchanges (signed_calls (network_calls N.sends N.receives N.streams N.reads_clock)) m old
        (Ok response) new
        → IsSignedReply (network_calls N.sends N.receives N.streams N.reads_clock)
        old.requester.network.signer.key old.requester.network.base m
        old.requester.network.network new.requester.network.network response }
{}

/// Over a network in memory, a reply that a pool returns is a message of the script, and was accepted as the reply to the message that
/// was sent last. So no script in which each message is forged leads to a reply.
pub fn signed_replies_arrive<I: IdSource>()
    ensures { (m : Message) (old new : NameServerPool (SignedNetwork ScriptState) I)
        (response : DnsResponse)
        → Exchanges (signed_calls script_calls) m old (Ok response) new
        → IsSignedArrival old.requester.network.signer.key old.requester.network.base m
        old.requester.network.network new.requester.network.network response }
{}

/// A network that signs has the clock of the network below. Where the calls of that one end in time, so do its own, with three times the
/// slack: to ask over a stream it reads the clock, asks, and reads the clock.
pub fn signed_networks_are_timed<N: Network>()
    ensures clock { (clock : N → ℕ)
        → IsClock (network_calls N.sends N.receives N.streams N.reads_clock) clock
        → IsClock (signed_calls (network_calls N.sends N.receives N.streams N.reads_clock))
        (λ signed. clock signed.network) }
    ensures timed { (clock : N → ℕ) (slack : ℕ)
        → IsTimed (network_calls N.sends N.receives N.streams N.reads_clock) clock slack
        → IsTimed (signed_calls (network_calls N.sends N.receives N.streams N.reads_clock))
        (λ signed. clock signed.network) (3 * slack) }
{}
