//! What holds of every exchange, over every network.
//!
//! The laws are functions with an empty body. Their contracts state what holds of any exchange, by the relations that
//! are the contracts of [`NameServerPool`](crate::NameServerPool).

ghost use Rattle.std.specs.Prelude.{◌+◌, ◌-◌, ◌*◌, ◌^◌, ◌≤◌, ℕ, Ok, Err, length};
ghost use Rattle.dns_messages.specs.declared.message.Message.{Message};
ghost use Rattle.dns_messages.specs.declared.response.DnsResponse.{DnsResponse};
ghost use Rattle.stub_client.specs.Handle.{Outcome};
ghost use Rattle.stub_lookup.specs.declared.error.LinkFault.{LinkFault};
ghost use Rattle.stub_lookup.specs.declared.error.NetError.TheVariants as net;
ghost use Rattle.stub_net.specs.Exchange.{Exchanges};
ghost use Rattle.stub_net.specs.Laws.{IsDeclinedByAll, IsMeter, IsReplyToQuestion};
ghost use Rattle.stub_net.specs.Network.{network_calls};
ghost use Rattle.stub_net.specs.Pool.{Gives};
ghost use Rattle.stub_net.specs.Script.{script_calls};
ghost use Rattle.stub_net.specs.Time.{EndsInTime, IsClock, IsTimed, prompt_calls};
ghost use Rattle.stub_net.specs.declared.pool.NameServerPool.{NameServerPool};

use crate::ids::IdSource;
use crate::network::Network;

/// An exchange ends in a fault only after each server was tried in each round, and none gave a reply that is accepted.
/// So where the reply of one server arrives before its time-out in one round, and is accepted, the outcome is a reply.
pub fn faults_come_after_every_try<N: Network, I: IdSource>()
    ensures { (m : Message) (old new : NameServerPool N I) (fault : LinkFault)
        → Exchanges (network_calls N.sends N.receives N.streams N.reads_clock) m old
        (Err (net.Link fault)) new
        → IsDeclinedByAll (network_calls N.sends N.receives N.streams N.reads_clock) m old new }
{}

/// An exchange makes at most as many tries as there are servers in all rounds. Each sends at most one datagram, receives
/// at most 2^64 - 1 and at most once none, and asks over at most one stream: a count of these rises by no more.
pub fn exchanges_are_bounded<N: Network, I: IdSource>()
    ensures { (count : N → ℕ) (by_send by_datagram by_end by_stream : ℕ) (m : Message)
        (old new : NameServerPool N I) (outcome : Outcome)
        → IsMeter (network_calls N.sends N.receives N.streams N.reads_clock) count by_send by_datagram
        by_end by_stream
        → Exchanges (network_calls N.sends N.receives N.streams N.reads_clock) m old outcome new
        → count new.requester.network ≤ count old.requester.network
        + old.attempts * length old.servers.servers
        * (by_send + (2 ^ 64 - 1) * by_datagram + by_end + by_stream) }
{}

/// An exchange ends in time, whatever arrives: over a network each of whose calls ends in time, and over any network with
/// a clock, as one over sockets, if each call of the exchange did.
///
/// `slack` is how late a call may end, in milliseconds: a call that waits, after its deadline, and any other after it began.
/// It has to cover what no contract speaks of: the resolution of the system's timers, other processes, and the time
/// that reading a message takes. Datagrams that are not the reply do not extend a wait, since its deadline stays.
pub fn exchanges_end_in_time<N: Network, I: IdSource>()
    ensures timed { (clock : N → ℕ) (slack : ℕ) (m : Message) (old new : NameServerPool N I)
        (outcome : Outcome)
        → IsTimed (network_calls N.sends N.receives N.streams N.reads_clock) clock slack
        → Exchanges (network_calls N.sends N.receives N.streams N.reads_clock) m old outcome new
        → EndsInTime clock slack old new }
    ensures prompt { (clock : N → ℕ) (slack : ℕ) (m : Message) (old new : NameServerPool N I)
        (outcome : Outcome)
        → IsClock (network_calls N.sends N.receives N.streams N.reads_clock) clock
        → Exchanges (prompt_calls clock slack
        (network_calls N.sends N.receives N.streams N.reads_clock)) m old outcome new
        → EndsInTime clock slack old new }
{}

/// The network in memory is one whose calls end in time, with no slack.
pub fn scripts_are_timed()
    ensures { IsTimed script_calls (λ state. state.clock) 0 }
{}

/// A reply to a question has the id that was drawn for it and repeats the question, and is not truncated.
pub fn replies_answer_the_question<N: Network, I: IdSource>()
    ensures { (m : Message) (old new : NameServerPool N I) (response : DnsResponse)
        → Gives (network_calls N.sends N.receives N.streams N.reads_clock) I.draws old m
        (Ok response) new → IsReplyToQuestion I.draws old.ids m response }
{}
