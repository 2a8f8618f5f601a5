//! What holds of every exchange over sockets.

ghost use Rattle.std.specs.Prelude.{ℕ};
ghost use Rattle.dns_messages.specs.declared.message.Message.{Message};
ghost use Rattle.stub_client.specs.Handle.{Outcome};
ghost use Rattle.stub_net.specs.Exchange.{Exchanges};
ghost use Rattle.stub_net.specs.Time.{EndsInTime, prompt_calls};
ghost use Rattle.stub_net.specs.declared.pool.NameServerPool.{NameServerPool};
ghost use Rattle.stub_net_sockets.specs.SocketNetwork.{socket_calls, socket_clock};
ghost use Rattle.stub_net_sockets.specs.declared.socket_network.SocketNetwork.{SocketNetwork};

use crate::socket_network::SocketNetwork;
use std::net::{Net, TcpListener, TcpStream};
use std::time::Clock;
use stub_net::IdSource;
use stub_net::laws::exchanges_end_in_time;

/// An exchange over sockets ends in time, if each of its calls did.
///
/// It is proved that the clock does not go back, and that no wait begins after its deadline. No contract says when a call
/// of the system returns: that each call of this exchange ended at most `slack` milliseconds late is the premise.
pub fn socket_exchanges_end_in_time<
    R: Net<Listener = TcpListener, Stream = TcpStream> + Clock + Drop,
    I: IdSource,
>()
    ensures { (slack : ℕ) (m : Message) (old new : NameServerPool (SocketNetwork R) I)
        (outcome : Outcome)
        → Exchanges (prompt_calls socket_clock slack socket_calls) m old outcome new
        → EndsInTime socket_clock slack old new }
{
    exchanges_end_in_time::<SocketNetwork<R>, I>();
}
