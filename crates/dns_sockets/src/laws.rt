//! Theorems about the definitions of this crate, as functions with empty bodies.

ghost use Rattle.std.specs.List.{AllByRecursion, Contains};
ghost use Rattle.std.specs.Prelude.{◌≡◌, ◌<◌, ◌≤◌, length, [], ◌∷◌, ◌++◌, slice_get, true, false, ℕ, IfSome, List, None, Option, Some};
ghost use Rattle.std.specs.declared.net.socket_addr.SocketAddr.{SocketAddr};
ghost use Rattle.dns_faults.specs.declared.delivery.Delivery.{Delivery};
ghost use Rattle.dns_server.specs.Connection.{max_input_len};
ghost use Rattle.dns_sockets.specs.Connections.{AreFollowed, Connected, Follows, Place, connection_at};
ghost use Rattle.dns_sockets.specs.Deadlines.{service_deadline};
ghost use Rattle.dns_sockets.specs.Handler.{Handled, HandlerEvent, RequestContent};
ghost use Rattle.dns_sockets.specs.Ledger.{AllPaid, Earns, Weight, replies, requests};
ghost use Rattle.dns_sockets.specs.Moments.{HasArrived, IsDated, requests_in};
ghost use Rattle.dns_sockets.specs.Rotation.{HasGoneOn, IsAsActive, IsPlaceOf, places_of};
ghost use Rattle.dns_sockets.specs.Served.{IsServed};
ghost use Rattle.dns_sockets.specs.StreamHistory.{HaveArrived, IsFront, handled_on, read_on, replied_on, written_on};
ghost use Rattle.dns_sockets.specs.Sent.{IsGiven};
ghost use Rattle.dns_sockets.specs.Stream.{deadline, later_by};
ghost use Rattle.dns_sockets.specs.Trace.{Act, At, By, Origin, Socket};
ghost use Rattle.dns_sockets.specs.World.{Sent};
ghost use Rattle.dns_sockets.specs.declared.datagrams.WaitingReply.{WaitingReply};
ghost use Rattle.dns_sockets.specs.declared.service.Service.{Service};
ghost use Rattle.dns_sockets.specs.declared.stream.Stream.{Stream};
ghost use Rattle.dns_sockets.specs.schedule.Schedule.{Waiting};

/// However datagrams are counted, a service that begins without replies that wait sends, up to each moment, no more than what the requests
/// that were handled until then earned: the same bytes, to the same peer, from the same socket, as often as the handler says. And it
/// handles no request that had not arrived at that socket, and none twice.
pub fn every_reply_is_earned()
    ensures replies { (new : List (Waiting WaitingReply)) (acts : List Act) → Earns [] new acts
        → (f : Weight) → AllPaid (replies f) 0 acts }
    ensures requests { (new : List (Waiting WaitingReply)) (acts : List Act) → Earns [] new acts
        → (g : ℕ → SocketAddr → List ℕ → ℕ) → AllPaid (requests g) 0 acts }
{}

/// On each connection of a service that began without any, the requests that were handled up to each moment since it was admitted are the
/// first that arrived on it, in order, and what was written on it is the front of the frames of their replies, in the same order (RFC 7766
/// sections 6.2.1.1 and 7).
pub fn streams_answer_in_order()
    ensures requests { (new : List (Option Stream)) (acts : List Act) → AreFollowed [] new acts
        → (index : ℕ) → HaveArrived (read_on index [] acts) (handled_on index [] acts) }
    ensures replies { (new : List (Option Stream)) (acts : List Act) → AreFollowed [] new acts
        → (index : ℕ) → IsFront (written_on index [] acts) (replied_on index [] acts) }
{}

/// Each datagram that a service without replies that wait sends, and that the system takes, is what its handler gave before: for a
/// request that the same peer had sent to the same socket, or without a request.
pub fn every_datagram_is_given()
    ensures { (new : List (Waiting WaitingReply)) (before rest : List Act)
        (socket : ℕ) (bytes : List ℕ) (peer : SocketAddr)
        → Earns [] new (before ++ At (Sent socket bytes peer true) ∷ rest)
        → IsGiven socket bytes peer before }
{}

/// The moment of each request that is handled is what the clock showed last, and the clock was read after everything that had arrived by
/// then: so a reply that is to wait waits from when its request had arrived on.
pub fn moments_follow_arrivals()
    ensures requests { (waiting left : List (Waiting WaitingReply))
        (streams open_after : List (Option Stream)) (before rest : List Act) (origin : Origin)
        (call : HandlerEvent) (place : ℕ) (request : RequestContent)
        → IsServed waiting streams left open_after (before ++ By origin call ∷ rest)
        → slice_get (requests_in call) place ≡ Some request → IsDated request.moment before }
    ensures datagrams { (left : List (Waiting WaitingReply))
        (streams open_after : List (Option Stream)) (before rest : List Act) (socket : ℕ)
        (requests : List RequestContent) (outcome : Option (List Delivery)) (place : ℕ)
        (request : RequestContent) → IsServed [] streams left open_after
        (before ++ By (Socket socket) (Handled requests outcome) ∷ rest)
        → slice_get requests place ≡ Some request
        → HasArrived socket request before }
{}

/// However the number of places of a table of connections changes, each place has its turn within as many turns as there are places at
/// most. (What a connection does at its turn, this law does not say.)
pub fn each_place_has_its_turn()
    ensures { (first place most : ℕ) (counts : List ℕ) → place < most
        → AllByRecursion (IsPlaceOf place most) counts → most ≤ length counts
        → Contains (places_of first counts) place }
{}

/// A service that began without connections holds at most 65,537 bytes of each peer's requests that are not handled yet, whatever part of
/// a frame a peer has sent: as many as the longest frame has (RFC 1035 section 4.2.2).
pub fn unhandled_bytes_are_bounded()
    ensures place { (index : ℕ) (accepted : Option SocketAddr) (acts : List Act) (left : Place)
        → Follows index (record { accepted = accepted; connection = None }) acts left
        → IfSome left.connection (λ c. length c.unhandled ≤ max_input_len) }
    ensures service { (new : List (Option Stream)) (acts : List Act) → AreFollowed [] new acts
        → (index : ℕ) → IfSome (connection_at new index)
        (λ c. length c.unhandled ≤ max_input_len) }
{}

/// A connection that holds no reply and waits for its peer was last active less than ten seconds before its turn, or it was closed at that
/// turn. And the service waits for events no longer than until it has to have its next turn.
pub fn idle_connections_are_due()
    ensures waits { (s : Stream) (now : ℕ) → HasGoneOn now (Some (Some s))
        → s.wants_turn ≡ false → s.held.items ≡ [] → now < later_by s.last_activity 10000 }
    ensures wakes { (s : Service) (index : ℕ) (stream : Stream)
        → slice_get s.streams.slots.items index ≡ Some (Some stream)
        → service_deadline s ≤ deadline stream }
{}

/// A peer that sends a part of a frame, and then nothing, is closed in time: where a connection has its turn ten seconds after it was last
/// active, or later, and no bytes are moved then, it is closed, unless it holds a reply or goes on again at once, as when the system
/// interrupted each call.
pub fn a_half_frame_is_closed_in_time()
    ensures { (old : Stream) (new : Option Stream) (now : ℕ)
        → later_by old.last_activity 10000 ≤ now → HasGoneOn now (Some new)
        → IsAsActive (Some (Some old)) (Some new)
        → IfSome new (λ s. (s.wants_turn ≡ false) × (s.held.items ≡ [])) → new ≡ None }
{}
