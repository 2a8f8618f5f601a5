//! Theorems about the definitions of this crate, as functions with empty bodies.

ghost use Rattle.std.specs.Prelude.{◌≡◌, ◌++◌, List, ℕ, Some, slice_get};
ghost use Rattle.dns_messages.specs.declared.message.Message.{Message};
ghost use Rattle.dns_updates.specs.Code.{update_code};
ghost use Rattle.dns_zone.specs.Rows.{ZoneContent, IsZone};
ghost use Rattle.dns_message_bytes.specs.frames.Frame.{AreShort, stream_of};
ghost use Rattle.dns_server.specs.Connection.{Stream};
ghost use Rattle.dns_server.specs.History.{Request, accepted_updates, zone_after_updates, zones_after_all};
ghost use Rattle.dns_server.specs.SetTtls.{with_one_ttl, HaveOneTtl};
ghost use Rattle.dns_server.specs.Serving.{AreOnly, AreSplit, Happen, IsHistory, IsServedOut, Step, empty_stream, received_in};
ghost use Rattle.dns_server.specs.Zones.{AreServable};
ghost use Rattle.dns_server.specs.declared.updates.Updates.{Updates};

use crate::responder::Responder;

/// The history of each zone of a server is that of the updates for it that are answered with `NoError`, in order: no other
/// request changes it.
pub fn zones_change_by_their_updates()
    ensures { (zones : List ZoneContent) (requests : List Request) (place : ℕ) (zone : ZoneContent)
        → slice_get zones place ≡ Some zone
        → slice_get (zones_after_all zones requests) place
        ≡ Some (zone_after_updates zone (accepted_updates zones place zone requests)) }
{}

/// An update keeps its response code when each set gets one TTL: the records of a zone pass the prescan, and the TTL of an
/// addition is not looked at.
pub fn one_ttl_keeps_the_code()
    ensures { (zone : ZoneContent) (m : Message) → IsZone zone
        → update_code zone.origin zone.rows (with_one_ttl zone.rows m)
        ≡ update_code zone.origin zone.rows m }
{}

/// In an update that is completed, all additions to a set have one TTL (RFC 2181 section 5.2), those of the records of the zone
/// among them.
pub fn completed_updates_have_one_ttl()
    ensures { (zone : ZoneContent) (m : Message) → IsZone zone
        → HaveOneTtl (with_one_ttl zone.rows m).authorities }
{}

/// The frames of messages, and a part of another frame, are split into these messages and that part.
pub fn frames_are_split()
    ensures { (messages : List (List ℕ)) (part : List ℕ) → AreShort messages
        → AreSplit (stream_of messages ++ part) messages part }
{}

/// What was written to a stream and waits is the frames of the replies to the frames that were received, in order, whatever the
/// pieces.
pub fn frames_are_served_in_order<R: Responder>()
    ensures { (updates : Updates) (start now : R) (steps : List Step) (written : List ℕ)
        (c : Stream) → Happen (λ s. R.replies s updates) start empty_stream steps written now c
        → IsHistory (λ s. R.replies s updates) start (received_in steps) written now c }
{}

/// However the same bytes are cut, and whenever replies are written: once all whole frames are served, the same bytes were
/// written or wait, the same input is left, and the responder is in the same state.
pub fn pieces_make_no_difference<R: Responder>()
    ensures { (updates : Updates) (start : R) (received : List ℕ) (one other : List ℕ) (now new : R)
        (c d : Stream) → AreOnly (λ s. R.replies s updates)
        → IsHistory (λ s. R.replies s updates) start received one now c → IsServedOut c
        → IsHistory (λ s. R.replies s updates) start received other new d → IsServedOut d
        → (one ++ c.output ≡ other ++ d.output) × ((c.input ≡ d.input) × (now ≡ new)) }
{}
