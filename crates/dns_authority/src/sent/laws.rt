//! Theorems about replies as they are sent, as functions with empty bodies.

ghost use Rattle.std.specs.Prelude.{◌≡◌, List, ℕ};
ghost use Rattle.std.specs.List.{AllByRecursion};
ghost use Rattle.dns_messages.specs.declared.message.Message.{Message};
ghost use Rattle.dns_messages.specs.Encoding.{Encodes};
ghost use Rattle.dns_messages.specs.Grammar.{ReadsMessage};
ghost use Rattle.dns_messages.specs.Message.{version_of};
ghost use Rattle.dns_messages.specs.Sound.{IsSound};
ghost use Rattle.dns_zone.specs.Rows.{IsZone, ZoneContent};
ghost use Rattle.dns_authority.specs.declared.asked.AnyAnswer.{AnyAnswer};
ghost use Rattle.dns_authority.specs.replies.Reply.{answer_to, reply};
ghost use Rattle.dns_authority.specs.replies.Sending.{sent};
ghost use Rattle.dns_authority.specs.sent.Sent.{IsReplyWith};

/// What is sent for a request that can be decoded can be encoded and decoded again, if each zone is well formed. The request has
/// version 0 of EDNS, or none: the code of the reply to another version, BADVERS, decodes to BADSIG, which has the same number.
pub fn sent_replies_are_sound()
    ensures { (any : AnyAnswer) (zones : List ZoneContent) (request : Message) (limit : ℕ)
        → AllByRecursion IsZone zones → IsSound request → version_of request.edns ≡ 0
        → IsSound (sent limit (reply any zones request)) }
{}

/// The bytes that are sent for a request decode to a message whose records are rows of the zones, or are synthesized from them, for
/// the question of the request. Unless TC is set, its answer section is that of the answer to the request. Its code is that of the
/// answer. The premise is that the request can be decoded and has no version of EDNS above 0, and each zone is well formed; or that what
/// is sent can be encoded and decoded again.
pub fn sent_replies_have_records_of_zones()
    ensures received { (any : AnyAnswer) (zones : List ZoneContent) (request : Message) (limit : ℕ)
        (bytes : List ℕ) → AllByRecursion IsZone zones → IsSound request
        → version_of request.edns ≡ 0
        → Encodes limit (sent limit (reply any zones request)) bytes
        → (decoded : Message) × (ReadsMessage bytes decoded
        × IsReplyWith zones request.queries (answer_to any zones request) decoded) }
    ensures sound { (any : AnyAnswer) (zones : List ZoneContent) (request : Message) (limit : ℕ)
        (bytes : List ℕ) → Encodes limit (sent limit (reply any zones request)) bytes
        → IsSound (sent limit (reply any zones request))
        → (decoded : Message) × (ReadsMessage bytes decoded
        × IsReplyWith zones request.queries (answer_to any zones request) decoded) }
{}
