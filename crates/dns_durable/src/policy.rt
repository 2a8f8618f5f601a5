//! Keys, grants, and what they make of a request.

ghost use Rattle.std.specs.Prelude.{◌≡◌};
ghost use Rattle.dns_durable.specs.Policy.{admission, updates_by};

use dns_authority::service::Answering;
use dns_keys::grants::{Grant, permits};
use dns_messages::Message;
use dns_server::Updates;
use dns_tsig::{Key, Verdict};

/// Who may update the zones of a server, and how other requests are answered.
#[derive(Drop)]
pub struct Policy {
    /// The keys that are shared with requestors.
    pub keys: Vec<Key>,
    /// What the holders of these keys may change.
    pub grants: Vec<Grant>,
    /// How requests are answered, and by which rule updates are made.
    pub answering: Answering,
}

/// What is done with a request.
#[derive(Clone, Copy, Debug, PartialEq, Eq)]
pub enum Admission {
    /// It is served, with or without updates.
    Serve(Updates),
    /// It is refused with FORMERR: its TSIG record is malformed.
    Malformed,
    /// It is refused with NOTAUTH: its TSIG record does not show that it comes from the holder of a key (RFC 8945 section 5.2).
    NotAuthentic,
}

/// Returns what is done with a request, by whom it was signed. Without a signature, its address decides whether it may update; with
/// one, the grants of its key do.
pub fn admission_of(
    policy: &Policy,
    verdict: Verdict,
    message: &Message,
    local: Updates,
) -> Admission
    ensures { result ≡ admission policy.now verdict message.now local }
{
    match verdict {
        Verdict::Unsigned => Admission::Serve(local),
        Verdict::Verified(index) => Admission::Serve(updates_by(policy, index, message)),
        Verdict::FormErr => Admission::Malformed,
        Verdict::BadKey | Verdict::BadSig(_) | Verdict::BadTime(_) | Verdict::BadTrunc(_) => {
            Admission::NotAuthentic
        }
    }
}

/// Returns whether the holders of the key at an index may make an update.
fn updates_by(policy: &Policy, index: usize, message: &Message) -> Updates
    ensures { result ≡ updates_by policy.now index message.now }
{
    match policy.keys.as_slice().get(index) {
        Some(key) if permits(policy.grants.as_slice(), key.name.as_slice(), message) => {
            Updates::Allowed
        }
        _ => Updates::Refused,
    }
}
