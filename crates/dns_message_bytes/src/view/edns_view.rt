//! The OPT record of a message, borrowed from it (RFC 6891 section 6.1).

ghost use Rattle.std.specs.Prelude.{◌≡◌, ◌<◌, ◌^◌, ◌∷◌, ◌++◌, List, ℕ, None, IfSome, IsTrue, true, false, length, flat_map};
ghost use Rattle.std.specs.Int.{w16, to_be_bytes};
ghost use Rattle.std.specs.List.{AllByRecursion};
ghost use Rattle.dns_data.specs.Field.{OptionValue, option_form};
ghost use Rattle.dns_wire.specs.Decoder.{rest};
ghost use Rattle.dns_messages.specs.declared.edns.Edns.{Edns};
ghost use Rattle.dns_message_bytes.specs.view.Request.{ReadsOpt, IsEdnsOf, IsSoundOption};

use crate::view::option_view::are_options;
use dns_messages::EdnsFlags;
use dns_wire::BinDecoder;

/// The number of the type OPT (RFC 6891 section 6.1.1).
const OPT_NUMBER: u16 = 41;

/// The least payload size that a message announces, in bytes (RFC 6891 section 6.2.3).
const MIN_PAYLOAD_LEN: u16 = 512;

/// The OPT record of a message, borrowed from it (RFC 6891 section 6.1).
#[derive(Clone, Copy, Debug, Drop)]
pub struct EdnsView<'a> {
    /// The upper eight bits of the response code (RFC 6891 section 6.1.3).
    pub rcode_high: u8,
    /// The version.
    pub version: u8,
    /// The flags.
    pub flags: EdnsFlags,
    /// The payload size, in bytes: at least 512 (RFC 6891 section 6.2.3).
    pub max_payload: u16,
    /// The options, as they are encoded (RFC 6891 section 6.1.2).
    pub options: &'a [u8],
}

impl<'a> EdnsView<'a> {
    /// Reads an OPT record whose owner is encoded as a zero byte. Returns `None` if the unread bytes do not begin with one;
    /// the decoder may then have advanced.
    pub(crate) fn read(decoder: &mut BinDecoder<'a>) -> Option<EdnsView<'a>>
        ensures read { IfSome result (λ view. (edns : Edns)
            × (ReadsOpt (rest decoder.old) edns (rest decoder.new) × IsEdnsOf view edns)) }
        ensures none { result ≡ None → (edns : Edns) (more : List ℕ)
            → ReadsOpt (rest decoder.old) edns more → ⊥ }
    {
        if !begins_opt(decoder) {
            return None;
        }
        let Ok(payload) = decoder.read_u16() else {
            return None;
        };
        let Ok(ttl) = decoder.read_u32() else {
            return None;
        };
        let Some(options) = read_options(decoder) else {
            return None;
        };
        Some(EdnsView {
            rcode_high: (ttl / 16_777_216) as u8,
            version: (ttl / 65_536 % 256) as u8,
            flags: EdnsFlags::from((ttl % 65_536) as u16),
            max_payload: payload.max(MIN_PAYLOAD_LEN),
            options,
        })
    }
}

/// Reads the root, encoded as a zero byte, and the type OPT. Returns `false` if the unread bytes do not begin with them.
fn begins_opt(decoder: &mut BinDecoder<'_>) -> bool
    ensures read { IsTrue result
        → rest decoder.old ≡ 0 ∷ (to_be_bytes w16 OPT_NUMBER ++ rest decoder.new) }
    ensures only { result ≡ false → (more : List ℕ)
        → rest decoder.old ≡ 0 ∷ (to_be_bytes w16 OPT_NUMBER ++ more) → ⊥ }
{
    let Ok(0) = decoder.read_u8() else {
        return false;
    };
    let Ok(OPT_NUMBER) = decoder.read_u16() else {
        return false;
    };
    true
}

/// Reads the length of data and the data, which is the options of an OPT record. Returns `None` if the unread bytes do not
/// begin with them.
fn read_options<'a>(decoder: &mut BinDecoder<'a>) -> Option<&'a [u8]>
    ensures read { IfSome result (λ bytes.
        rest decoder.old ≡ to_be_bytes w16 (length bytes.now) ++ (bytes.now ++ rest decoder.new)) }
    ensures len { IfSome result (λ bytes. length bytes.now < 2 ^ 16) }
    ensures options { IfSome result (λ bytes. (options : List OptionValue)
        × (AllByRecursion IsSoundOption options × (bytes.now ≡ flat_map option_form options))) }
    ensures none { result ≡ None → (options : List OptionValue) (more : List ℕ)
        → AllByRecursion IsSoundOption options → length (flat_map option_form options) < 2 ^ 16
        → rest decoder.old ≡ to_be_bytes w16 (length (flat_map option_form options))
        ++ (flat_map option_form options ++ more) → ⊥ }
{
    let Ok(len) = decoder.read_u16() else {
        return None;
    };
    let Ok(bytes) = decoder.read_slice(usize::from(len)) else {
        return None;
    };
    if are_options(bytes) {
        Some(bytes)
    } else {
        None
    }
}
