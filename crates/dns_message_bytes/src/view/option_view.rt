//! Options of an OPT record, borrowed from a message (RFC 6891 section 6.1.2).

ghost use Rattle.std.specs.Prelude.{◌≡◌, ◌++◌, ℕ, List, None, IfSome, IsTrue, flat_map};
ghost use Rattle.std.specs.List.{AllByRecursion};
ghost use Rattle.dns_data.specs.Field.{OptionValue, option_form};
ghost use Rattle.dns_wire.specs.Decoder.{rest};
ghost use Rattle.dns_message_bytes.specs.view.Request.{option_of, IsSoundOption};

use dns_wire::BinDecoder;

/// An option of an OPT record, borrowed from a message (RFC 6891 section 6.1.2).
#[derive(Clone, Copy, Debug, Drop)]
pub struct OptionView<'a> {
    /// OPTION-CODE: the kind of the option.
    pub code: u16,
    /// OPTION-DATA, at most 65,535 bytes.
    pub data: &'a [u8],
}

impl<'a> OptionView<'a> {
    /// Reads an option. Returns `None` if the unread bytes do not begin with one; the decoder may then have advanced.
    pub(crate) fn read(decoder: &mut BinDecoder<'a>) -> Option<OptionView<'a>>
        ensures read { IfSome result (λ option.
            rest decoder.old ≡ option_form (option_of option) ++ rest decoder.new) }
        ensures sound { IfSome result (λ option. IsSoundOption (option_of option)) }
        ensures none { result ≡ None → (option : OptionValue) (more : List ℕ) → IsSoundOption option
            → rest decoder.old ≡ option_form option ++ more → ⊥ }
    {
        let Ok(code) = decoder.read_u16() else {
            return None;
        };
        let Ok(len) = decoder.read_u16() else {
            return None;
        };
        let Ok(data) = decoder.read_slice(usize::from(len)) else {
            return None;
        };
        Some(OptionView { code, data })
    }
}

/// Returns `true` if bytes are the encodings of options, one after another.
pub(crate) fn are_options(bytes: &[u8]) -> bool
    ensures sound { IsTrue result → (options : List OptionValue)
        × (AllByRecursion IsSoundOption options × (bytes.now ≡ flat_map option_form options)) }
    ensures only { (options : List OptionValue) → AllByRecursion IsSoundOption options
        → bytes.now ≡ flat_map option_form options → IsTrue result }
{
    let mut decoder = BinDecoder::new(bytes);
    while !decoder.is_empty() {
        let Some(_option) = OptionView::read(&mut decoder) else {
            return false;
        };
    }
    true
}
