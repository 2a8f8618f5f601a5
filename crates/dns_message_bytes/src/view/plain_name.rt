//! Names without compression pointers, borrowed from a message (RFC 1035 section 3.1).

ghost use Rattle.std.specs.Prelude.{◌≡◌, ◌++◌, true, length, ℕ, List, None, IfSome, IfOk, IsOk};
ghost use Rattle.dns_wire.specs.Decoder.{rest};
ghost use Rattle.dns_wire.specs.Name.{AreLabels};
ghost use Rattle.dns_wire.specs.Writing.{labels_form, whole_form};
ghost use Rattle.dns_names.specs.Name.{IsInline};

mod compare;
mod labels;

use dns_names::Name;
use dns_wire::BinDecoder;
pub use labels::PlainLabels;
use std::alloc::{AllocError, Global};
use std::marker::Model;

/// The greatest length of a label, in bytes (RFC 1035 section 2.3.4).
const MAX_LABEL_LEN: u8 = 63;

/// The greatest length of a name, in bytes (RFC 1035 section 2.3.4).
const MAX_NAME_LEN: usize = 255;

/// A fully qualified name that is encoded without compression pointers, borrowed from a message (RFC 1035 section 3.1).
#[derive(Drop)]
pub struct PlainName<'a> {
    label_count: u8,
    /// The labels, each after its length, and the root's zero byte.
    bytes: &'a [u8],
}

impl<'a> Model for PlainName<'a> {
    ghost use Rattle.std.specs.Prelude.{true};
    ghost use Rattle.dns_names.specs.Name.{DomainName};
    ghost use Rattle.dns_names.specs.internal.Name.{labels_in};
    ghost use Rattle.dns_message_bytes.specs.view.internal.PlainNames.{IsWhole};

    ghost Value = { DomainName };

    ghost view = { λ n. record { is_fqdn = true; labels = labels_in n.label_count n.bytes.now } };

    ghost invariant = { λ n. IsWhole n.label_count n.bytes.now };
}

impl<'a> PlainName<'a> {
    /// Reads a name, and the root's zero byte. Returns `None` if the unread bytes do not begin with a name without
    /// compression pointers.
    pub(crate) fn read(decoder: &mut BinDecoder<'a>) -> Option<PlainName<'a>>
        ensures read { IfSome result (λ name.
            rest decoder.old ≡ whole_form name.labels ++ rest decoder.new) }
        ensures fqdn { IfSome result (λ name. name.is_fqdn ≡ true) }
        ensures labels { IfSome result (λ name. AreLabels name.labels) }
        ensures none { result ≡ None → (labels : List (List ℕ)) (more : List ℕ)
            → AreLabels labels → rest decoder.old ≡ whole_form labels ++ more → ⊥ }
        ensures bytes { decoder.new.bytes ≡ decoder.old.bytes }
    {
        let start = decoder.index();
        let Some(label_count) = pass_labels(decoder) else {
            return None;
        };
        Some(PlainName {
            label_count,
            bytes: decoder.slice_from(start),
        })
    }

    /// Returns the encoding of the name: its labels, each after its length, and the root's zero byte (RFC 1035 section 3.1).
    pub fn as_wire(&self) -> &'a [u8]
        ensures value { result.now ≡ whole_form self.now.labels }
        ensures labels { AreLabels self.now.labels }
        ensures fqdn { self.now.is_fqdn ≡ true }
    {
        self.bytes
    }

    /// Returns the number of labels.
    pub fn label_count(&self) -> usize
        ensures { result ≡ length self.now.labels }
    {
        usize::from(self.label_count)
    }

    /// Returns the labels, each after its length.
    fn label_bytes(&self) -> &'a [u8]
        ensures form { result.now ≡ labels_form self.now.labels }
        ensures labels { AreLabels self.now.labels }
        ensures fqdn { self.now.is_fqdn ≡ true }
    {
        let bytes = self.as_wire();
        prove!(bytes.len() > 0);
        &bytes[..bytes.len() - 1]
    }

    /// Copies the name. It takes no memory if there are at most 24 labels of at most 32 bytes in all, which are stored inline.
    pub fn to_name(&self, alloc: Global) -> Result<Name, AllocError>
        ensures ok { IfOk result (λ name. name ≡ self.now) }
        ensures inline { IsInline self.now.labels → IsOk result }
    {
        let bytes = self.as_wire();
        match Name::read(alloc, &mut BinDecoder::new(bytes)) {
            Ok(name) => Ok(name),
            // The encoding of a name is refused for want of memory alone.
            Err(_memory) => Err(AllocError),
        }
    }
}

ghost use Rattle.dns_message_bytes.specs.view.internal.PlainNames.{PassesLabels};

/// Reads labels and the root's zero byte after them, and returns the number of the labels. Returns `None` if the unread bytes
/// do not begin with the labels of a name.
fn pass_labels(decoder: &mut BinDecoder<'_>) -> Option<u8>
    ensures passed { IfSome result (λ count. PassesLabels decoder.old count decoder.new) }
    ensures none { result ≡ None → (labels : List (List ℕ)) (more : List ℕ)
        → AreLabels labels → rest decoder.old ≡ whole_form labels ++ more → ⊥ }
    ensures bytes { decoder.new.bytes ≡ decoder.old.bytes }
{
    let start = decoder.index();
    let mut label_count = 0;
    loop {
        let Ok(len) = decoder.read_u8() else {
            return None;
        };
        if len == 0 {
            return Some(label_count);
        }
        if len > MAX_LABEL_LEN || decoder.index() - start + usize::from(len) >= MAX_NAME_LEN {
            return None;
        }
        let Ok(_label) = decoder.read_slice(usize::from(len)) else {
            return None;
        };
        label_count += 1;
    }
}
