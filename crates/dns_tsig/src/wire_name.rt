//! Names of keys in canonical form (RFC 4034 section 6.2).

ghost use Rattle.std.specs.Prelude.{◌≡◌, ◌≤◌, ◌+◌, ◌++◌, length};
ghost use Rattle.dns_tsig.specs.WireName.{canonical_label, canonical_name};

use arrayvec::ArrayVec;
use dns_names::Name;

/// The greatest length of a name on the wire.
const MAX_NAME_LEN: usize = Name::MAX_LENGTH;

/// A name on the wire, without compression and in lower case.
pub type WireName = ArrayVec<u8, MAX_NAME_LEN>;

/// Returns a name as it is on the wire, without compression and in lower case. A relative name is taken as fully qualified.
pub fn canonical_name(name: &Name) -> WireName
    ensures { result.items ≡ canonical_name name.now.labels }
{
    prove!(name.encoded_len() <= Name::MAX_LENGTH);
    let mut bytes = ArrayVec::new();
    let mut labels = name.iter();
    while let Some(label) = labels.next() {
        push_label(&mut bytes, label);
    }
    bytes.push(0);
    bytes
}

/// Appends a label after its length.
fn push_label(bytes: &mut WireName, label: &[u8])
    requires room { length bytes.old.items + length label.now + 1 ≤ 254 }
    requires short { length label.now ≤ 63 }
    ensures { bytes.new.items ≡ bytes.old.items ++ canonical_label label.now }
{
    bytes.push(label.len() as u8);
    for byte in label {
        bytes.push(byte.to_ascii_lowercase());
    }
}
