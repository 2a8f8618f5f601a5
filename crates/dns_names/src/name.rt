//! Domain names.

ghost use Rattle.std.specs.Prelude.{◌≡◌, ◌==◌, ◌+◌, ◌<◌, ◌≤◌, ◌&&◌, [], ◌∷◌, ◌++◌, false, true, drop, length, take, slice_get, IfOk, IsOk, OnOk, OnErr};
ghost use Rattle.dns_wire.specs.Name.{IsLabel, AreLabels, name_len, max_name_len};
ghost use Rattle.dns_wire.specs.Writing.{labels_form};
ghost use Rattle.dns_names.specs.Compare.{lower};
ghost use Rattle.dns_names.specs.Name.{IsInline};
ghost use Rattle.dns_names.specs.internal.Name.{IsRun, labels_in};

mod build;
mod compare;
mod labels;
mod partial;
mod wire;

pub use labels::LabelIter;
pub(crate) use partial::PartialName;
use smallvec::SmallVec;
use std::alloc::{AllocError, Global};
use std::marker::Model;

/// A domain name (RFC 1035 section 3.1), fully qualified or relative.
pub struct Name {
    is_fqdn: bool,
    label_count: u8,
    /// The labels as they are encoded, each after its length, without the root's zero byte.
    wire: SmallVec<u8, 56>,
}

impl Drop for Name {
    fn drop(self) {
        let Name {
            is_fqdn: _is_fqdn,
            label_count: _label_count,
            wire,
        } = self;
        drop(wire);
    }
}

impl Model for Name {
    ghost use Rattle.dns_names.specs.Name.{DomainName};
    ghost use Rattle.dns_names.specs.internal.Name.{labels_in, IsWire};

    ghost Value = { DomainName };

    ghost view = { λ n. record
        { is_fqdn = n.is_fqdn; labels = labels_in n.label_count n.wire.items } };

    ghost invariant = { λ n. IsWire n.label_count n.wire.items };
}

impl Name {
    /// The maximum length of an encoded name in bytes (RFC 1035 section 2.3.4).
    pub const MAX_LENGTH: usize = 255;

    /// The maximum number of labels, each of which takes at least two bytes of the encoding.
    pub const MAX_LABELS: usize = 127;

    /// Creates the relative name without labels.
    pub fn new(alloc: Global) -> Self
        ensures { result ≡ record { is_fqdn = false; labels = [] } }
    {
        Name {
            is_fqdn: false,
            label_count: 0,
            wire: SmallVec::new(alloc),
        }
    }

    /// Creates the root, the fully qualified name without labels.
    pub fn root(alloc: Global) -> Self
        ensures { result ≡ record { is_fqdn = true; labels = [] } }
    {
        Name {
            is_fqdn: true,
            label_count: 0,
            wire: SmallVec::new(alloc),
        }
    }

    /// Returns `true` for the root.
    pub fn is_root(&self) -> bool
        ensures { result ≡ (self.now.is_fqdn && length self.now.labels == 0) }
    {
        self.is_fqdn && self.label_count == 0
    }

    /// Returns `true` if the name is fully qualified, that is, ends at the root.
    pub fn is_fqdn(&self) -> bool
        ensures { result ≡ self.now.is_fqdn }
    {
        self.is_fqdn
    }

    /// Returns a copy of the name. It does not fail if there are at most 24 labels of at most 32 bytes in all, which
    /// are stored inline.
    pub fn clone(&self) -> Result<Self, AllocError>
        ensures ok { IfOk result (λ name. name ≡ self.now) }
        ensures inline { length self.now.labels ≤ 24
            → name_len self.now.labels ≤ length self.now.labels + 33 → IsOk result }
    {
        Ok(Name {
            is_fqdn: self.is_fqdn,
            label_count: self.label_count,
            wire: SmallVec::from_slice(*self.wire.allocator(), self.wire.as_slice())?,
        })
    }

    /// Returns the name with its ASCII letters in lower case. It does not fail if there are at most 24 labels of at
    /// most 32 bytes in all, which are stored inline.
    pub fn to_lowercase(&self) -> Result<Self, AllocError>
        ensures ok { IfOk result (λ name. name
            ≡ record self.now { labels = lower self.now.labels }) }
        ensures inline { length self.now.labels ≤ 24
            → name_len self.now.labels ≤ length self.now.labels + 33 → IsOk result }
    {
        let mut name = self.clone()?;
        name.make_lowercase();
        Ok(name)
    }

    /// Returns the name's allocator.
    pub(crate) fn allocator(&self) -> Global {
        *self.wire.allocator()
    }

    /// Returns the number of labels, with a leading `*`.
    pub(crate) fn label_count(&self) -> usize
        ensures value { result ≡ length self.now.labels }
        ensures labels { AreLabels self.now.labels }
    {
        self.label_count as usize
    }

    /// Returns the length of the name's uncompressed encoding.
    pub fn encoded_len(&self) -> usize
        ensures value { result ≡ name_len self.now.labels }
        ensures labels { AreLabels self.now.labels }
    {
        self.wire.len() + 1
    }

    /// Returns the labels, each after its length.
    pub(crate) fn wire(&self) -> &[u8]
        ensures form { result.now ≡ labels_form self.now.labels }
        ensures labels { AreLabels self.now.labels }
    {
        self.wire.as_slice()
    }

    /// Returns the length of the encoding of the first labels.
    fn offset_of(&self, index: usize) -> usize
        requires { index ≤ length self.now.labels }
        ensures value { result ≡ length (labels_form (take index self.now.labels)) }
        ensures within { result ≤ length (labels_form self.now.labels) }
    {
        let wire = self.wire();
        let mut offset = 0;
        for passed in 0..index {
            offset += wire[offset] as usize + 1;
        }
        offset
    }

    /// Returns the labels after the first `skipped`, each after its length.
    pub(crate) fn wire_after(&self, skipped: usize) -> &[u8]
        requires { skipped ≤ length self.now.labels }
        ensures value { result.now ≡ labels_form (drop skipped self.now.labels) }
        ensures labels { AreLabels self.now.labels }
    {
        &self.wire()[self.offset_of(skipped)..]
    }

    /// Returns the label at an index, from the left.
    pub(crate) fn label(&self, index: usize) -> &[u8]
        requires { index < length self.now.labels }
        ensures value { slice_get self.now.labels index ≡ Some result.now }
        ensures is_label { IsLabel result.now }
    {
        let rest = self.wire_after(index);
        &rest[1..rest[0] as usize + 1]
    }

    /// Appends a label. It does not fail if the labels are still stored inline.
    pub(crate) fn push(&mut self, label: &[u8]) -> Result<(), AllocError>
        requires is_label { IsLabel label.now }
        requires fits { name_len self.old.labels + (length label.now + 1) ≤ max_name_len }
        ensures ok { OnOk result (self.new
            ≡ record self.old { labels = self.old.labels ++ label.now ∷ [] }) }
        ensures inline { IsInline (self.old.labels ++ label.now ∷ []) → IsOk result }
        ensures err { OnErr result (self.new ≡ self.old) }
    {
        prove!(self.wire.capacity() >= 56);
        self.wire.reserve(label.len() + 1)?;
        self.wire.push_reserved(label.len() as u8);
        self.wire.extend_from_slice(label)?;
        self.label_count += 1;
        Ok(())
    }

    /// Appends so many labels, each after its length. It does not fail if the labels are still stored inline.
    pub(crate) fn push_run(&mut self, run: &[u8], count: usize) -> Result<(), AllocError>
        requires run { IsRun count run.now }
        requires fits { name_len (self.old.labels ++ labels_in count run.now) ≤ max_name_len }
        ensures ok { OnOk result (self.new
            ≡ record self.old { labels = self.old.labels ++ labels_in count run.now }) }
        ensures inline { IsInline (self.old.labels ++ labels_in count run.now) → IsOk result }
        ensures err { OnErr result (self.new ≡ self.old) }
    {
        prove!(self.wire.capacity() >= 56);
        self.wire.extend_from_slice(run)?;
        self.label_count += count as u8;
        Ok(())
    }

    /// Makes the name fully qualified or relative.
    pub fn set_fqdn(&mut self, is_fqdn: bool)
        ensures { self.new ≡ record self.old { is_fqdn = is_fqdn } }
    {
        self.is_fqdn = is_fqdn;
    }

    /// Converts ASCII letters to lower case in place.
    fn make_lowercase(&mut self)
        ensures { self.new ≡ record self.old { labels = lower self.old.labels } }
    {
        self.wire.as_mut_slice().make_ascii_lowercase();
    }
}

impl Clone for Name {
    ghost is_clone = { λ name copy. copy ≡ name };

    fn clone(&self) -> Result<Self, AllocError> {
        Name::clone(self)
    }
}
