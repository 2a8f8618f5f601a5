//! Names that are built octet by octet.

use super::Name;
use smallvec::SmallVec;
use std::alloc::{AllocError, Global};
use std::marker::Model;

/// The complete labels of a name, each after its length, and the octets of the current label after them.
#[derive(Drop)]
pub(crate) struct PartialName {
    wire: SmallVec<u8, 56>,
    label_count: u8,
    label_start: usize,
}

impl Model for PartialName {
    ghost use Rattle.dns_names.specs.Parse.{PartialName};
    ghost use Rattle.dns_names.specs.internal.Parse.{partial_name, IsPartial};

    ghost Value = { PartialName };

    ghost view = { λ n. partial_name n.label_count n.wire.items n.label_start };

    ghost invariant = { λ n. IsPartial n.label_count n.wire.items n.label_start };
}

impl PartialName {
    ghost use Rattle.std.specs.Prelude.{◌≡◌, ◌+◌, ◌<◌, ◌≤◌, [], ◌∷◌, ◌++◌, length, IsOk, OnOk, OnErr};
    ghost use Rattle.dns_wire.specs.Name.{name_len, max_name_len};
    ghost use Rattle.dns_names.specs.Name.{IsInline};
    ghost use Rattle.dns_names.specs.Parse.{IsInlinePartial};

    /// Creates a partial name without labels and octets.
    pub(crate) fn new(alloc: Global) -> Self
        ensures { result ≡ record { labels = []; label = [] } }
    {
        PartialName {
            wire: SmallVec::new(alloc),
            label_count: 0,
            label_start: 0,
        }
    }

    /// Returns the number of complete labels.
    pub(crate) fn label_count(&self) -> usize
        ensures { result ≡ length self.now.labels }
    {
        self.label_count as usize
    }

    /// Returns the length of the current label.
    pub(crate) fn label_len(&self) -> usize
        ensures { result ≡ length self.now.label }
    {
        self.wire.len() - self.label_start
    }

    /// Returns the length of the encoded name if the current label is its last.
    pub(crate) fn encoded_len(&self) -> usize
        ensures { result ≡ name_len self.now.labels + (length self.now.label + 1) }
    {
        self.wire.len() + 2
    }

    /// Appends an octet to the current label.
    pub(crate) fn push(&mut self, octet: u8) -> Result<(), AllocError>
        requires { length self.old.label < 63 }
        ensures ok { OnOk result (self.new
            ≡ record self.old { label = self.old.label ++ octet ∷ [] }) }
        ensures inline { IsInlinePartial (record self.old { label = self.old.label ++ octet ∷ [] })
            → IsOk result }
        ensures err { OnErr result (self.new ≡ self.old) }
    {
        prove!(self.wire.capacity() >= 56);
        self.wire.push(octet)?;
        Ok(())
    }

    /// Completes the current label.
    pub(crate) fn complete_label(&mut self) -> Result<(), AllocError>
        requires some { 0 < length self.old.label }
        requires fits { name_len self.old.labels + (length self.old.label + 1) ≤ max_name_len }
        ensures ok { OnOk result (self.new
            ≡ record { labels = self.old.labels ++ self.old.label ∷ []; label = [] }) }
        ensures inline { IsInline (self.old.labels ++ self.old.label ∷ []) → IsOk result }
        ensures err { OnErr result (self.new ≡ self.old) }
    {
        prove!(self.wire.capacity() >= 56);
        let len = self.label_len();
        self.wire.insert(self.label_start, len as u8)?;
        self.label_start = self.wire.len();
        self.label_count += 1;
        Ok(())
    }

    /// Returns the name of the complete labels. The current label must be empty.
    pub(crate) fn into_name(self, is_fqdn: bool) -> Name
        requires { self.label ≡ [] }
        ensures { result ≡ record { is_fqdn = is_fqdn; labels = self.labels } }
    {
        let PartialName {
            wire,
            label_count,
            label_start: _,
        } = self;
        Name {
            is_fqdn,
            label_count,
            wire,
        }
    }
}
