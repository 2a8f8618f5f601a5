//! Names built from labels and other names (RFC 1035 sections 2.3.4 and 3.1).

ghost use Rattle.std.specs.Prelude.{◌≡◌, ◌≢◌, ◌≤◌, ◌++◌, ◌∷◌, [], Ok, Err, drop, IfOk, IfErr, IsOk, OnOk, List, ◌+◌, ◌<◌, length};
ghost use Rattle.dns_wire.specs.Name.{IsLabel, name_len, AreLabels, max_name_len};
ghost use Rattle.dns_names.specs.Build.{append_label, prepend_label, append_name, append_domain, append_each, root_name};
ghost use Rattle.std.specs.Iterator.{Drains, Yields, IsFinite};
ghost use Rattle.dns_names.specs.Name.{DomainName, IsInline, IsInlineOutcome};
ghost use Rattle.dns_names.specs.Label.{IsInlineLabel};
ghost use Rattle.dns_names.specs.Build.{trim_to, base_name, into_wildcard};
ghost use Rattle.dns_wire.specs.Error.{IsUnless};

use crate::error::ParseError;
use crate::into_label::IntoLabel;
use crate::name::Name;
use std::alloc::{AllocError, Global};

impl Name {
    /// Builds a fully qualified name from labels, left to right. The error is that of the first label that is refused;
    /// it is the last label taken from the iterator. Labels of at most 24 bytes take no memory, while the name is stored
    /// inline.
    pub fn from_labels<I: IntoIterator<Item = L>, L: IntoLabel + Drop>(
        alloc: Global,
        labels: I,
    ) -> Result<Name, ParseError>
        requires { (it : I.IntoIter) → I.into_iter_gives labels it
            → I.IntoIter.can_next it × IsFinite (I.IntoIter.remaining it) }
        ensures ok { IfOk result (λ name. (it : I.IntoIter) × (given : List L)
            × I.into_iter_gives labels it
            × Drains I.IntoIter.next_gives it given
            × (append_each L.label root_name given ≡ Ok name)) }
        ensures refused { IfErr result (λ error. error ≢ ParseError.Memory
            → (it : I.IntoIter) × (given : List L) × (last : L) × (rest : I.IntoIter)
            × (name : DomainName)
            × I.into_iter_gives labels it
            × Yields I.IntoIter.next_gives it (given ++ last ∷ []) rest
            × (append_each L.label root_name given ≡ Ok name)
            × (append_label name (L.label last) ≡ Err error)) }
        ensures inline { IfErr result (λ error. (it : I.IntoIter) × (given : List L)
            × (last : L) × (rest : I.IntoIter) × (name : DomainName)
            × I.into_iter_gives labels it
            × Yields I.IntoIter.next_gives it (given ++ last ∷ []) rest
            × (append_each L.label root_name given ≡ Ok name)
            × (IsInlineLabel (L.label last) → IsInlineOutcome (append_label name (L.label last))
            → append_label name (L.label last) ≡ Err error)) }
    {
        let mut name = Name::root(alloc);
        for label in labels {
            name = name.append_label(label)?;
        }
        Ok(name)
    }

    /// Appends a label at the right. This takes no memory if the label has at most 24 bytes, and the name that is made is
    /// stored inline.
    pub fn append_label<L: IntoLabel>(self, label: L) -> Result<Name, ParseError>
        ensures outcome { IsUnless ParseError.Memory (append_label self (L.label label)) result }
        ensures fault { (error : ParseError) → L.label label ≡ Err error → result ≡ Err error }
        ensures inline { IsInlineLabel (L.label label)
            → IsInlineOutcome (append_label self (L.label label))
            → result ≡ append_label self (L.label label) }
    {
        let label = label.into_label(self.allocator())?;
        self.append_bytes(label.as_bytes())
    }

    /// Appends a label of these bytes.
    fn append_bytes(mut self, label: &[u8]) -> Result<Name, ParseError>
        requires { IsLabel label.now }
        ensures outcome { IsUnless ParseError.Memory (append_label self (Ok label.now)) result }
        ensures inline { IsInlineOutcome (append_label self (Ok label.now))
            → result ≡ append_label self (Ok label.now) }
    {
        if self.encoded_len() + label.len() + 1 > Name::MAX_LENGTH {
            return Err(ParseError::DomainNameTooLong);
        }
        self.push(label)?;
        Ok(self)
    }

    /// Returns the name with a label prepended at the left. This takes no memory if the label has at most 24 bytes, and
    /// the name that is made is stored inline.
    pub fn prepend_label<L: IntoLabel>(&self, label: L) -> Result<Name, ParseError>
        ensures outcome { IsUnless ParseError.Memory
            (prepend_label (L.label label) self.now) result }
        ensures fault { (error : ParseError) → L.label label ≡ Err error → result ≡ Err error }
        ensures inline { IsInlineLabel (L.label label)
            → IsInlineOutcome (prepend_label (L.label label) self.now)
            → result ≡ prepend_label (L.label label) self.now }
    {
        let label = label.into_label(self.allocator())?;
        self.prepend_bytes(label.as_bytes())
    }

    /// Returns the name with a label of these bytes prepended.
    fn prepend_bytes(&self, label: &[u8]) -> Result<Name, ParseError>
        requires { IsLabel label.now }
        ensures outcome { IsUnless ParseError.Memory
            (prepend_label (Ok label.now) self.now) result }
        ensures inline { IsInlineOutcome (prepend_label (Ok label.now) self.now)
            → result ≡ prepend_label (Ok label.now) self.now }
    {
        if self.encoded_len() + label.len() + 1 > Name::MAX_LENGTH {
            return Err(ParseError::DomainNameTooLong);
        }
        let mut name = Name::new(self.allocator());
        name.push(label)?;
        name.push_labels(self, 0)?;
        name.set_fqdn(self.is_fqdn());
        Ok(name)
    }

    /// Appends the labels of another name. The result is fully qualified if the other name is.
    pub fn append_name(mut self, other: &Name) -> Result<Name, ParseError>
        ensures outcome { IsUnless ParseError.Memory (append_name self other.now) result }
        ensures fault { (error : ParseError) → append_name self other.now ≡ Err error
            → result ≡ Err error }
        ensures inline { IsInlineOutcome (append_name self other.now)
            → result ≡ append_name self other.now }
    {
        if self.encoded_len() + other.encoded_len() > Name::MAX_LENGTH + 1 {
            return Err(ParseError::DomainNameTooLong);
        }
        self.push_labels(other, 0)?;
        self.set_fqdn(other.is_fqdn());
        Ok(self)
    }

    /// Appends the labels of a domain. The result is fully qualified.
    pub fn append_domain(self, domain: &Name) -> Result<Name, ParseError>
        ensures outcome { IsUnless ParseError.Memory (append_domain self domain.now) result }
        ensures fault { (error : ParseError) → append_domain self domain.now ≡ Err error
            → result ≡ Err error }
        ensures inline { IsInlineOutcome (append_domain self domain.now)
            → result ≡ append_domain self domain.now }
    {
        let mut name = self.append_name(domain)?;
        name.set_fqdn(true);
        Ok(name)
    }

    /// Returns the parent name, fully qualified, or a copy of a name without labels.
    pub fn base_name(&self) -> Result<Name, AllocError>
        ensures ok { IfOk result (λ name. name ≡ base_name self.now) }
        ensures inline { IsInline (base_name self.now).labels → IsOk result }
    {
        let count = self.label_count();
        if count == 0 {
            return self.clone();
        }
        self.trim_to(count - 1)
    }

    /// Returns the last `num_labels` labels as a fully qualified name, or a copy if the name has fewer.
    pub fn trim_to(&self, num_labels: usize) -> Result<Name, AllocError>
        ensures ok { IfOk result (λ name. name ≡ trim_to self.now num_labels) }
        ensures inline { IsInline (trim_to self.now num_labels).labels → IsOk result }
    {
        let count = self.label_count();
        if num_labels > count {
            return self.clone();
        }
        let mut name = Name::root(self.allocator());
        name.push_labels(self, count - num_labels)?;
        Ok(name)
    }

    /// Replaces the first label by `*` (RFC 4592 section 2.1.1). A name without labels stays as it is.
    pub fn into_wildcard(self) -> Result<Name, AllocError>
        ensures ok { IfOk result (λ name. name ≡ into_wildcard self) }
        ensures inline { IsInline (into_wildcard self).labels → IsOk result }
    {
        if self.label_count() == 0 {
            return Ok(self);
        }
        self.with_star()
    }

    /// Returns a copy with `*` in place of the first label.
    fn with_star(&self) -> Result<Name, AllocError>
        requires some { 0 < length self.now.labels }
        requires labels { AreLabels self.now.labels }
        ensures ok { IfOk result (λ name. name ≡ into_wildcard self.now) }
        ensures inline { IsInline (into_wildcard self.now).labels → IsOk result }
    {
        let is_fqdn = self.is_fqdn();
        let mut name = Name::new(self.allocator());
        name.push(b"*")?;
        name.push_labels(self, 1)?;
        name.set_fqdn(is_fqdn);
        Ok(name)
    }

    /// Appends the labels of another name, without the first `skipped` of them.
    pub(crate) fn push_labels(&mut self, other: &Name, skipped: usize) -> Result<(), AllocError>
        requires within { skipped ≤ length other.now.labels }
        requires fits { name_len (self.old.labels ++ drop skipped other.now.labels) ≤ max_name_len }
        ensures ok { OnOk result (self.new
            ≡ record self.old { labels = self.old.labels ++ drop skipped other.now.labels }) }
        ensures inline { IsInline (self.old.labels ++ drop skipped other.now.labels)
            → IsOk result }
    {
        self.push_run(other.wire_after(skipped), other.label_count() - skipped)
    }
}
