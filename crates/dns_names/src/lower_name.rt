//! Names in lower case.

ghost use Rattle.std.specs.Prelude.{◌≡◌, ◌==◌, ◌&&◌, false, length, IsOk, IfOk};
ghost use Rattle.std.specs.Ordering.{as_partial_cmp};
ghost use Rattle.std.proofs.Common.{refl};
ghost use Rattle.dns_names.specs.Compare.{lower, at_or_below, same_name};
ghost use Rattle.dns_names.specs.internal.Compare.{same_name-partial, same_name-equivalence};
ghost use Rattle.dns_names.specs.Compare.{name_cmp, name_writes};
ghost use Rattle.dns_names.specs.internal.Compare.{name_cmp-total, name_cmp-partial, names_agree, hashed_alike};
ghost use Rattle.dns_names.specs.Labels.{begins_with_star, num_labels, labels_len};
ghost use Rattle.dns_names.specs.Build.{base_name, into_wildcard};
ghost use Rattle.dns_names.specs.Name.{IsInline};

use crate::name::Name;
use std::alloc::AllocError;
use std::cmp::Ordering;
use std::hash::{Hash, Hasher};
use std::marker::Model;

/// A name without ASCII capital letters, for use as a key (RFC 4343).
#[derive(Drop)]
pub struct LowerName {
    name: Name,
}

impl Model for LowerName {
    ghost use Rattle.std.specs.Prelude.{◌≡◌};
    ghost use Rattle.dns_names.specs.Compare.{lower};
    ghost use Rattle.dns_names.specs.Name.{DomainName};

    ghost Value = { DomainName };

    ghost view = { λ n. n.name };

    ghost invariant = { λ n. lower n.name.labels ≡ n.name.labels };
}

impl LowerName {
    /// Creates a copy of the name with its ASCII letters in lower case.
    pub fn new(name: &Name) -> Result<LowerName, AllocError>
        ensures ok { IfOk result (λ made. made
            ≡ record name.now { labels = lower name.now.labels }) }
        ensures inline { IsInline name.now.labels → IsOk result }
    {
        Ok(LowerName {
            name: name.to_lowercase()?,
        })
    }

    /// Returns the name as a `Name`.
    pub fn as_name(&self) -> &Name
        ensures value { result.now ≡ self.now }
        ensures is_lower { lower self.now.labels ≡ self.now.labels }
    {
        &self.name
    }

    /// Returns `true` for the root.
    pub fn is_root(&self) -> bool
        ensures { result ≡ (self.now.is_fqdn && length self.now.labels == 0) }
    {
        self.name.is_root()
    }

    /// Returns `true` if the name is fully qualified.
    pub fn is_fqdn(&self) -> bool
        ensures { result ≡ self.now.is_fqdn }
    {
        self.name.is_fqdn()
    }

    /// Returns the parent name, fully qualified, or a copy of a name without labels.
    pub fn base_name(&self) -> Result<LowerName, AllocError>
        ensures ok { IfOk result (λ name. name ≡ base_name self.now) }
        ensures inline { IsInline (base_name self.now).labels → IsOk result }
    {
        Ok(LowerName {
            name: self.name.base_name()?,
        })
    }

    /// Returns `true` if `name` is at or below this name, whether or not the names are fully qualified.
    pub fn zone_of(&self, name: &LowerName) -> bool
        ensures { result ≡ at_or_below self.now.labels name.now.labels }
    {
        self.name.zone_of(&name.name)
    }

    /// Returns the number of labels, not counting a leading `*`.
    pub fn num_labels(&self) -> u8
        ensures { result ≡ num_labels self.now.labels }
    {
        self.name.num_labels()
    }

    /// Returns the length of the labels with their length bytes, or 1 for a name without labels.
    pub fn len(&self) -> usize
        ensures { result ≡ labels_len self.now.labels }
    {
        self.name.len()
    }

    /// Returns `false`: the length is at least 1.
    pub fn is_empty(&self) -> bool
        ensures { result ≡ false }
    {
        self.name.is_empty()
    }

    /// Returns `true` if the first label is `*`.
    pub fn is_wildcard(&self) -> bool
        ensures { result ≡ begins_with_star self.now.labels }
    {
        self.name.is_wildcard()
    }

    /// Replaces the first label by `*`. A name without labels stays as it is.
    pub fn into_wildcard(self) -> Result<LowerName, AllocError>
        ensures ok { IfOk result (λ name. name ≡ into_wildcard self) }
        ensures inline { IsInline (into_wildcard self).labels → IsOk result }
    {
        let LowerName { name } = self;
        Ok(LowerName {
            name: name.into_wildcard()?,
        })
    }

    /// Returns a copy of the name.
    pub fn clone(&self) -> Result<LowerName, AllocError>
        ensures ok { IfOk result (λ name. name ≡ self.now) }
        ensures inline { IsInline self.now.labels → IsOk result }
    {
        Ok(LowerName {
            name: self.name.clone()?,
        })
    }
}

impl Clone for LowerName {
    ghost is_clone = { λ name copy. copy ≡ name };

    fn clone(&self) -> Result<Self, AllocError> {
        LowerName::clone(self)
    }
}

impl PartialEq for LowerName {
    ghost eq = { same_name };

    ghost laws = { same_name-partial };

    fn eq(&self, other: &LowerName) -> bool {
        self.name == other.name
    }
}

impl Eq for LowerName {
    ghost laws = { same_name-equivalence };
}

impl Ord for LowerName {
    ghost cmp = { name_cmp };

    ghost total = { name_cmp-total };

    ghost matches_partial_cmp = { λ x y. refl };

    ghost matches_eq = { names_agree };

    fn cmp(&self, other: &LowerName) -> Ordering {
        self.name.cmp(&other.name)
    }
}

impl PartialOrd for LowerName {
    ghost partial_cmp = { as_partial_cmp name_cmp };

    ghost laws = { name_cmp-partial };

    fn partial_cmp(&self, other: &LowerName) -> Option<Ordering> {
        Some(self.cmp(other))
    }
}

impl Hash for LowerName {
    ghost hash_input = { name_writes };

    ghost respects_eq = { hashed_alike };

    fn hash<H: Hasher>(&self, state: &mut H) {
        self.name.hash(state);
    }
}
