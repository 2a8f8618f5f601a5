//! Keys of names and addresses.

ghost use Rattle.std.specs.Prelude.{◌≡◌, ◌∷◌, ◌++◌, [], List, ℕ, IfOk, OnOk};
ghost use Rattle.stub_hosts.specs.internal.HostKeys.{label_key, labels_key, parts_key, address_key, pointer_key};

use dns_names::Name;
use std::alloc::{AllocError, Global};
use std::cmp::Ordering;
use std::marker::Model;
use std::net::IpAddr;

/// A list of numbers. The keys of names are in the order of the names.
#[derive(Drop)]
pub(crate) struct HostKey {
    numbers: Vec<u16>,
}

impl Model for HostKey {
    ghost use Rattle.std.specs.Prelude.{List, ℕ};

    ghost Value = { List ℕ };

    ghost view = { λ k. k.numbers.items };
}

impl HostKey {
    /// Returns the key of a name, taken as fully qualified.
    pub(crate) fn of_name(alloc: Global, name: &Name) -> Result<HostKey, AllocError>
        ensures { IfOk result (λ key. key ≡ labels_key name.now.labels) }
    {
        let mut numbers = Vec::new(alloc);
        push_labels(&mut numbers, name)?;
        Ok(HostKey { numbers })
    }

    /// Returns the key of a pointer from an address to a name.
    pub(crate) fn of_pointer(
        alloc: Global,
        address: IpAddr,
        name: &Name,
    ) -> Result<HostKey, AllocError>
        ensures { IfOk result (λ key. key ≡ pointer_key address name.now.labels) }
    {
        let mut numbers = Vec::new(alloc);
        push_address(&mut numbers, address, 0)?;
        push_labels(&mut numbers, name)?;
        Ok(HostKey { numbers })
    }

    /// Returns a key before those of the pointers of an address, where `end` is 0, or after them, where it is 1.
    pub(crate) fn of_address(
        alloc: Global,
        address: IpAddr,
        end: u16,
    ) -> Result<HostKey, AllocError>
        ensures { IfOk result (λ key. key ≡ address_key address (end ∷ [])) }
    {
        let mut numbers = Vec::new(alloc);
        push_address(&mut numbers, address, end)?;
        Ok(HostKey { numbers })
    }

    /// Copies the key.
    pub(crate) fn clone(&self) -> Result<HostKey, AllocError>
        ensures { IfOk result (λ key. key ≡ self.now) }
    {
        let mut numbers = Vec::new(*self.numbers.allocator());
        numbers.extend_from_slice(self.numbers.as_slice())?;
        Ok(HostKey { numbers })
    }
}

impl PartialEq for HostKey {
    ghost use Rattle.std.specs.Str.{bytes_eq};
    ghost use Rattle.std.specs.Cmp.{partial_equiv_from_equiv};
    ghost use Rattle.std.specs.Cmp.Lexicographic.{nat_list_eq_equiv};

    ghost eq = { bytes_eq };

    ghost laws = { partial_equiv_from_equiv nat_list_eq_equiv };

    fn eq(&self, other: &HostKey) -> bool {
        self.numbers == other.numbers
    }
}

impl Eq for HostKey {
    ghost use Rattle.std.specs.Cmp.Lexicographic.{nat_list_eq_equiv};

    ghost laws = { nat_list_eq_equiv };
}

impl Ord for HostKey {
    ghost use Rattle.stub_hosts.specs.internal.HostKeys.{key_cmp, key_cmp-total, key_cmp-equal};
    ghost use Rattle.std.proofs.Common.{refl};

    ghost cmp = { key_cmp };

    ghost total = { key_cmp-total };

    ghost matches_partial_cmp = { λ x y. refl };

    ghost matches_eq = { key_cmp-equal };

    fn cmp(&self, other: &HostKey) -> Ordering {
        self.numbers.cmp(&other.numbers)
    }
}

impl PartialOrd for HostKey {
    ghost use Rattle.std.specs.Ordering.{as_partial_cmp};
    ghost use Rattle.stub_hosts.specs.internal.HostKeys.{key_cmp, key_cmp-partial};

    ghost partial_cmp = { as_partial_cmp key_cmp };

    ghost laws = { key_cmp-partial };

    fn partial_cmp(&self, other: &HostKey) -> Option<Ordering> {
        Some(self.cmp(other))
    }
}

/// Adds the key of an address, which `end` ends.
fn push_address(numbers: &mut Vec<u16>, address: IpAddr, end: u16) -> Result<(), AllocError>
    ensures { OnOk result (numbers.new.items
        ≡ numbers.old.items ++ address_key address (end ∷ [])) }
{
    match address {
        IpAddr::V4(address) => {
            let [a, b, c, d] = address.octets();
            let (a, b) = (u16::from(a), u16::from(b));
            let (c, d) = (u16::from(c), u16::from(d));
            numbers.extend_from_slice(&[4, 2, a, 2, b, 2, c, 2, d, end])
        }
        IpAddr::V6(address) => {
            numbers.push(6)?;
            push_parts(numbers, &address.segments(), end)
        }
    }
}

/// Adds the key of the parts of an address, which `end` ends.
fn push_parts(numbers: &mut Vec<u16>, parts: &[u16], end: u16) -> Result<(), AllocError>
    ensures { OnOk result (numbers.new.items
        ≡ numbers.old.items ++ parts_key parts.now (end ∷ [])) }
{
    for part in parts {
        numbers.push(2)?;
        numbers.push(*part)?;
    }
    numbers.push(end)?;
    Ok(())
}

/// Adds the keys of the labels of a name, from right to left.
fn push_labels(numbers: &mut Vec<u16>, name: &Name) -> Result<(), AllocError>
    ensures { OnOk result (numbers.new.items ≡ numbers.old.items ++ labels_key name.now.labels) }
{
    let mut labels = name.iter();
    while let Some(label) = labels.next_back() {
        push_label(numbers, label)?;
    }
    Ok(())
}

/// Adds the key of a label.
fn push_label(numbers: &mut Vec<u16>, label: &[u8]) -> Result<(), AllocError>
    ensures { OnOk result (numbers.new.items ≡ numbers.old.items ++ label_key label.now) }
{
    for byte in label {
        numbers.push(u16::from(byte.to_ascii_lowercase()) + 1)?;
    }
    numbers.push(0)?;
    Ok(())
}
