//! Conversion into names.

ghost use Rattle.std.specs.Prelude.{◌≡◌, Result, Option, Ok, None, IsOk, string_bytes};
ghost use Rattle.dns_wire.specs.Error.{IsUnless};
ghost use Rattle.std.specs.declared.net.ip_addr.IpAddr.{IpAddr};
ghost use Rattle.dns_text.specs.Address.{IsTextOf};
ghost use Rattle.dns_names.specs.Name.{DomainName, IsInline};
ghost use Rattle.dns_names.specs.Parse.{name_of_text};
ghost use Rattle.dns_names.specs.declared.error.ParseError.{ParseError};

use crate::address::parse_ip;
use dns_names::{Name, ParseError};
use std::alloc::Global;
use std::net::IpAddr;

/// A value that converts into a name: a name, or text, which may also spell an address.
pub trait IntoName: Sized {
    /// The name, or why there is none.
    ghost name: { Self → Result DomainName ParseError };

    /// Whether this is the address that the value spells, or `None` if it spells none.
    ghost is_ip: { Self → Option IpAddr → Type 0 };

    /// Converts the value into a name. A name that is stored inline takes no memory.
    fn into_name(self, alloc: Global) -> Result<Name, ParseError>
        ensures outcome { IsUnless ParseError.Memory (name self) result }
        ensures inline { (made : DomainName) → name self ≡ Ok made → IsInline made.labels
            → IsOk result };

    /// Returns the address that the text spells, if it spells one.
    fn to_ip(&self) -> Option<IpAddr>
        ensures { is_ip self.now result };
}

impl IntoName for Name {
    ghost name = { λ own. Ok own };

    ghost is_ip = { λ _ ip. ip ≡ None };

    fn into_name(self, _alloc: Global) -> Result<Name, ParseError> {
        Ok(self)
    }

    fn to_ip(&self) -> Option<IpAddr> {
        None
    }
}

impl<'a> IntoName for &'a Name {
    ghost name = { λ own. Ok own.now };

    ghost is_ip = { λ _ ip. ip ≡ None };

    fn into_name(self, _alloc: Global) -> Result<Name, ParseError> {
        Ok(self.clone()?)
    }

    fn to_ip(&self) -> Option<IpAddr> {
        None
    }
}

impl<'a> IntoName for &'a str {
    ghost name = { λ text. name_of_text text.now };

    ghost is_ip = { λ text ip. IsTextOf text.now ip };

    fn into_name(self, alloc: Global) -> Result<Name, ParseError> {
        Name::from_ascii(alloc, self)
    }

    fn to_ip(&self) -> Option<IpAddr> {
        parse_ip(self.as_bytes())
    }
}

impl IntoName for String {
    ghost name = { λ text. name_of_text (string_bytes text) };

    ghost is_ip = { λ text ip. IsTextOf (string_bytes text) ip };

    fn into_name(self, alloc: Global) -> Result<Name, ParseError> {
        Name::from_ascii(alloc, self.as_str())
    }

    fn to_ip(&self) -> Option<IpAddr> {
        parse_ip(self.as_str().as_bytes())
    }
}
