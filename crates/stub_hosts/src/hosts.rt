//! Names and addresses that are known without asking.

ghost use Rattle.std.specs.Prelude.{◌≡◌, ◌⊎◌, ◌+◌, ◌≤◌, ◌^◌, [], true, None, Ok, IfOk, OnOk, OnErr};
ghost use Rattle.dns_wire.specs.codes.RecordType.{type_number, type_of};
ghost use Rattle.stub_lookup.specs.Lookup.{lookup_of, max_ttl};

mod address_index;
mod entries;
mod file;
mod key;
mod lookup;
mod table;

use dns_messages::Query;
use dns_names::Name;
use dns_wire::RecordType;
pub use file::HostsFault;
use std::alloc::{AllocError, Global};
use std::marker::Model;
use std::net::IpAddr;
use stub_lookup::{Lookup, Moment};
use table::HostTable;

/// Names and their addresses, as a hosts file has them.
#[derive(Drop)]
pub struct Hosts {
    a: HostTable,
    aaaa: HostTable,
    alloc: Global,
}

impl Model for Hosts {
    ghost use Rattle.stub_hosts.specs.Hosts.{HostsContent};

    ghost Value = { HostsContent };

    ghost view = { λ h. record { a = h.a; aaaa = h.aaaa } };
}

impl Hosts {
    ghost use Rattle.stub_hosts.specs.Hosts.{with_lookup, static_lookup, pointer_lookup, pointers, entries_of, qualified, answered};
    ghost use Rattle.dns_names.specs.Reverse.{arpa_prefix};

    /// Creates hosts without names.
    pub fn default(alloc: Global) -> Hosts
        ensures { result ≡ record { a = []; aaaa = [] } }
    {
        Hosts {
            a: HostTable::new(alloc),
            aaaa: HostTable::new(alloc),
            alloc,
        }
    }

    /// Inserts a lookup for a name, taken as fully qualified, and a type, `A` or `AAAA`. Its records are appended to those
    /// of the name and the type, and the sooner deadline is kept; that of a new name and type is at most
    /// [`MAX_TTL`](stub_lookup::MAX_TTL) seconds after `now`.
    pub fn insert(
        &mut self,
        name: Name,
        record_type: RecordType,
        lookup: Lookup,
        now: Moment,
    ) -> Result<(), AllocError>
        requires address { (type_number record_type ≡ 1) ⊎ (type_number record_type ≡ 28) }
        requires moment { now ≤ 2 ^ 62 }
        ensures ok { OnOk result (self.new
            ≡ with_lookup self.old name (type_of (type_number record_type)) lookup now) }
        ensures err { OnErr result (self.new ≡ self.old) }
    {
        let mut name = name;
        name.set_fqdn(true);
        match record_type.canonical() {
            RecordType::AAAA => self.aaaa.insert(name, RecordType::AAAA, lookup, now),
            _ => self.a.insert(name, RecordType::A, lookup, now),
        }
    }

    /// Returns what is known for a question of any class. The name is taken as fully qualified. For `A` and `AAAA` that is
    /// the lookup of the name if it has answers; for `PTR` the names of the address of which the name is the reverse name,
    /// where a reverse name of a network stands for its first address; and for other types nothing. If nothing is known for
    /// a fully qualified name, the result is `Ok(None)`, whatever memory there is.
    pub fn lookup_static_host(
        &self,
        query: &Query,
        now: Moment,
    ) -> Result<Option<Lookup>, AllocError>
        requires { now ≤ 2 ^ 62 }
        ensures found { IfOk result (λ found. found ≡ static_lookup self.now query.now now) }
        ensures decided { query.now.name.is_fqdn ≡ true
            → static_lookup self.now query.now now ≡ None → result ≡ Ok None }
    {
        match query.query_type.canonical() {
            RecordType::A => self.a.lookup(&query.name),
            RecordType::AAAA => self.aaaa.lookup(&query.name),
            RecordType::PTR => self.lookup_pointers(query, now),
            _ => Ok(None),
        }
    }

    /// Returns the names of the address that a name, taken as fully qualified, is the reverse name of.
    fn lookup_pointers(&self, query: &Query, now: Moment) -> Result<Option<Lookup>, AllocError>
        requires { now ≤ 2 ^ 62 }
        ensures found { IfOk result (λ found. found
            ≡ pointer_lookup (arpa_prefix (qualified query.now.name)) self.now query.now now) }
        ensures decided { query.now.name.is_fqdn ≡ true
            → pointer_lookup (arpa_prefix (qualified query.now.name)) self.now query.now now ≡ None
            → result ≡ Ok None }
    {
        if query.name.is_fqdn() {
            return self.pointers_at(query, &query.name, now);
        }
        let mut owner = query.name.clone()?;
        owner.set_fqdn(true);
        self.pointers_at(query, &owner, now)
    }

    /// Returns the pointers from the name of a question, which is fully qualified, as the answer to the question.
    fn pointers_at(
        &self,
        query: &Query,
        owner: &Name,
        now: Moment,
    ) -> Result<Option<Lookup>, AllocError>
        requires moment { now ≤ 2 ^ 62 }
        requires owner { owner.now ≡ qualified query.now.name }
        ensures found { IfOk result (λ found. found
            ≡ pointer_lookup (arpa_prefix owner.now) self.now query.now now) }
        ensures decided { pointer_lookup (arpa_prefix owner.now) self.now query.now now ≡ None
            → result ≡ Ok None }
    {
        match owner.parse_arpa_name() {
            Ok(prefix) => self.pointers_of(query, owner, prefix.addr(), now),
            Err(_) => Ok(None),
        }
    }

    /// Returns the pointers from an owner to the names of an address, as the answer to a question.
    fn pointers_of(
        &self,
        query: &Query,
        owner: &Name,
        address: IpAddr,
        now: Moment,
    ) -> Result<Option<Lookup>, AllocError>
        requires { now ≤ 2 ^ 62 }
        ensures found { IfOk result (λ found. found ≡ answered (lookup_of query.now
            (pointers owner.now address (entries_of address self.now)) (now + max_ttl))) }
        ensures decided { pointers owner.now address (entries_of address self.now) ≡ []
            → result ≡ Ok None }
    {
        let pointers = self.entries(address).pointers(owner, address)?;
        if pointers.is_empty() {
            return Ok(None);
        }
        let query = query.clone()?;
        Ok(Some(Lookup::new_with_max_ttl(self.alloc, query, pointers, now)?))
    }

    /// Returns the entries of an address family.
    fn entries(&self, address: IpAddr) -> &HostTable
        ensures { result.now ≡ entries_of address self.now }
    {
        match address {
            IpAddr::V4(_) => &self.a,
            IpAddr::V6(_) => &self.aaaa,
        }
    }
}
