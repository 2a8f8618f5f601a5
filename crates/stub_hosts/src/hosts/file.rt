//! Hosts files.

ghost use Rattle.std.specs.Prelude.{◌≡◌, ◌≢◌, ◌≤◌, ◌^◌, ◌∷◌, [], List, IfOk, OnOk, OnErr};
ghost use Rattle.std.specs.Str.{IsUtf8};
ghost use Rattle.std.specs.Str.Iter.{split_whitespace_rest};
ghost use Rattle.stub_hosts.specs.Hosts.{with_host, with_hosts, host_lookup};
ghost use Rattle.stub_hosts.specs.HostsFile.{without_mark, without_comment, host_name, words, hosts_at, lines_of, AreHostsOfWords, HaveNames, ReadsLine, ReadsLines};
ghost use Rattle.stub_hosts.specs.internal.HostsFile.{InsertsHosts};

use crate::hosts::Hosts;
use dns_data::{A, AAAA, RData};
use dns_messages::Query;
use dns_names::{Name, ParseError};
use dns_text::parse_ip;
use dns_wire::RecordType;
use std::alloc::{AllocError, Global};
use std::net::IpAddr;
use std::str::SplitWhitespace;
use stub_lookup::{Lookup, Moment};
use thiserror::Error;

/// An error of reading a hosts file.
#[derive(Clone, Copy, Debug, PartialEq, Eq, Error)]
pub enum HostsFault {
    /// A line is not valid UTF-8. The hosts of the lines before it were inserted.
    #[error("line of hosts is not valid UTF-8")]
    Utf8,
    /// Memory could not be allocated. The hosts before that were inserted, also those of the same line.
    #[error("out of memory")]
    Memory,
}

impl From<AllocError> for HostsFault {
    ghost use Rattle.std.specs.Prelude.{◌≡◌};
    ghost use Rattle.stub_hosts.specs.declared.hosts.file.HostsFault.TheVariants.{Memory};

    ghost from_gives = { λ _ e. e ≡ Memory };

    fn from(_e: AllocError) -> HostsFault {
        HostsFault::Memory
    }
}

impl Hosts {
    ghost use Rattle.stub_hosts.specs.HostsFile.{Host};

    /// Inserts the hosts of a file. A line has an address and then its names, separated by white space.
    ///
    /// A byte-order mark at the start of the file is skipped, and a `#` begins a comment. Lines whose first word is not
    /// an address are skipped, and so are words that are not names. The ASCII letters of names are converted to lower
    /// case, and names are fully qualified; the TTL of their records is [`MAX_TTL`](stub_lookup::MAX_TTL). Addresses of the same
    /// name are appended to those before.
    ///
    /// Reading ends at the first line that is not valid UTF-8, its comment included, or when memory cannot be allocated.
    /// The hosts before that are inserted. Only lines with an address and a word after it take memory.
    pub fn read_hosts_conf(&mut self, src: &[u8], now: Moment) -> Result<(), HostsFault>
        requires { now ≤ 2 ^ 62 }
        ensures { (hosts : List Host) × ReadsLines (lines_of src.now) hosts result
            × (self.new ≡ with_hosts now self.old hosts) }
    {
        for line in without_mark(src).split(|byte| *byte == b'\n') {
            self.read_line(line, now)?;
        }
        Ok(())
    }

    /// Inserts the hosts of a line.
    fn read_line(&mut self, line: &[u8], now: Moment) -> Result<(), HostsFault>
        requires { now ≤ 2 ^ 62 }
        ensures { (hosts : List Host) × ReadsLine line.now hosts result
            × (self.new ≡ with_hosts now self.old hosts) }
    {
        match str::from_utf8(line) {
            Ok(text) => Ok(self.read_words(without_comment(text), now)?),
            Err(_) => Err(HostsFault::Utf8),
        }
    }

    /// Inserts the hosts of a line without a comment.
    fn read_words(&mut self, text: &str, now: Moment) -> Result<(), AllocError>
        requires { now ≤ 2 ^ 62 }
        ensures inserts { InsertsHosts (AreHostsOfWords (words text.now))
            now self.old self.new result }
        ensures decided { OnErr result (HaveNames (words text.now)) }
    {
        let mut words = text.split_whitespace();
        let Some(first) = words.next() else {
            return Ok(());
        };
        match parse_ip(first.as_bytes()) {
            Some(address) => self.read_names(address, words, now),
            None => Ok(()),
        }
    }

    /// Inserts the names of an address.
    fn read_names(
        &mut self,
        address: IpAddr,
        names: SplitWhitespace<'_>,
        now: Moment,
    ) -> Result<(), AllocError>
        requires moment { now ≤ 2 ^ 62 }
        requires utf8 { IsUtf8 (split_whitespace_rest names) }
        ensures inserts { InsertsHosts
            (λ hosts. hosts ≡ hosts_at address (words (split_whitespace_rest names.entry)))
            now self.old self.new result }
        ensures decided { OnErr result (words (split_whitespace_rest names.entry) ≢ []) }
    {
        for word in names {
            self.read_name(address, word, now)?;
        }
        Ok(())
    }

    /// Inserts a name of an address, if the word is a name.
    fn read_name(&mut self, address: IpAddr, word: &str, now: Moment) -> Result<(), AllocError>
        requires { now ≤ 2 ^ 62 }
        ensures ok { OnOk result (self.new
            ≡ with_hosts now self.old (hosts_at address (word.now ∷ []))) }
        ensures err { OnErr result (self.new ≡ self.old) }
    {
        match parse_host_name(self.alloc, word)? {
            Some(name) => self.insert_host(name, address, now),
            None => Ok(()),
        }
    }

    /// Inserts a name of an address.
    fn insert_host(&mut self, name: Name, address: IpAddr, now: Moment) -> Result<(), AllocError>
        requires { now ≤ 2 ^ 62 }
        ensures ok { OnOk result (self.new
            ≡ with_host now self.old (record { name = name; address = address })) }
        ensures err { OnErr result (self.new ≡ self.old) }
    {
        let lookup = host_lookup(self.alloc, &name, address, now)?;
        match address {
            IpAddr::V4(_) => self.insert(name, RecordType::A, lookup, now),
            IpAddr::V6(_) => self.insert(name, RecordType::AAAA, lookup, now),
        }
    }
}

/// Returns the lookup of a name that has an address.
fn host_lookup(
    alloc: Global,
    name: &Name,
    address: IpAddr,
    now: Moment,
) -> Result<Lookup, AllocError>
    requires { now ≤ 2 ^ 62 }
    ensures { IfOk result (λ lookup. lookup
        ≡ host_lookup now (record { name = name.now; address = address })) }
{
    let (record_type, rdata) = match address {
        IpAddr::V4(address) => (RecordType::A, RData::A(A(address))),
        IpAddr::V6(address) => (RecordType::AAAA, RData::AAAA(AAAA(address))),
    };
    let query = Query::query(name.clone()?, record_type);
    Lookup::from_rdata(alloc, query, rdata, now)
}

/// U+FEFF in UTF-8.
const BYTE_ORDER_MARK: [u8; 3] = [0xEF, 0xBB, 0xBF];

/// Removes a byte-order mark in front.
pub(crate) fn without_mark(bytes: &[u8]) -> &[u8]
    ensures { result.now ≡ without_mark bytes.now }
{
    if bytes.starts_with(&BYTE_ORDER_MARK) {
        &bytes[BYTE_ORDER_MARK.len()..]
    } else {
        bytes
    }
}

/// Removes the comment of a line.
pub(crate) fn without_comment(line: &str) -> &str
    ensures { result.now ≡ without_comment line.now }
{
    match line.split_once('#') {
        Some((line, _)) => line,
        None => line,
    }
}

/// Parses the name of a host, in lower case and fully qualified.
pub(crate) fn parse_host_name(alloc: Global, word: &str) -> Result<Option<Name>, AllocError>
    ensures { IfOk result (λ name. name ≡ host_name word.now) }
{
    let name = match Name::from_ascii(alloc, word) {
        Ok(name) => name,
        // The name had no memory.
        Err(ParseError::Memory) => return Err(AllocError),
        Err(_) => return Ok(None),
    };
    let mut name = name.to_lowercase()?;
    name.set_fqdn(true);
    Ok(Some(name))
}
