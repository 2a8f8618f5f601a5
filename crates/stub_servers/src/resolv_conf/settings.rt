//! What the lines of a text set, one after another.

ghost use Rattle.std.specs.Prelude.{◌≡◌, ◌++◌, [], ◌∷◌, Some, IfOk, OnOk, map};
ghost use Rattle.std.specs.List.{filter_map};
ghost use Rattle.stub_servers.specs.resolv_conf.Line.{keyword_of, lines_of, values_of};
ghost use Rattle.stub_servers.specs.resolv_conf.Settings.{no_settings, search_name, with_search, with_server, Sets, SetsAll};

use crate::resolv_conf::line::{Keyword, keyword_of, values_of};
use crate::resolv_conf::options::ConfOptions;
use dns_names::{Name, ParseError};
use dns_records::Sequence;
use dns_text::parse_ip;
use std::alloc::{AllocError, Global};
use std::net::IpAddr;

/// The maximum number of name servers. Further ones are ignored.
pub const MAX_NAME_SERVERS: usize = 3;

/// What the lines of a file set.
#[derive(Drop)]
pub struct Settings {
    /// The names that a relative name is completed with.
    pub search: Sequence<Name>,
    /// The addresses of the name servers.
    pub servers: Sequence<IpAddr>,
    /// The options.
    pub options: ConfOptions,
}

impl Settings {
    /// Returns the settings of a file without lines.
    pub(crate) fn new(alloc: Global) -> Settings
        ensures { result ≡ no_settings }
    {
        Settings {
            search: Sequence::new(alloc),
            servers: Sequence::new(alloc),
            options: ConfOptions::new(),
        }
    }

    /// Sets what the lines of a text set.
    pub(crate) fn set_all(&mut self, alloc: Global, text: &[u8]) -> Result<(), AllocError>
        ensures { OnOk result (SetsAll (lines_of text.now) self.old self.new) }
    {
        for line in text.split(|octet| *octet == b'\n') {
            self.set_line(alloc, line)?;
        }
        Ok(())
    }

    /// Sets what a line sets.
    fn set_line(&mut self, alloc: Global, line: &[u8]) -> Result<(), AllocError>
        ensures { OnOk result (Sets (keyword_of line.now) (values_of line.now) self.old self.new) }
    {
        let Some(keyword) = keyword_of(line) else {
            return Ok(());
        };
        let values = values_of(alloc, line)?;
        self.set(alloc, keyword, values.as_slice())
    }

    /// Sets what a keyword with values sets.
    fn set(&mut self, alloc: Global, keyword: Keyword, values: &[&[u8]]) -> Result<(), AllocError>
        ensures { OnOk result (Sets (Some keyword) (map (λ value. value.now) values.now)
            self.old self.new) }
    {
        match (keyword, values) {
            (Keyword::NameServer, [word, ..]) => self.add_server(word),
            (Keyword::Domain, [_word, ..]) => self.set_search(alloc, &values[..1]),
            (Keyword::Search, [_word, ..]) => self.set_search(alloc, values),
            (Keyword::Options, words) => {
                self.options.set_all(words);
                Ok(())
            }
            (_, []) => Ok(()),
        }
    }

    /// Adds the name server whose address a word spells, if it spells one, and there is room.
    fn add_server(&mut self, word: &[u8]) -> Result<(), AllocError>
        ensures { OnOk result (Sets (Some Keyword.NameServer) (word.now ∷ []) self.old self.new) }
    {
        match parse_ip(word) {
            Some(address) if self.servers.len() < MAX_NAME_SERVERS => self.servers.push(address),
            _ => Ok(()),
        }
    }

    /// Replaces the search list by the names that words spell.
    fn set_search(&mut self, alloc: Global, words: &[&[u8]]) -> Result<(), AllocError>
        ensures { OnOk result (self.new ≡ with_search self.old (map (λ word. word.now) words.now)) }
    {
        self.search = Sequence::from_vec(names_of(alloc, words)?);
        Ok(())
    }
}

/// Returns the names that words spell.
fn names_of(alloc: Global, words: &[&[u8]]) -> Result<Vec<Name>, AllocError>
    ensures { IfOk result (λ names. names.items
        ≡ filter_map search_name (map (λ word. word.now) words.now)) }
{
    let mut names = Vec::new(alloc);
    for word in words {
        push_name(alloc, &mut names, word)?;
    }
    Ok(names)
}

/// Appends the name that a word spells, if it spells one.
fn push_name(alloc: Global, names: &mut Vec<Name>, word: &[u8]) -> Result<(), AllocError>
    ensures { OnOk result (names.new.items
        ≡ names.old.items ++ filter_map search_name (word.now ∷ [])) }
{
    if let Some(name) = parse_search_name(alloc, word)? {
        names.push(name)?;
    }
    Ok(())
}

/// Parses a name of a search list, fully qualified.
fn parse_search_name(alloc: Global, word: &[u8]) -> Result<Option<Name>, AllocError>
    ensures { IfOk result (λ name. name ≡ search_name word.now) }
{
    match Name::from_ascii_bytes(alloc, word) {
        Ok(mut name) => {
            name.set_fqdn(true);
            Ok(Some(name))
        }
        // The memory for the name was refused.
        Err(ParseError::Memory) => Err(AllocError),
        Err(_) => Ok(None),
    }
}
