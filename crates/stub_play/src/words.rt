//! The arguments of the program.

ghost use Rattle.std.specs.Prelude.{◌≡◌, ◌<◌, ◌≤◌, ◌⊎◌, [], IfOk, IfErr, OnOk, Ok, Some, true, false, is_some, map, option_map, codes, string_bytes};
ghost use Rattle.clap.specs.Words.{IsParsedFrom, IsPlainArg, app_of, fault_of, first_value, found_of, kind_of, one_text, rule_of, takes};
ghost use Rattle.clap.specs.Built.{TakesValue};
ghost use Rattle.clap.specs.declared.parser.matches.ArgMatches.{ArgMatches};
ghost use Rattle.stub_play.specs.Words.{HasAll, HasNumber, IsFlagText, IsOriginFault, IsWordsFault, TakesFlag, TakesNumber, TakesOne, between, cache_rule, flag, flag_of, is_set, limit_rule, max_ttl_rule, number, number_of, number_of_text, optional, origin_of, required, stub_app, types_of, value_of};

use clap::builder::ValueParser;
use clap::error::ErrorKind;
use clap::{Arg, ArgAction, ArgMatches, Command, value_parser};
use dns_names::{Name, ParseError};
use dns_zone_file::Types;
use std::alloc::{AllocError, Global};

/// The greatest payload of a UDP datagram over IPv4, in bytes: 65,535 less headers of 20 and 8 (RFC 791 section 3.1, RFC 768).
const MAX_DATAGRAM_LEN: u16 = 65_507;

/// The arguments of the program.
#[derive(Drop)]
pub struct Words {
    /// The path of the zone file, as given.
    pub zone: String,
    /// The path of the script, as given.
    pub script: String,
    /// The origin of the zone.
    pub origin: Option<Name>,
    /// The path of the hosts file, as given.
    pub hosts: Option<String>,
    /// The greatest UDP payload size, of requests and of the server's responses.
    pub limit: u16,
    /// The greatest number of cached responses.
    pub cache: u32,
    /// The greatest TTL of cached responses, in seconds.
    pub max_ttl: u32,
    /// Whether datagrams and streams of the loopback interface are used.
    pub udp: bool,
    /// Which types the zone file and the script may have.
    pub types: Types,
}

/// Why the arguments are not valid.
#[derive(Debug, Drop)]
pub enum WordsFault {
    /// An argument is missing, unknown or has no valid value, or help is asked for. The error says which.
    Clap(clap::Error),
    /// The origin is not a name, or the limit is above 65,507 and `--udp` is given.
    Bad,
    /// Out of memory.
    Memory,
}

impl From<AllocError> for WordsFault {
    ghost use Rattle.stub_play.specs.declared.words.WordsFault.TheVariants.{Memory};

    ghost from_gives = { λ _ e. e ≡ Memory };

    fn from(_e: AllocError) -> WordsFault {
        WordsFault::Memory
    }
}

impl From<clap::Error> for WordsFault {
    ghost use Rattle.stub_play.specs.Words.{BecomesFault};

    ghost from_gives = { BecomesFault };

    fn from(error: clap::Error) -> WordsFault {
        if error.kind() == ErrorKind::OutOfMemory {
            WordsFault::Memory
        } else {
            WordsFault::Clap(error)
        }
    }
}

/// Reads the arguments, of which the first is the program's name: `--zone FILE` and `--script FILE`, each once; and each at
/// most once `--origin NAME`, `--hosts FILE`, `--limit N` from 512 to 65,535, `--cache N` and `--max-ttl N`, numbers of 32
/// bits, `--udp`, with which the limit is at most 65,507, and `--all-types`. The name is parsed as by `Name::from_ascii`.
pub fn read_words(alloc: Global, words: &[&str]) -> Result<Words, WordsFault>
    ensures zone { IfOk result (λ found.
        value_of (codes "zone") (map (λ word. word.now) words.now)
        ≡ Some (string_bytes found.zone)) }
    ensures script { IfOk result (λ found.
        value_of (codes "script") (map (λ word. word.now) words.now)
        ≡ Some (string_bytes found.script)) }
    ensures origin { IfOk result (λ found.
        origin_of (value_of (codes "origin") (map (λ word. word.now) words.now))
        ≡ Ok found.origin) }
    ensures hosts { IfOk result (λ found.
        value_of (codes "hosts") (map (λ word. word.now) words.now)
        ≡ option_map string_bytes found.hosts) }
    ensures limit { IfOk result (λ found.
        number_of (codes "limit") (map (λ word. word.now) words.now) ≡ Some found.limit) }
    ensures cache { IfOk result (λ found.
        number_of (codes "cache") (map (λ word. word.now) words.now) ≡ Some found.cache) }
    ensures max_ttl { IfOk result (λ found.
        number_of (codes "max-ttl") (map (λ word. word.now) words.now)
        ≡ Some found.max_ttl) }
    ensures udp { IfOk result (λ found.
        flag_of (codes "udp") (map (λ word. word.now) words.now) ≡ found.udp) }
    ensures types { IfOk result (λ found.
        types_of (flag_of (codes "all-types") (map (λ word. word.now) words.now))
        ≡ found.types) }
    ensures range { IfOk result (λ found. 512 ≤ found.limit) }
    ensures udp_range { IfOk result (λ found. found.udp ≡ true → found.limit ≤ 65507) }
    // None is taken in which clap finds a fault.
    ensures only { OnOk result (fault_of stub_app (map (λ word. word.now) words.now) ≡ []) }
    ensures fault { IfErr result (IsWordsFault (map (λ word. word.now) words.now)) }
    ensures taken { IfErr result (λ fault. takes stub_app (map (λ word. word.now) words.now) ≡ true
        → (fault ≡ WordsFault.Bad) ⊎ (fault ≡ WordsFault.Memory)) }
{
    let command = stub_command(alloc)?;
    let matches = command.try_get_matches_from(words)?;
    let limit = limit_in(&matches);
    let cache = number_in(&matches, "cache");
    let max_ttl = number_in(&matches, "max-ttl");
    let udp = flag_in(&matches, "udp");
    let all_types = flag_in(&matches, "all-types");
    let types = types_of(all_types);
    check_limit(limit, udp)?;
    Ok(Words {
        zone: value_in(alloc, &matches, "zone")?,
        script: value_in(alloc, &matches, "script")?,
        hosts: hosts_in(alloc, &matches)?,
        origin: origin_in(alloc, &matches)?,
        limit,
        cache,
        max_ttl,
        udp,
        types,
    })
}

/// Returns the program's command, for clap.
fn stub_command<'a>(alloc: Global) -> Result<Command<'a>, AllocError>
    ensures app { IfOk result (λ command. app_of command ≡ stub_app) }
    ensures all { IfOk result (λ command. (matches : ArgMatches)
        → IsParsedFrom command matches → HasAll matches) }
{
    Command::new(alloc, "stub")
        .about(
            "Runs a script of lookups, clears and updates against the server of a zone, and prints what each led to",
        )
        .arg(required_file(alloc, "zone", "The zone file"))?
        .arg(required_file(alloc, "script", "The script, with one event a line"))?
        .arg(value_option(alloc, "origin", "NAME", "The origin of the zone"))?
        .arg(value_option(alloc, "hosts", "FILE", "The hosts file"))?
        .arg(limit_option(alloc))?
        .arg(cache_option(alloc))?
        .arg(max_ttl_option(alloc))?
        .arg(flag(alloc, "udp", "Use sockets of the loopback interface"))?
        .arg(flag(alloc, "all-types", "Take and print all record types"))
}

/// Returns an option that takes one value.
fn value_option<'a>(alloc: Global, name: &'a str, value_name: &'a str, help: &'a str) -> Arg<'a>
    ensures id { result.id ≡ name.entry }
    ensures rule { rule_of result ≡ optional name.entry.now }
    ensures plain { IsPlainArg result × (result.global ≡ false) }
    ensures value { TakesOne result }
{
    Arg::new(alloc, name)
        .long(name)
        .value_name(value_name)
        .action(ArgAction::Set)
        .help(help)
}

/// Returns a required option that takes the path of a file.
fn required_file<'a>(alloc: Global, name: &'a str, help: &'a str) -> Arg<'a>
    ensures id { result.id ≡ name.entry }
    ensures rule { rule_of result ≡ required name.entry.now }
    ensures plain { IsPlainArg result × (result.global ≡ false) }
    ensures takes { TakesValue result }
{
    value_option(alloc, name, "FILE", help).required(true)
}

/// Returns an option without a value.
fn flag<'a>(alloc: Global, name: &'a str, help: &'a str) -> Arg<'a>
    ensures id { result.id ≡ name.entry }
    ensures rule { rule_of result ≡ flag name.entry.now }
    ensures plain { IsPlainArg result × (result.global ≡ false) }
    ensures parser { TakesFlag result }
{
    Arg::new(alloc, name)
        .long(name)
        .action(ArgAction::SetTrue)
        .value_parser(value_parser!(bool))
        .help(help)
}

/// Returns the option of the greatest UDP payload size, which is at least 512 (RFC 6891 section 6.2.3).
fn limit_option<'a>(alloc: Global) -> Arg<'a>
    ensures id { result.id.now ≡ codes "limit" }
    ensures rule { rule_of result ≡ limit_rule }
    ensures plain { IsPlainArg result × (result.global ≡ false) }
    ensures number { TakesNumber (between 512 65535) result }
{
    let parser = value_parser!(u16).range(512..);
    number_option(
        alloc,
        "limit",
        parser,
        "1232",
        "The greatest UDP payload size",
    )
}

/// Returns the option of the greatest number of cached responses.
fn cache_option<'a>(alloc: Global) -> Arg<'a>
    ensures id { result.id.now ≡ codes "cache" }
    ensures rule { rule_of result ≡ cache_rule }
    ensures plain { IsPlainArg result × (result.global ≡ false) }
    ensures number { TakesNumber (between 0 4294967295) result }
{
    let parser = value_parser!(u32);
    number_option(
        alloc,
        "cache",
        parser,
        "8192",
        "The greatest number of cached responses",
    )
}

/// Returns the option of the greatest TTL.
fn max_ttl_option<'a>(alloc: Global) -> Arg<'a>
    ensures id { result.id.now ≡ codes "max-ttl" }
    ensures rule { rule_of result ≡ max_ttl_rule }
    ensures plain { IsPlainArg result × (result.global ≡ false) }
    ensures number { TakesNumber (between 0 4294967295) result }
{
    let parser = value_parser!(u32);
    number_option(
        alloc,
        "max-ttl",
        parser,
        "86400",
        "The greatest TTL, in seconds",
    )
}

/// Returns an option that takes a number, with the number that it has if it is not used.
fn number_option<'a>(
    alloc: Global,
    name: &'a str,
    parser: ValueParser<'a>,
    preset: &'a str,
    help: &'a str,
) -> Arg<'a>
    ensures id { result.id ≡ name.entry }
    ensures rule { rule_of result ≡ number name.entry.now parser.entry preset.entry.now }
    ensures plain { IsPlainArg result × (result.global ≡ false) }
    ensures number { TakesNumber parser.entry result }
{
    value_option(alloc, name, "N", help)
        .value_parser(parser)
        .default_value(preset)
}

/// Returns the value of an option that has one.
fn value_in(alloc: Global, matches: &ArgMatches<'_>, name: &str) -> Result<String, AllocError>
    requires { is_some (first_value (found_of matches.now) name.now) ≡ true }
    ensures { IfOk result (λ value.
        first_value (found_of matches.now) name.now ≡ Some (string_bytes value)) }
{
    String::from_str(alloc, matches.get_str(name).unwrap())
}

/// Returns the path of the hosts file, if its option has a value.
fn hosts_in(alloc: Global, matches: &ArgMatches<'_>) -> Result<Option<String>, AllocError>
    ensures { IfOk result (λ hosts. first_value (found_of matches.now) (codes "hosts")
        ≡ option_map string_bytes hosts) }
{
    match matches.get_str("hosts") {
        Some(path) => Ok(Some(String::from_str(alloc, path)?)),
        None => Ok(None),
    }
}

/// Returns the origin, if its option has a value.
fn origin_in(alloc: Global, matches: &ArgMatches<'_>) -> Result<Option<Name>, WordsFault>
    ensures ok { IfOk result (λ origin.
        origin_of (first_value (found_of matches.now) (codes "origin")) ≡ Ok origin) }
    ensures fault { IfErr result (IsOriginFault
        (first_value (found_of matches.now) (codes "origin"))) }
{
    let Some(text) = matches.get_str("origin") else {
        return Ok(None);
    };
    match Name::from_ascii(alloc, text) {
        Ok(origin) => Ok(Some(origin)),
        // The memory for the name was refused.
        Err(ParseError::Memory) => Err(WordsFault::Memory),
        Err(_) => Err(WordsFault::Bad),
    }
}

/// Returns the greatest UDP payload size.
fn limit_in(matches: &ArgMatches<'_>) -> u16
    requires { HasNumber (codes "limit") 512 65535 matches.now }
    ensures number { option_map number_of_text (one_text (found_of matches.now) (codes "limit"))
        ≡ Some result }
    ensures range { 512 ≤ result }
{
    matches.get_one("limit").unwrap()
}

/// Checks that a datagram has as many bytes as the limit, if datagrams are sent.
fn check_limit(limit: u16, udp: bool) -> Result<(), WordsFault>
    ensures fits { OnOk result (udp ≡ true → limit ≤ 65507) }
    ensures fault { IfErr result (λ fault.
        (fault ≡ WordsFault.Bad) × (udp ≡ true) × (65507 < limit)) }
{
    if udp && limit > MAX_DATAGRAM_LEN {
        return Err(WordsFault::Bad);
    }
    Ok(())
}

/// Returns the number that an option has.
fn number_in(matches: &ArgMatches<'_>, name: &str) -> u32
    requires { HasNumber name.now 0 4294967295 matches.now }
    ensures { option_map number_of_text (one_text (found_of matches.now) name.now) ≡ Some result }
{
    matches.get_one(name).unwrap()
}

/// Returns the types that a zone file may have: all, or those with fields.
fn types_of(all_types: bool) -> Types
    ensures { result ≡ types_of all_types }
{
    if all_types { Types::All } else { Types::Nine }
}

/// Returns whether an option without a value is used.
fn flag_in(matches: &ArgMatches<'_>, name: &str) -> bool
    requires { IsFlagText (one_text (found_of matches.now) name.now) }
    ensures { is_set (one_text (found_of matches.now) name.now) ≡ result }
{
    matches.get_flag(name)
}
