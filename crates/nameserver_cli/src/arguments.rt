//! The arguments of the program.

ghost use Rattle.std.specs.Prelude.{◌≡◌, ◌≤◌, IfOk, IfErr, OnOk, true, is_some, map, option_map, codes, string_bytes, Ok};
ghost use Rattle.std.specs.List.{AllZip, list_any};
ghost use Rattle.clap.specs.Matches.{first_value, found_of};
ghost use Rattle.dns_server.specs.AddressList.{ReadsPrefix};
ghost use Rattle.nameserver_cli.specs.Addresses.{AddsPrefixes, AreListened, AreUpdaters, IsAddress, IsAddressRefusal, IsAddressesRefusal, IsLoopbackAnd, IsPrefixRefusal, IsPrefixesRefusal, unspecified_reason};
ghost use Rattle.nameserver_cli.specs.Arguments.{AreArguments, IsDifferences, IsDifferencesRefusal, IsLimit, IsLimitRefusal, IsOrigin, IsOriginRefusal, answering_of, is_script_option, kept_differences, loses_serials, mode_of, offers_transfers, reach_of, serials_of, takes_updates, until_of};
ghost use Rattle.nameserver_cli.specs.Options.{is_given, values_of};

use crate::durable_arguments::{DurableArguments, durable_in, with_durable_options};
use crate::ending::Ending;
use clap::error::ErrorKind;
use clap::{Arg, ArgAction, ArgMatches, Command, value_parser};
use dns_authority::AnyAnswer;
use dns_authority::service::Answering;
use dns_names::{AddrPrefix, Name, ParseError};
use dns_server::{AddressList, parse_prefix};
use dns_zone::{DatagramLimit, Serials};
use dns_zone_file::includes::Reach;
use std::alloc::{AllocError, Global};
use std::net::{IpAddr, Ipv4Addr, SocketAddr, SocketAddrV4};

/// The port at which the server listens, unless another one is given.
const DEFAULT_PORT: u16 = 5300;

/// How many records of differences are kept of each zone, unless another number is given.
const DEFAULT_DIFFERENCES: usize = 10_000;

/// The version of the program.
const VERSION: &str = "0.1.0";

/// What is done with what the events of a script led to.
#[derive(Clone, Copy)]
pub enum ReplayMode {
    /// It is printed.
    Print,
    /// It is compared with the expectations in the script.
    Check,
    /// The script is printed with it as its expectations.
    Bless,
}

/// What ends the server, besides a signal.
#[derive(Clone, Copy, Debug, PartialEq, Eq)]
pub enum Until {
    /// Nothing.
    Signal,
    /// The end of standard input, which is at its end if it is a file.
    InputEnds,
}

/// The arguments of the program.
pub struct Arguments {
    /// The paths of the zone files, as given: at least one.
    pub files: Vec<String>,
    /// The addresses at which the server listens.
    pub addresses: Vec<SocketAddr>,
    /// The addresses from which updates are taken.
    pub updaters: AddressList,
    /// How requests are answered that are not updates.
    pub answering: Answering,
    /// The addresses to which zones are transferred.
    pub secondaries: AddressList,
    /// How many records of differences are kept of each zone, at most.
    pub differences: usize,
    /// The secondaries that are notified of changes.
    pub notify: Vec<SocketAddr>,
    /// The maximum size of datagrams.
    pub limit: DatagramLimit,
    /// Which files the zone files may include.
    pub reach: Reach,
    /// What ends the server.
    pub until: Until,
    /// The origin of the zone, if there is one zone file.
    pub origin: Option<Name>,
    /// The path of the fault table, as given.
    pub faults: Option<String>,
    /// The path of the log, as given.
    pub log: Option<String>,
    /// What is given of keys and of a journal.
    pub durable: DurableArguments,
    /// The paths of the scripts that are replayed in the place of sockets, as given.
    pub replay: Vec<String>,
    /// What is done with what its events led to.
    pub replay_mode: ReplayMode,
}

impl Drop for Arguments {
    fn drop(self) {
        let Arguments {
            files,
            addresses,
            updaters,
            answering: _answering,
            secondaries,
            differences: _differences,
            notify,
            limit: _limit,
            reach: _reach,
            until: _until,
            origin,
            faults,
            log,
            durable,
            replay,
            replay_mode: _replay_mode,
        } = self;
        drop(files);
        drop(addresses);
        drop(updaters);
        drop(secondaries);
        drop(notify);
        drop(origin);
        drop(faults);
        drop(log);
        drop(durable);
        drop(replay);
    }
}

impl Arguments {
    /// Returns `true` if transfers are offered: not if each question is answered by its zone alone.
    pub fn offers_transfers(&self) -> bool
        ensures { result ≡ offers_transfers self.now.answering }
    {
        match self.answering {
            Answering::Plain => false,
            Answering::Whole(_, _) => true,
        }
    }

    /// Returns `true` if secondaries are notified of updates that a restart loses: there is no journal.
    pub fn loses_serials(&self) -> bool
        ensures { result ≡ loses_serials self.now }
    {
        !self.notify.is_empty() && self.durable.journal.is_none() && self.takes_updates()
    }

    /// Returns `true` if somebody may update the zones: whoever may without a key may from the local host.
    fn takes_updates(&self) -> bool
        ensures { result ≡ takes_updates self.now }
    {
        !self.durable.keys.is_empty() || self.updaters.contains(IpAddr::V4(Ipv4Addr::LOCALHOST))
    }

    /// Returns how many records of differences are kept of each zone, at most: none if transfers are not offered.
    pub fn kept_differences(&self) -> usize
        ensures { result ≡ kept_differences self.now }
    {
        if self.offers_transfers() {
            self.differences
        } else {
            0
        }
    }

    /// Returns the addresses from which updates are taken, and those to which zones are transferred.
    pub fn into_lists(self) -> (AddressList, AddressList)
        ensures updaters { result.0 ≡ self.updaters }
        ensures secondaries { result.1 ≡ self.secondaries }
    {
        let Arguments {
            files,
            addresses,
            updaters,
            answering: _answering,
            secondaries,
            differences: _differences,
            notify,
            limit: _limit,
            reach: _reach,
            until: _until,
            origin,
            faults,
            log,
            durable,
            replay,
            replay_mode: _replay_mode,
        } = self;
        drop(files);
        drop(addresses);
        drop(notify);
        drop(origin);
        drop(faults);
        drop(log);
        drop(durable);
        drop(replay);
        (updaters, secondaries)
    }
}

/// Reads the arguments, of which the first is the program's name.
pub fn read_arguments(alloc: Global, words: &[&str]) -> Result<Arguments, Ending> {
    let command = command(alloc, !names_script(words))?;
    let matches = match command.try_get_matches_from(words) {
        Ok(matches) => matches,
        Err(error) if error.kind() == ErrorKind::OutOfMemory => {
            // Reading the arguments was refused memory.
            return Err(Ending::Memory);
        }
        Err(error) => return Err(Ending::Arguments(error)),
    };
    arguments_of(alloc, &matches)
}

/// Returns `true` if the words name a script, which may state the zone files.
fn names_script(words: &[&str]) -> bool
    ensures { result ≡ list_any (λ word. is_script_option word.now) words.now }
{
    words.iter().any(|word| is_script_option(word))
}

/// Returns `true` if a word is the option of a script, with its value or before it.
fn is_script_option(word: &str) -> bool
    ensures { result ≡ is_script_option word.now }
{
    word == "--replay" || word.as_bytes().starts_with(b"--replay=")
}

/// Returns what the words stand for.
fn arguments_of(alloc: Global, matches: &ArgMatches<'_>) -> Result<Arguments, Ending>
    ensures { IfOk result (AreArguments (found_of matches.now)) }
{
    let limit = limit_in(alloc, matches)?;
    let files = texts_in(alloc, matches, "FILE")?;
    let addresses = addresses_in(alloc, matches)?;
    let updaters = updaters_in(alloc, matches)?;
    let secondaries = loopback_and(alloc, matches, "allow-transfer")?;
    let notify = socket_addresses_in(alloc, matches, "notify")?;
    let durable = durable_in(alloc, matches, files.len())?;
    let origin = origin_in(alloc, matches, files.len())?;
    Ok(Arguments {
        files,
        addresses,
        updaters,
        answering: answering_in(matches),
        secondaries,
        differences: differences_in(alloc, matches)?,
        notify,
        limit,
        reach: reach_in(matches),
        until: until_in(matches),
        origin,
        faults: text_in(alloc, matches, "faults")?,
        log: text_in(alloc, matches, "log")?,
        durable,
        replay: texts_in(alloc, matches, "replay")?,
        replay_mode: replay_mode_in(matches),
    })
}

/// Returns the program's command, for clap.
fn command<'a>(alloc: Global, needs_files: bool) -> Result<Command<'a>, AllocError> {
    let files = Arg::new(alloc, "FILE")
        .value_name("FILE")
        .help("The zone files")
        .action(ArgAction::Append)
        .num_args(1..)
        .required(needs_files);
    let command = Command::new(alloc, "nameserver")
        .version(VERSION)
        .about("Serves zones over UDP and TCP, takes dynamic updates, and makes faults on demand")
        .arg(files)?
        .arg(option(
            alloc,
            "origin",
            "NAME",
            "The origin of the zone, if there is one zone file",
        ))?
        .arg(flag(alloc, "include-anywhere", "Let zone files include any file"))?
        .arg(listen_option(alloc))?
        .arg(limit_option(alloc))?
        .arg(flag(
            alloc,
            "plain",
            "Answer each question by its zone alone: no wildcards, referrals, DNAME records and ANY",
        ))?
        .arg(flag(
            alloc,
            "minimal-any",
            "Answer a question for ANY with one record set of the name (RFC 8482)",
        )
        .conflicts_with("plain")?)?
        .arg(option(alloc, "faults", "FILE", "The fault table"))?
        .arg(option(
            alloc,
            "log",
            "FILE",
            "The file to which a line of JSON is appended for each request",
        ))?
        .arg(flag(
            alloc,
            "no-updates",
            "Refuse all dynamic updates but those that a key may make",
        ))?
        .arg(updaters_option(alloc)?)?
        .arg(secondaries_option(alloc)?)?
        .arg(notify_option(alloc))?
        .arg(differences_option(alloc)?)?
        .arg(keep_serials_flag(alloc)?)?
        .arg(flag(alloc, "until-stdin-closes", "End when standard input ends"))?;
    with_durable_options(alloc, with_replay_options(alloc, command)?)
}

/// Adds the options about a script to a command.
fn with_replay_options<'a>(alloc: Global, command: Command<'a>) -> Result<Command<'a>, AllocError> {
    command
        .arg(option(
            alloc,
            "replay",
            "FILE",
            "A script of requests, which are answered in the place of requests at sockets",
        )
        .action(ArgAction::Append))?
        .arg(flag(
            alloc,
            "check",
            "Compare what each request of the script leads to with the lines '#> ' after it",
        )
        .requires_arg("replay")?)?
        .arg(
            flag(
                alloc,
                "bless",
                "Print the script with these lines as its requests lead to them",
            )
            .requires_arg("replay")?
            .conflicts_with("check")?,
        )
}

/// Returns an option that takes one value.
pub(crate) fn option<'a>(
    alloc: Global,
    name: &'a str,
    value_name: &'a str,
    help: &'a str,
) -> Arg<'a> {
    Arg::new(alloc, name)
        .long(name)
        .value_name(value_name)
        .action(ArgAction::Set)
        .help(help)
}

/// Returns the option of the addresses at which the server listens.
fn listen_option<'a>(alloc: Global) -> Arg<'a> {
    option(
        alloc,
        "listen",
        "ADDRESS:PORT",
        "An address at which the server listens, 127.0.0.1:5300 if none is given; at port 0 the system chooses one",
    )
    .action(ArgAction::Append)
}

/// Returns the option of the addresses from which updates are taken.
fn updaters_option<'a>(alloc: Global) -> Result<Arg<'a>, AllocError> {
    option(
        alloc,
        "allow-update",
        "ADDRESS/LENGTH",
        "Addresses from which updates are taken, beside those of the local host",
    )
    .action(ArgAction::Append)
    .conflicts_with("no-updates")
}

/// Returns the option of the addresses to which zones are transferred.
fn secondaries_option<'a>(alloc: Global) -> Result<Arg<'a>, AllocError> {
    option(
        alloc,
        "allow-transfer",
        "ADDRESS/LENGTH",
        "Addresses to which zones are transferred, beside those of the local host",
    )
    .action(ArgAction::Append)
    .conflicts_with("plain")
}

/// Returns the option of how many records of differences are kept.
fn differences_option<'a>(alloc: Global) -> Result<Arg<'a>, AllocError> {
    option(
        alloc,
        "differences",
        "N",
        "How many records of differences are kept of each zone for incremental transfers, 10000 if none is given",
    )
    .conflicts_with("plain")
}

/// Returns the flag by which serial numbers do not rise by themselves.
fn keep_serials_flag<'a>(alloc: Global) -> Result<Arg<'a>, AllocError> {
    flag(
        alloc,
        "keep-serials",
        "Let no serial number rise but by an update that raises it",
    )
    .conflicts_with("plain")
}

/// Returns the option of the secondaries that are notified of changes.
fn notify_option<'a>(alloc: Global) -> Arg<'a> {
    option(
        alloc,
        "notify",
        "ADDRESS:PORT",
        "A secondary that is notified of each new serial number of a zone",
    )
    .action(ArgAction::Append)
}

/// Returns the option of the maximum size of datagrams.
fn limit_option<'a>(alloc: Global) -> Arg<'a> {
    option(
        alloc,
        "limit",
        "N",
        "The maximum size of datagrams, in bytes",
    )
    .value_parser(value_parser!(u16).range(512..=65507))
    .default_value("1232")
}

/// Returns an option without a value.
pub(crate) fn flag<'a>(alloc: Global, name: &'a str, help: &'a str) -> Arg<'a> {
    Arg::new(alloc, name)
        .long(name)
        .action(ArgAction::SetTrue)
        .value_parser(value_parser!(bool))
        .help(help)
}

/// Returns `true` if an option without a value is given.
pub(crate) fn is_given(matches: &ArgMatches<'_>, name: &str) -> bool
    ensures { result ≡ is_given (found_of matches.now) name.now }
{
    match matches.get_str(name) {
        Some(text) => text == "true",
        None => false,
    }
}

/// Returns the value of an option, if it has one.
pub(crate) fn text_in(
    alloc: Global,
    matches: &ArgMatches<'_>,
    name: &str,
) -> Result<Option<String>, AllocError>
    ensures { IfOk result (λ text. option_map string_bytes text
        ≡ first_value (found_of matches.now) name.now) }
{
    match matches.get_str(name) {
        Some(text) => Ok(Some(String::from_str(alloc, text)?)),
        None => Ok(None),
    }
}

/// Returns copies of the values of an argument.
pub(crate) fn texts_in(
    alloc: Global,
    matches: &ArgMatches<'_>,
    name: &str,
) -> Result<Vec<String>, AllocError>
    ensures { IfOk result (λ texts. map string_bytes texts.items
        ≡ values_of (found_of matches.now) name.now) }
{
    match matches.get_strs(name) {
        Some(values) => copies_of(alloc, values),
        None => Ok(Vec::new(alloc)),
    }
}

/// Returns copies of texts.
fn copies_of(alloc: Global, texts: &[&str]) -> Result<Vec<String>, AllocError>
    ensures { IfOk result (λ copies. map string_bytes copies.items
        ≡ map (λ text. text.now) texts.now) }
{
    let mut copies = Vec::new(alloc);
    for text in texts {
        copies.push(String::from_str(alloc, text)?)?;
    }
    Ok(copies)
}

/// Returns the origin, if its option has a value. It is fully qualified, with or without a dot at its end.
fn origin_in(
    alloc: Global,
    matches: &ArgMatches<'_>,
    file_count: usize,
) -> Result<Option<Name>, Ending>
    ensures origin { IfOk result (IsOrigin (first_value (found_of matches.now) (codes "origin"))) }
    ensures one { OnOk result (is_some (first_value (found_of matches.now) (codes "origin"))
        ≡ true → file_count ≤ 1) }
    ensures refused { IfErr result (IsOriginRefusal file_count
        (first_value (found_of matches.now) (codes "origin"))) }
{
    let Some(text) = matches.get_str("origin") else {
        return Ok(None);
    };
    if file_count > 1 {
        return Err(Ending::invalid(alloc, "origin", text, "there is more than one zone file"));
    }
    match Name::from_ascii(alloc, text) {
        Ok(mut origin) => {
            origin.set_fqdn(true);
            Ok(Some(origin))
        }
        // Memory for the name was refused.
        Err(ParseError::Memory) => Err(Ending::Memory),
        Err(_) => Err(Ending::invalid(alloc, "origin", text, "it is not a domain name")),
    }
}

/// Returns which files the zone files may include.
fn reach_in(matches: &ArgMatches<'_>) -> Reach
    ensures { result ≡ reach_of (is_given (found_of matches.now) (codes "include-anywhere")) }
{
    if is_given(matches, "include-anywhere") {
        Reach::Anywhere
    } else {
        Reach::Folder
    }
}

/// Returns whether the serial number of a zone rises by itself with each change of its records.
fn serials_in(matches: &ArgMatches<'_>) -> Serials
    ensures { result ≡ serials_of (is_given (found_of matches.now) (codes "keep-serials")) }
{
    if is_given(matches, "keep-serials") {
        Serials::Kept
    } else {
        Serials::Rising
    }
}

/// Returns how many records of differences are kept of each zone.
fn differences_in(alloc: Global, matches: &ArgMatches<'_>) -> Result<usize, Ending>
    ensures count { IfOk result (IsDifferences
        (first_value (found_of matches.now) (codes "differences"))) }
    ensures refused { IfErr result (IsDifferencesRefusal
        (first_value (found_of matches.now) (codes "differences"))) }
{
    let Some(text) = matches.get_str("differences") else {
        return Ok(DEFAULT_DIFFERENCES);
    };
    match text.parse::<usize>() {
        Ok(count) => Ok(count),
        Err(_) => Err(Ending::invalid(alloc, "differences", text, "it is not a number")),
    }
}

/// Returns how requests are answered. Clap has found that at most one of the two options is given.
fn answering_in(matches: &ArgMatches<'_>) -> Answering
    ensures { result ≡ answering_of (is_given (found_of matches.now) (codes "plain"))
        (is_given (found_of matches.now) (codes "minimal-any"))
        (is_given (found_of matches.now) (codes "keep-serials")) }
{
    if is_given(matches, "plain") {
        Answering::Plain
    } else if is_given(matches, "minimal-any") {
        Answering::Whole(AnyAnswer::FirstSet, serials_in(matches))
    } else {
        Answering::Whole(AnyAnswer::AllSets, serials_in(matches))
    }
}

/// Returns what is done with what the events of a script led to. Clap has found that at most one of the two options is given.
fn replay_mode_in(matches: &ArgMatches<'_>) -> ReplayMode
    ensures { result ≡ mode_of (is_given (found_of matches.now) (codes "check"))
        (is_given (found_of matches.now) (codes "bless")) }
{
    if is_given(matches, "check") {
        ReplayMode::Check
    } else if is_given(matches, "bless") {
        ReplayMode::Bless
    } else {
        ReplayMode::Print
    }
}

/// Returns the addresses at which the server listens.
fn addresses_in(alloc: Global, matches: &ArgMatches<'_>) -> Result<Vec<SocketAddr>, Ending>
    ensures addresses { IfOk result (λ addresses.
        AreListened (values_of (found_of matches.now) (codes "listen")) addresses.items) }
    ensures refused { IfErr result (IsAddressesRefusal (codes "listen")
        (values_of (found_of matches.now) (codes "listen"))) }
{
    let mut addresses = socket_addresses_in(alloc, matches, "listen")?;
    if addresses.is_empty() {
        let local = SocketAddrV4::new(Ipv4Addr::LOCALHOST, DEFAULT_PORT);
        addresses.push(SocketAddr::V4(local))?;
    }
    Ok(addresses)
}

/// Returns the addresses and ports of an option.
fn socket_addresses_in(
    alloc: Global,
    matches: &ArgMatches<'_>,
    option: &str,
) -> Result<Vec<SocketAddr>, Ending>
    ensures addresses { IfOk result (λ addresses.
        AllZip IsAddress (values_of (found_of matches.now) option.now) addresses.items) }
    ensures refused { IfErr result (IsAddressesRefusal option.now
        (values_of (found_of matches.now) option.now)) }
{
    match matches.get_strs(option) {
        Some(values) => addresses_of(alloc, option, values),
        None => Ok(Vec::new(alloc)),
    }
}

/// Returns the addresses and ports that the values of an option state.
fn addresses_of(alloc: Global, option: &str, values: &[&str]) -> Result<Vec<SocketAddr>, Ending>
    ensures addresses { IfOk result (λ addresses.
        AllZip IsAddress (map (λ value. value.now) values.now) addresses.items) }
    ensures refused { IfErr result (IsAddressesRefusal option.now
        (map (λ value. value.now) values.now)) }
{
    let mut addresses = Vec::new(alloc);
    for value in values {
        addresses.push(address_of(alloc, option, value)?)?;
    }
    Ok(addresses)
}

/// Returns the address and the port that the value of an option states.
fn address_of(alloc: Global, option: &str, text: &str) -> Result<SocketAddr, Ending>
    ensures address { IfOk result (IsAddress text.now) }
    ensures refused { IfErr result (IsAddressRefusal option.now text.now) }
{
    let Ok(address) = text.parse::<SocketAddr>() else {
        let reason = "it is not an address and a port, such as 127.0.0.1:5300 or [::1]:5300";
        return Err(Ending::invalid(alloc, option, text, reason));
    };
    if address.ip().is_unspecified() {
        return Err(Ending::invalid(alloc, option, text, unspecified(option)));
    }
    Ok(address)
}

/// Returns why the address of an option may not be the unspecified one.
fn unspecified(option: &str) -> &'static str
    ensures { result.now ≡ unspecified_reason option.now }
{
    if option == "notify" {
        "nothing can be sent to it; name the address of the secondary"
    } else {
        // A socket for all addresses does not say to which of them a datagram came, and the reply has to leave from that one.
        "replies could leave from another address than the one that was asked; list each address"
    }
}

/// Returns the maximum size of datagrams.
fn limit_in(alloc: Global, matches: &ArgMatches<'_>) -> Result<DatagramLimit, Ending>
    ensures limit { IfOk result (IsLimit (first_value (found_of matches.now) (codes "limit"))) }
    ensures refused { IfErr result (IsLimitRefusal
        (first_value (found_of matches.now) (codes "limit"))) }
{
    let text = matches.get_str("limit").unwrap_or("");
    if let Ok(number) = text.parse::<u16>() {
        if let Ok(limit) = DatagramLimit::new(number) {
            return Ok(limit);
        }
    }
    Err(Ending::invalid(alloc, "limit", text, "it is not a number from 512 to 65507"))
}

/// Returns the addresses from which updates are taken.
fn updaters_in(alloc: Global, matches: &ArgMatches<'_>) -> Result<AddressList, Ending>
    ensures updaters { IfOk result (AreUpdaters
        (is_given (found_of matches.now) (codes "no-updates"))
        (values_of (found_of matches.now) (codes "allow-update"))) }
    ensures refused { IfErr result (IsPrefixesRefusal (codes "allow-update")
        (values_of (found_of matches.now) (codes "allow-update"))) }
{
    if is_given(matches, "no-updates") {
        return Ok(AddressList::new(alloc));
    }
    loopback_and(alloc, matches, "allow-update")
}

/// Returns the addresses of the local host, and those of an option.
fn loopback_and(
    alloc: Global,
    matches: &ArgMatches<'_>,
    option: &str,
) -> Result<AddressList, Ending>
    ensures addresses { IfOk result (IsLoopbackAnd (values_of (found_of matches.now) option.now)) }
    ensures refused { IfErr result (IsPrefixesRefusal option.now
        (values_of (found_of matches.now) option.now)) }
{
    let mut addresses = AddressList::loopback(alloc)?;
    if let Some(values) = matches.get_strs(option) {
        add_prefixes(alloc, &mut addresses, option, values)?;
    }
    Ok(addresses)
}

/// Adds the prefixes that the values of an option state to a list.
fn add_prefixes(
    alloc: Global,
    addresses: &mut AddressList,
    option: &str,
    values: &[&str],
) -> Result<(), Ending>
    ensures added { OnOk result (AddsPrefixes addresses.old (map (λ value. value.now) values.now)
        addresses.new) }
    ensures refused { IfErr result (IsPrefixesRefusal option.now
        (map (λ value. value.now) values.now)) }
{
    for value in values {
        addresses.add(prefix_of(alloc, option, value)?)?;
    }
    Ok(())
}

/// Returns the prefix that the value of an option states.
fn prefix_of(alloc: Global, option: &str, text: &str) -> Result<AddrPrefix, Ending>
    ensures prefix { IfOk result (λ prefix. ReadsPrefix text.now (Ok prefix)) }
    ensures refused { IfErr result (IsPrefixRefusal option.now text.now) }
{
    match parse_prefix(text.as_bytes()) {
        Ok(prefix) => Ok(prefix),
        Err(_) => {
            let reason = "it is not an address and a length, such as 192.0.2.0/24";
            Err(Ending::invalid(alloc, option, text, reason))
        }
    }
}

/// Returns what ends the server.
fn until_in(matches: &ArgMatches<'_>) -> Until
    ensures { result ≡ until_of (is_given (found_of matches.now) (codes "until-stdin-closes")) }
{
    if is_given(matches, "until-stdin-closes") {
        Until::InputEnds
    } else {
        Until::Signal
    }
}
