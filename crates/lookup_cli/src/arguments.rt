//! The arguments of the program.

ghost use Rattle.std.specs.Prelude.{◌≡◌, ◌==◌, IfErr, IfOk, Some, codes, length, map, option_map, string_bytes};
ghost use Rattle.std.specs.List.{AllZip, list_any};
ghost use Rattle.clap.specs.Words.{first_of};
ghost use Rattle.lookup_cli.specs.Arguments.{AreArguments, AreItems, AreLists, ArePaths, IsItemFor};
ghost use Rattle.lookup_cli.specs.Arguments.{IsItemRefusal, IsKey, IsOf, IsQuestion, IsRefusal, IsRefusalAmong};
ghost use Rattle.lookup_cli.specs.Arguments.{IsRefusalOf, IsReversedIf, IsServerRefusal, IsTask, IsUpdate, IsUpdateRefusal};
ghost use Rattle.lookup_cli.specs.Arguments.{found, found_in, is_given, is_input, texts_of};
ghost use Rattle.lookup_cli.specs.Values.{IsNameRefusal, IsNotLookedUpRefusal, IsServer, SpellsName, strategy_of, timeout_of};

use crate::answers::{Item, Question};
use crate::command::command;
use crate::ending::Ending;
use crate::found::{is_given, number_in, text_in};
use crate::values::{check_name, name_of, server_of, strategy_of, timeout_of, type_of};
use clap::ArgMatches;
use clap::error::ErrorKind;
use dns_names::Name;
use std::alloc::{AllocError, Global};
use std::net::SocketAddr;
use stub_config::LookupIpStrategy;

/// The argument that stands for the names of standard input.
const INPUT: &str = "-";

/// The arguments of the program.
#[derive(Drop)]
pub struct Arguments {
    /// What is looked up.
    pub items: Vec<Item>,
    /// Whether the names of standard input are looked up, too.
    pub reads_input: bool,
    /// What is asked about a name without a type.
    pub question: Question,
    /// Whether an address is looked up by its reverse name.
    pub reverse: bool,
    /// The addresses of the servers, in place of those of the configuration if there are any.
    pub servers: Vec<SocketAddr>,
    /// The path of the configuration, as given.
    pub resolv_conf: Option<String>,
    /// The path of the hosts file, as given.
    pub hosts: Option<String>,
    /// The names that complete relative names, in place of those of the configuration if there are any.
    pub search: Vec<Name>,
    /// The number of labels above which a name is looked up as it is first.
    pub ndots: Option<usize>,
    /// The types of addresses.
    pub strategy: Option<LookupIpStrategy>,
    /// How long to wait for a reply, in milliseconds.
    pub timeout: Option<u64>,
    /// How many times each server is asked.
    pub attempts: Option<usize>,
    /// The update that is sent in place of lookups.
    pub update: Option<UpdateArguments>,
    /// Whether servers are asked over TCP alone.
    pub tcp: bool,
    /// Whether servers are asked in turn.
    pub rotate: bool,
    /// Whether requests have an OPT record.
    pub edns: bool,
    /// Whether what is found is cached.
    pub cache: bool,
    /// Whether JSON is printed.
    pub json: bool,
    /// Whether standard error has a line for each event.
    pub trace: bool,
}

/// An update, as given.
#[derive(Drop)]
pub struct UpdateArguments {
    /// The words of the update.
    pub words: String,
    /// The name of the zone.
    pub zone: Name,
    /// The key that signs it.
    pub key: Option<KeyArguments>,
}

/// A key, as given.
#[derive(Drop)]
pub struct KeyArguments {
    /// The path of the key file.
    pub path: String,
    /// The name of the key, or `None` for the first one of the file.
    pub name: Option<Name>,
}

/// Reads the arguments, of which the first is the program's name.
///
/// # Errors
///
/// - [`Ending::Arguments`] if an argument is missing, unknown or has no valid value, or help or the version is asked for;
/// - [`Ending::InvalidValue`] if the value of an argument is none of its values;
/// - [`Ending::ZoneWithoutUpdate`] if a name and the zone of an update are given, and no update;
/// - [`Ending::Memory`] if memory is refused.
pub fn read_arguments(alloc: Global, words: &[&str]) -> Result<Arguments, Ending>
    ensures arguments { IfOk result (AreArguments (found_in (map (λ word. word.now) words.now))) }
    ensures refused { IfErr result (IsRefusalOf (found_in (map (λ word. word.now) words.now))) }
{
    let matches = match command(alloc)?.try_get_matches_from(words) {
        Ok(matches) => matches,
        Err(error) if error.kind() == ErrorKind::OutOfMemory => {
            // Reading the arguments was refused memory.
            return Err(Ending::Memory);
        }
        Err(error) => return Err(Ending::Arguments(error)),
    };
    arguments_of(alloc, &matches)
}

/// The values that are lists of servers and names.
#[derive(Drop)]
struct Lists {
    servers: Vec<SocketAddr>,
    search: Vec<Name>,
}

/// The values that are paths.
#[derive(Drop)]
struct Paths {
    resolv_conf: Option<String>,
    hosts: Option<String>,
}

/// What is to be done.
#[derive(Drop)]
struct Task {
    items: Vec<Item>,
    update: Option<UpdateArguments>,
}

/// Returns the arguments that clap found.
fn arguments_of(alloc: Global, matches: &ArgMatches<'_>) -> Result<Arguments, Ending>
    ensures arguments { IfOk result (AreArguments (found matches.now)) }
    ensures refused { IfErr result (IsRefusal (found matches.now)) }
{
    let question = question_in(alloc, matches)?;
    let strategy = strategy_in(alloc, matches)?;
    let timeout = timeout_in(alloc, matches)?;
    let task = task_in(alloc, matches, question)?;
    let (lists, paths) = sources_in(alloc, matches)?;
    let Task { items, update } = task;
    Ok(Arguments {
        items,
        reads_input: has_input(matches),
        question,
        reverse: is_given(matches, "reverse"),
        servers: lists.servers,
        resolv_conf: paths.resolv_conf,
        hosts: paths.hosts,
        search: lists.search,
        ndots: number_in(matches, "ndots"),
        strategy,
        timeout,
        attempts: number_in(matches, "attempts"),
        update,
        tcp: is_given(matches, "tcp"),
        rotate: is_given(matches, "rotate"),
        edns: !is_given(matches, "no-edns"),
        cache: !is_given(matches, "no-cache"),
        json: is_given(matches, "json"),
        trace: is_given(matches, "trace"),
    })
}

/// Returns what is to be done.
fn task_in(alloc: Global, matches: &ArgMatches<'_>, question: Question) -> Result<Task, Ending>
    ensures task { IfOk result (IsTask (found matches.now) question) }
    ensures refused { IfErr result (IsRefusal (found matches.now)) }
{
    let items = items_in(alloc, matches, question)?;
    Ok(Task {
        items,
        update: update_in(alloc, matches)?,
    })
}

/// Returns the lists and the paths.
fn sources_in(alloc: Global, matches: &ArgMatches<'_>) -> Result<(Lists, Paths), Ending>
    ensures lists { IfOk result (λ sources. AreLists (found matches.now) sources.0) }
    ensures paths { IfOk result (λ sources. ArePaths (found matches.now) sources.1) }
    ensures refused { IfErr result (IsRefusal (found matches.now)) }
{
    let lists = lists_in(alloc, matches)?;
    Ok((lists, paths_in(alloc, matches)?))
}

/// Returns the lists.
fn lists_in(alloc: Global, matches: &ArgMatches<'_>) -> Result<Lists, Ending>
    ensures lists { IfOk result (AreLists (found matches.now)) }
    ensures refused { IfErr result (IsRefusal (found matches.now)) }
{
    let servers = servers_in(alloc, matches)?;
    Ok(Lists {
        servers,
        search: search_in(alloc, matches)?,
    })
}

/// Returns the paths.
fn paths_in(alloc: Global, matches: &ArgMatches<'_>) -> Result<Paths, AllocError>
    ensures { IfOk result (ArePaths (found matches.now)) }
{
    let resolv_conf = path_in(alloc, matches, "resolv-conf")?;
    Ok(Paths {
        resolv_conf,
        hosts: path_in(alloc, matches, "hosts")?,
    })
}

/// Returns what is asked about a name without a type.
fn question_in(alloc: Global, matches: &ArgMatches<'_>) -> Result<Question, Ending>
    ensures question { IfOk result (IsQuestion (first_of (codes "type") (found matches.now))) }
    ensures refused { IfErr result (IsRefusal (found matches.now)) }
{
    match text_in(matches, "type") {
        Some(text) => Ok(Question::Records(type_of(alloc, text)?)),
        None => Ok(Question::Addresses),
    }
}

/// Returns what is looked up, without the names of standard input.
fn items_in(
    alloc: Global,
    matches: &ArgMatches<'_>,
    question: Question,
) -> Result<Vec<Item>, Ending>
    ensures items { IfOk result (λ items.
        AreItems question (is_given (codes "reverse") (found matches.now))
        (texts_of (codes "NAME") (found matches.now)) items.items) }
    ensures refused { IfErr result (IsRefusal (found matches.now)) }
{
    let reverse = is_given(matches, "reverse");
    let texts = matches.get_strs("NAME").unwrap_or(&[]);
    items_of(alloc, texts, question, reverse)
}

/// Returns what is looked up for the texts that do not stand for the names of standard input.
fn items_of(
    alloc: Global,
    texts: &[&str],
    question: Question,
    reverse: bool,
) -> Result<Vec<Item>, Ending>
    ensures items { IfOk result (λ items.
        AreItems question reverse (map (λ text. text.now) texts.now) items.items) }
    ensures refused { IfErr result (IsRefusalAmong (IsItemRefusal (length texts.now == 1))
        (map (λ text. text.now) texts.now)) }
{
    let mut items = Vec::new(alloc);
    for text in texts {
        if !is_input(text) {
            items.push(item_of(alloc, text, texts.len() == 1, question, reverse)?)?;
        }
    }
    Ok(items)
}

/// Returns what is looked up for a text, which is alone or one of several.
fn item_of(
    alloc: Global,
    text: &str,
    is_alone: bool,
    question: Question,
    reverse: bool,
) -> Result<Item, Ending>
    ensures item { IfOk result (IsItemFor question reverse is_alone text.now) }
    ensures refused { IfErr result (IsNotLookedUpRefusal is_alone text.now) }
{
    check_name(alloc, text, is_alone)?;
    let name = String::from_str(alloc, text)?;
    Ok(reversed_if(alloc, reverse, Item::new(alloc, name, question))?)
}

/// Returns an item, by the reverse name of the address that its name is if that is asked for.
fn reversed_if(alloc: Global, is_asked: bool, item: Item) -> Result<Item, AllocError>
    ensures { IfOk result (IsReversedIf is_asked item) }
{
    if is_asked {
        item.reversed(alloc)
    } else {
        Ok(item)
    }
}

/// Returns `true` if the names of standard input are looked up.
fn has_input(matches: &ArgMatches<'_>) -> bool
    ensures { result ≡ list_any is_input (texts_of (codes "NAME") (found matches.now)) }
{
    has_input_among(matches.get_strs("NAME").unwrap_or(&[]))
}

/// Returns `true` if one of texts stands for the names of standard input.
fn has_input_among(texts: &[&str]) -> bool
    ensures { result ≡ list_any (λ text. is_input text.now) texts.now }
{
    texts.iter().any(|text| is_input(text))
}

/// Returns `true` if a text stands for the names of standard input.
fn is_input(text: &str) -> bool
    ensures { result ≡ is_input text.now }
{
    text == INPUT
}

/// Returns the addresses of the servers.
fn servers_in(alloc: Global, matches: &ArgMatches<'_>) -> Result<Vec<SocketAddr>, Ending>
    ensures servers { IfOk result (λ servers.
        AllZip IsServer (texts_of (codes "server") (found matches.now)) servers.items) }
    ensures refused { IfErr result (IsRefusal (found matches.now)) }
{
    servers_of(alloc, matches.get_strs("server").unwrap_or(&[]))
}

/// Returns the addresses of the servers of texts.
fn servers_of(alloc: Global, texts: &[&str]) -> Result<Vec<SocketAddr>, Ending>
    ensures servers { IfOk result (λ servers.
        AllZip IsServer (map (λ text. text.now) texts.now) servers.items) }
    ensures refused { IfErr result (IsRefusalAmong IsServerRefusal
        (map (λ text. text.now) texts.now)) }
{
    let mut servers = Vec::new(alloc);
    for text in texts {
        servers.push(server_of(alloc, text)?)?;
    }
    Ok(servers)
}

/// Returns the names that complete relative names.
fn search_in(alloc: Global, matches: &ArgMatches<'_>) -> Result<Vec<Name>, Ending>
    ensures search { IfOk result (λ names.
        AllZip SpellsName (texts_of (codes "search") (found matches.now)) names.items) }
    ensures refused { IfErr result (IsRefusal (found matches.now)) }
{
    names_of(alloc, matches.get_strs("search").unwrap_or(&[]))
}

/// Returns the names of the texts of a search list.
fn names_of(alloc: Global, texts: &[&str]) -> Result<Vec<Name>, Ending>
    ensures names { IfOk result (λ names.
        AllZip SpellsName (map (λ text. text.now) texts.now) names.items) }
    ensures refused { IfErr result (IsRefusalAmong (IsNameRefusal (codes "--search"))
        (map (λ text. text.now) texts.now)) }
{
    let mut names = Vec::new(alloc);
    for text in texts {
        names.push(name_of(alloc, "--search", text)?)?;
    }
    Ok(names)
}

/// Returns the types of addresses.
fn strategy_in(alloc: Global, matches: &ArgMatches<'_>) -> Result<Option<LookupIpStrategy>, Ending>
    ensures strategy { IfOk result (IsOf (λ text strategy. strategy_of text ≡ Some strategy)
        (first_of (codes "strategy") (found matches.now))) }
    ensures refused { IfErr result (IsRefusal (found matches.now)) }
{
    match text_in(matches, "strategy") {
        Some(text) => Ok(Some(strategy_of(alloc, text)?)),
        None => Ok(None),
    }
}

/// Returns how long to wait for a reply, in milliseconds.
fn timeout_in(alloc: Global, matches: &ArgMatches<'_>) -> Result<Option<u64>, Ending>
    ensures timeout { IfOk result (IsOf (λ text timeout. timeout_of text ≡ Some timeout)
        (first_of (codes "timeout") (found matches.now))) }
    ensures refused { IfErr result (IsRefusal (found matches.now)) }
{
    match text_in(matches, "timeout") {
        Some(text) => Ok(Some(timeout_of(alloc, text)?)),
        None => Ok(None),
    }
}

/// Returns the update. Clap has found that it has a zone, but beside a name it lets a zone pass without an update.
fn update_in(alloc: Global, matches: &ArgMatches<'_>) -> Result<Option<UpdateArguments>, Ending>
    ensures update { IfOk result (IsOf (IsUpdate (found matches.now))
        (first_of (codes "zone") (found matches.now))) }
    ensures refused { IfErr result (IsRefusal (found matches.now)) }
{
    match (text_in(matches, "update"), text_in(matches, "zone")) {
        (Some(words), Some(zone)) => Ok(Some(update_of(alloc, matches, words, zone)?)),
        (None, Some(_)) => Err(Ending::ZoneWithoutUpdate),
        (_, None) => Ok(None),
    }
}

/// Returns the update of its words and its zone.
fn update_of(
    alloc: Global,
    matches: &ArgMatches<'_>,
    words: &str,
    zone: &str,
) -> Result<UpdateArguments, Ending>
    ensures words { IfOk result (λ update. string_bytes update.words ≡ words.now) }
    ensures zone { IfOk result (λ update. SpellsName zone.now update.zone) }
    ensures key { IfOk result (λ update. IsOf (IsKey (found matches.now))
        (first_of (codes "key") (found matches.now)) update.key) }
    ensures refused { IfErr result (IsUpdateRefusal (found matches.now) zone.now) }
{
    let key = key_in(alloc, matches)?;
    let words = String::from_str(alloc, words)?;
    Ok(UpdateArguments {
        words,
        zone: name_of(alloc, "--zone", zone)?,
        key,
    })
}

/// Returns the key.
fn key_in(alloc: Global, matches: &ArgMatches<'_>) -> Result<Option<KeyArguments>, Ending>
    ensures key { IfOk result (IsOf (IsKey (found matches.now))
        (first_of (codes "key") (found matches.now))) }
    ensures refused { IfErr result (IsRefusal (found matches.now)) }
{
    match text_in(matches, "key") {
        Some(path) => Ok(Some(KeyArguments {
            name: key_name_in(alloc, matches)?,
            path: String::from_str(alloc, path)?,
        })),
        None => Ok(None),
    }
}

/// Returns the name of the key.
fn key_name_in(alloc: Global, matches: &ArgMatches<'_>) -> Result<Option<Name>, Ending>
    ensures name { IfOk result (IsOf SpellsName
        (first_of (codes "key-name") (found matches.now))) }
    ensures refused { IfErr result (IsRefusal (found matches.now)) }
{
    match text_in(matches, "key-name") {
        Some(text) => Ok(Some(name_of(alloc, "--key-name", text)?)),
        None => Ok(None),
    }
}

/// Returns the path that is the value of an option, if it has one.
fn path_in(
    alloc: Global,
    matches: &ArgMatches<'_>,
    name: &str,
) -> Result<Option<String>, AllocError>
    ensures { IfOk result (λ path.
        option_map string_bytes path ≡ first_of name.now (found matches.now)) }
{
    match text_in(matches, name) {
        Some(text) => Ok(Some(String::from_str(alloc, text)?)),
        None => Ok(None),
    }
}
