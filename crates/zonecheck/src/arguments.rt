//! The arguments of the program.

use crate::ending::Ending;
use clap::{Arg, ArgAction, ArgMatches, Command, value_parser};
use dns_names::{Name, ParseError};
use dns_wire::codes::parse_decimal;
use dns_zone_file::Types;
use dns_zone_file::includes::Reach;
use std::alloc::{AllocError, Global};
use zone_check::ReportFormat;

/// The greatest time, in seconds since 1970, that is read.
const MAX_TIME: u64 = 1 << 40;

/// The arguments of the program. There are zone files, or a script, or one zone file and a script.
#[derive(Drop)]
pub(crate) struct Arguments {
    /// The paths of the zone files, as given, or `-` for standard input.
    pub(crate) files: Vec<String>,
    /// The path of the script, as given.
    pub(crate) script: Option<String>,
    /// The origin of the zone.
    pub(crate) origin: Option<Name>,
    /// Whether the origin of each zone is in the name of its file.
    pub(crate) has_origins_of_files: bool,
    /// Whether the zone is printed.
    pub(crate) print: bool,
    /// Whether warnings fail.
    pub(crate) fails_on_warning: bool,
    /// How findings are written.
    pub(crate) format: ReportFormat,
    /// The types that the zone file may have.
    pub(crate) types: Types,
    /// Which files it may include.
    pub(crate) reach: Reach,
    /// The time at which signatures must not have expired, in seconds since 1970 and modulo 2^32, if it is given.
    pub(crate) now: Option<u32>,
}

impl Arguments {
    /// Returns `true` if the zone file may have all types, and include others.
    pub(crate) fn reads_all_types(&self) -> bool {
        matches!(self.types, Types::All)
    }
}

/// Reads the arguments, of which the first is the program's name.
pub(crate) fn read_arguments(alloc: Global, words: &[&str]) -> Result<Arguments, Ending> {
    let matches = match command(alloc)?.try_get_matches_from(words) {
        Ok(matches) => matches,
        Err(error) => return Err(Ending::of_arguments(error)),
    };
    let files = files_in(alloc, &matches)?;
    let script = text_in(alloc, &matches, "script")?;
    Ok(Arguments {
        files,
        script,
        origin: origin_in(alloc, &matches)?,
        has_origins_of_files: is_set(&matches, "origin-of-file"),
        print: is_set(&matches, "print"),
        fails_on_warning: is_set(&matches, "fail-on-warning"),
        format: format_in(&matches),
        types: types_in(&matches),
        reach: reach_in(&matches),
        now: now_in(alloc, &matches)?,
    })
}

/// Returns the paths of the zone files. If there are several, no option is of one zone.
fn files_in(alloc: Global, matches: &ArgMatches<'_>) -> Result<Vec<String>, Ending> {
    let paths = matches.get_strs("file").unwrap_or(&[]);
    if paths.len() > 1
        && let Some(option) = option_of_one_zone(matches)
    {
        return Err(Ending::OfOneZone(option));
    }
    let mut files = Vec::new(alloc);
    for path in paths {
        files.push(String::from_str(alloc, path)?)?;
    }
    Ok(files)
}

/// Returns an option that is given and is of one zone.
fn option_of_one_zone(matches: &ArgMatches<'_>) -> Option<&'static str> {
    if matches.get_str("origin").is_some() {
        Some("--origin")
    } else if matches.get_str("script").is_some() {
        Some("--script")
    } else if is_set(matches, "print") {
        Some("--print")
    } else {
        None
    }
}

/// Returns how findings are written.
fn format_in(matches: &ArgMatches<'_>) -> ReportFormat {
    if is_set(matches, "json") {
        ReportFormat::Json
    } else {
        ReportFormat::Text
    }
}

/// Returns the types that the zone file may have.
fn types_in(matches: &ArgMatches<'_>) -> Types {
    if is_set(matches, "nine") {
        Types::Nine
    } else {
        Types::All
    }
}

/// Returns which files the zone file may include.
fn reach_in(matches: &ArgMatches<'_>) -> Reach {
    if is_set(matches, "include-anywhere") {
        Reach::Anywhere
    } else {
        Reach::Folder
    }
}

/// Returns the time at which signatures must not have expired, if it is given.
fn now_in(alloc: Global, matches: &ArgMatches<'_>) -> Result<Option<u32>, Ending> {
    let Some(text) = matches.get_str("now") else {
        return Ok(None);
    };
    match parse_decimal(text.as_bytes(), MAX_TIME) {
        Some(seconds) => Ok(Some((seconds % (1 << 32)) as u32)),
        None => Err(Ending::invalid(
            alloc,
            "now",
            text,
            "it is not a number of seconds since 1970",
        )),
    }
}

/// Returns the program's command, for clap.
fn command<'a>(alloc: Global) -> Result<Command<'a>, AllocError> {
    let file = Arg::new(alloc, "file")
        .value_name("FILE")
        .help("The zone files, or - for standard input")
        .action(ArgAction::Append)
        .num_args(1..)
        .required_unless_present("script")?;
    let origin_of_file = flag(
        alloc,
        "origin-of-file",
        "Take the origin of each zone from the name of its file, as mail.example.zone or db.mail.example",
    );
    Command::new(alloc, "zonecheck")
        .about("Says what is wrong in zone files or a script, and what to write instead")
        .arg(file)?
        .arg(option(alloc, "origin", "NAME", "The origin of the zone"))?
        .arg(origin_of_file.conflicts_with("origin")?)?
        .arg(flag(alloc, "print", "Print the zone as it was read"))?
        .arg(flag(
            alloc,
            "fail-on-warning",
            "Exit with status 1 if there is a warning",
        ))?
        .arg(flag(alloc, "json", "Print a JSON object for each finding"))?
        .arg(flag(
            alloc,
            "nine",
            "Read the nine types of the program stub, and no other file",
        ))?
        .arg(flag(
            alloc,
            "include-anywhere",
            "Let the zone file include any file",
        ))?
        .arg(option(
            alloc,
            "now",
            "SECONDS",
            "The time since 1970 at which signatures must be valid",
        ))?
        .arg(option(alloc, "script", "FILE", "The script, for the program stub"))
}

/// Returns an option that takes no value.
fn flag<'a>(alloc: Global, name: &'a str, help: &'a str) -> Arg<'a> {
    Arg::new(alloc, name)
        .long(name)
        .action(ArgAction::SetTrue)
        .value_parser(value_parser!(bool))
        .help(help)
}

/// Returns `true` if an option that takes no value is given.
fn is_set(matches: &ArgMatches<'_>, name: &str) -> bool {
    matches.get_str(name) == Some("true")
}

/// Returns an option that takes one value.
fn option<'a>(alloc: Global, name: &'a str, value_name: &'a str, help: &'a str) -> Arg<'a> {
    Arg::new(alloc, name)
        .long(name)
        .value_name(value_name)
        .action(ArgAction::Set)
        .help(help)
}

/// Returns the value of an argument, if it has one.
fn text_in(
    alloc: Global,
    matches: &ArgMatches<'_>,
    name: &str,
) -> Result<Option<String>, AllocError> {
    match matches.get_str(name) {
        Some(text) => Ok(Some(String::from_str(alloc, text)?)),
        None => Ok(None),
    }
}

/// Returns the origin, if its option has a value. It is fully qualified, with or without a dot at its end.
fn origin_in(alloc: Global, matches: &ArgMatches<'_>) -> Result<Option<Name>, Ending> {
    let Some(text) = matches.get_str("origin") else {
        return Ok(None);
    };
    match Name::from_ascii(alloc, text) {
        Ok(mut origin) => {
            origin.set_fqdn(true);
            Ok(Some(origin))
        }
        // Memory for the name was refused.
        Err(ParseError::Memory) => Err(Ending::Memory),
        Err(_) => Err(Ending::invalid(alloc, "origin", text, "it is not a domain name")),
    }
}
