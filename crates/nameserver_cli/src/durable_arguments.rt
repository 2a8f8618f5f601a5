//! The arguments about keys and a journal.

ghost use Rattle.std.specs.Prelude.{◌≡◌, ◌≤◌, IfOk, IfErr, OnOk, true, is_some, codes};
ghost use Rattle.clap.specs.Matches.{first_value, found_of};
ghost use Rattle.nameserver_cli.specs.DurableArguments.{AreDurable, IsJournalLimit, IsJournalLimitRefusal, IsJournalRefusal};

use crate::arguments::{flag, is_given, option, text_in, texts_in};
use crate::ending::Ending;
use clap::{ArgAction, ArgMatches, Command};
use std::alloc::{AllocError, Global};

/// The length of a journal, in bytes, from which on it is begun anew, unless another one is given.
const DEFAULT_LIMIT: usize = 16_777_216;

/// The least of these lengths.
const LEAST_LIMIT: usize = 4_096;

/// What is given of keys and of a journal.
pub struct DurableArguments {
    /// The path of the journal, as given.
    pub journal: Option<String>,
    /// The length of the journal from which on it is begun anew, in bytes.
    pub journal_limit: usize,
    /// Whether the zone file is to be replaced by the zone with its updates, and nothing else.
    pub compact: bool,
    /// The paths of the key files, as given.
    pub keys: Vec<String>,
    /// The grants, as given.
    pub grants: Vec<String>,
}

impl Drop for DurableArguments {
    fn drop(self) {
        let DurableArguments {
            journal,
            journal_limit: _journal_limit,
            compact: _compact,
            keys,
            grants,
        } = self;
        drop(journal);
        drop(keys);
        drop(grants);
    }
}

/// Adds the options about keys and a journal to a command.
pub(crate) fn with_durable_options<'a>(
    alloc: Global,
    command: Command<'a>,
) -> Result<Command<'a>, AllocError> {
    command
        .arg(option(
            alloc,
            "journal",
            "FILE",
            "The journal of the updates of the zone, which outlast a crash",
        ))?
        .arg(option(
            alloc,
            "journal-limit",
            "BYTES",
            "The length of the journal from which on the zone file takes its place, 16777216 if none is given",
        )
        .requires_arg("journal")?)?
        .arg(flag(
            alloc,
            "compact",
            "Replace the zone file by the zone with the updates of its journal, and end",
        )
        .requires_arg("journal")?)?
        .arg(option(
            alloc,
            "key",
            "FILE",
            "A file of keys, with which requests may be signed",
        )
        .action(ArgAction::Append))?
        .arg(option(
            alloc,
            "grant",
            "KEY NAME [TYPE..]",
            "What the holders of a key may update: a name with those below it, and perhaps some types of their records",
        )
        .action(ArgAction::Append))
}

/// Returns what is given of keys and of a journal.
pub(crate) fn durable_in(
    alloc: Global,
    matches: &ArgMatches<'_>,
    file_count: usize,
) -> Result<DurableArguments, Ending>
    ensures given { IfOk result (AreDurable (found_of matches.now)) }
    ensures one { OnOk result (is_some (first_value (found_of matches.now) (codes "journal")) ≡ true
        → file_count ≤ 1) }
{
    let journal = text_in(alloc, matches, "journal")?;
    check_journal(alloc, matches, file_count)?;
    Ok(DurableArguments {
        journal,
        journal_limit: limit_in(alloc, matches)?,
        compact: is_given(matches, "compact"),
        keys: texts_in(alloc, matches, "key")?,
        grants: texts_in(alloc, matches, "grant")?,
    })
}

/// Refuses a journal with several zone files.
fn check_journal(alloc: Global, matches: &ArgMatches<'_>, file_count: usize) -> Result<(), Ending>
    ensures ok { OnOk result (is_some (first_value (found_of matches.now) (codes "journal")) ≡ true
        → file_count ≤ 1) }
    ensures refused { IfErr result (IsJournalRefusal file_count
        (first_value (found_of matches.now) (codes "journal"))) }
{
    match matches.get_str("journal") {
        Some(path) if file_count > 1 => {
            Err(Ending::invalid(alloc, "journal", path, "there is more than one zone file"))
        }
        _ => Ok(()),
    }
}

/// Returns the length from which on a journal is begun anew.
fn limit_in(alloc: Global, matches: &ArgMatches<'_>) -> Result<usize, Ending>
    ensures limit { IfOk result (IsJournalLimit
        (first_value (found_of matches.now) (codes "journal-limit"))) }
    ensures refused { IfErr result (IsJournalLimitRefusal
        (first_value (found_of matches.now) (codes "journal-limit"))) }
{
    let Some(text) = matches.get_str("journal-limit") else {
        return Ok(DEFAULT_LIMIT);
    };
    match text.parse::<usize>() {
        Ok(limit) if limit >= LEAST_LIMIT => Ok(limit),
        _ => Err(Ending::invalid(
            alloc,
            "journal-limit",
            text,
            "it is not a number from 4096 on",
        )),
    }
}
