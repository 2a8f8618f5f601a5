//! `nameserver FILE.. [OPTIONS]`: serves the zones of zone files over UDP and TCP, takes dynamic updates, and makes faults on
//! demand.
//!
//! - `files`, `zones`, `includes`: the files that are read; `policy`: keys and grants; `durable`: zones with a journal;
//! - `source`: where requests come from; `replay`: requests that a script makes, in the place of sockets.
//!
//! What the arguments and the files say is read by `nameserver_cli`, and what is done with a request is in `nameserver_handlers`.
#![tactic(auto)]

mod durable;
mod files;
mod includes;
mod policy;
mod replay;
mod source;
mod zones;

ghost use Rattle.std.specs.Prelude.{◌≡◌, is_some};
ghost use Rattle.nameserver_cli.specs.Arguments.{offers_transfers};

use crate::durable::{Opened, compact_and_end, open};
use crate::files::read_text;
use crate::policy::read_policy;
use crate::replay::{conclude, read_replay};
use crate::source::Source;
use dns_durable::Policy;
use dns_faults::rules::{FaultTable, Service as FaultService};
use dns_journal::files::FileStorage;
use nameserver_cli::replay::{Part, Replay};
use nameserver_cli::{Arguments, Ending, ReplayMode, faults_of, read_arguments};
use nameserver_handlers::{
    Notices, RequestHandler, RequestLog, Settings, Transfers, Upkeep, WallClock, recorder_of,
    tell_unmatched,
};
use std::fs::{File, OpenOptions};
use std::process::ExitCode;
use std::{env, io};

/// What the rules of a part of a script are named by.
const RULES_NAME: &str = "with";

fn main(rt: HostRuntime) -> ExitCode {
    let arguments = match given_arguments(&rt) {
        Ok(arguments) => arguments,
        Err(ending) => return end(&rt, &ending, false),
    };
    let is_comparison = matches!(arguments.replay_mode, ReplayMode::Check);
    match run_program(&rt, arguments) {
        Ok(()) => ExitCode::SUCCESS,
        Err(ending) => end(&rt, &ending, is_comparison),
    }
}

/// Says why the program ends, and returns its status.
fn end(rt: &HostRuntime, ending: &Ending, is_comparison: bool) -> ExitCode {
    if ending.is_answer() {
        return match rt.print(ending) {
            Ok(()) => ExitCode::SUCCESS,
            Err(_) => ExitCode::FAILURE,
        };
    }
    // A failure to write to standard error can't be reported.
    let _written = rt.eprint(ending);
    ExitCode::from(ending.status(is_comparison))
}

/// Serves the zones that the arguments name, at sockets or for scripts.
fn run_program(rt: &HostRuntime, arguments: Arguments) -> Result<(), Ending> {
    if arguments.replay.is_empty() {
        serve(rt, arguments, None)?;
        return Ok(());
    }
    run_replays(rt, &arguments)
}

/// Makes the requests of scripts, one script after another.
fn run_replays(rt: &HostRuntime, arguments: &Arguments) -> Result<(), Ending> {
    let mut is_met = true;
    for path in arguments.replay.as_slice() {
        let replay = read_replay(rt, path.as_str(), arguments.replay_mode)?;
        let printed = run_replay(rt, &replay)?;
        is_met = conclude(rt, &replay, printed.as_str())? && is_met;
    }
    if is_met { Ok(()) } else { Err(Ending::Differs) }
}

/// Makes the requests of a script, each part of which is for a server of its own, and returns what is printed of them.
fn run_replay(rt: &HostRuntime, replay: &Replay) -> Result<String, Ending> {
    let mut printed = String::new(rt.alloc());
    for part in replay.parts() {
        if part.line.is_some() || !part.events.is_empty() {
            printed.push_str(run_part(rt, part)?.as_str())?;
        }
    }
    Ok(printed)
}

/// Makes the requests of a part of a script, and returns what is printed of its server and of them.
fn run_part(rt: &HostRuntime, part: &Part) -> Result<String, Ending> {
    let arguments = arguments_of(rt, part)?;
    let count = arguments.files.len();
    let text = serve(rt, arguments, Some(part))?;
    match &part.line {
        Some(line) => {
            let (line, text) = (line.as_str(), text.as_str());
            Ok(format!(in rt.alloc(); "{line}: {count} zones\n{text}")?)
        }
        None => Ok(text),
    }
}

/// Returns the arguments of a part of a script: its own, or else those of the program.
fn arguments_of(rt: &HostRuntime, part: &Part) -> Result<Arguments, Ending> {
    if part.line.is_none() {
        return given_arguments(rt);
    }
    let mut words = Vec::new(rt.alloc());
    words.push("nameserver")?;
    for word in part.words.as_slice() {
        words.push(word.as_str())?;
    }
    read_arguments(rt.alloc(), words.as_slice())
}

/// Serves the zones that arguments name, and returns what is printed of the requests of a script.
fn serve(rt: &HostRuntime, arguments: Arguments, part: Option<&Part>) -> Result<String, Ending> {
    if arguments.files.is_empty() {
        let report = "nameserver: no zone file: write `server FILE..` before the first request\n";
        return Err(Ending::Refused(String::from_str(rt.alloc(), report)?));
    }
    if part.is_none() {
        tell_lost_serials(rt, &arguments);
    }
    run_server(rt, arguments, part)
}

/// Says on standard error if secondaries are notified of serial numbers that a restart would lose.
fn tell_lost_serials(rt: &HostRuntime, arguments: &Arguments) {
    if arguments.loses_serials() {
        // A failure to write to standard error can't be reported.
        let _written = eprintln!(rt;
            "nameserver: without --journal, a restart loses the updates, and the secondaries of --notify, which have greater serial numbers, do not follow the zone then"
        );
    }
}

/// Serves zones; or replaces the zone file by the zone with the updates of its journal, if that is asked for.
fn run_server(
    rt: &HostRuntime,
    arguments: Arguments,
    part: Option<&Part>,
) -> Result<String, Ending> {
    let faults = fault_table(rt, &arguments, part)?;
    let is_compaction = arguments.durable.compact;
    let mut opened = open(rt, &arguments, has_stale(&faults) && !is_compaction)?;
    if is_compaction {
        compact_and_end(rt, &arguments, &mut opened.server)?;
        return Ok(String::new(rt.alloc()));
    }
    let zones = opened.server.server.zones();
    tell_unmatched(rt, fault_path(&arguments, part), &faults, zones);
    let log = open_log(rt, &arguments)?;
    let notices = Notices::new(rt, zones, arguments.notify.as_slice())?;
    let recorder = recorder_of(rt.alloc(), zones, arguments.kept_differences())?;
    let upkeep = Upkeep::new(arguments.durable.journal_limit);
    let policy = read_policy(rt, &arguments, zones)?;
    let source = Source::open(rt, &arguments, part)?;
    let settings = settings_of(arguments, policy, source.clock());
    let Opened { server, former } = opened;
    let mut handler = RequestHandler {
        rt,
        server,
        former,
        faults,
        settings,
        recorder,
        notices,
        log,
        upkeep,
    };
    source.run(rt, &mut handler)
}

/// Returns how requests are answered, and what their requestors may do, with a clock by which signatures are in time.
fn settings_of(arguments: Arguments, policy: Policy, clock: WallClock) -> Settings
    ensures policy { result.policy ≡ policy }
    ensures limit { result.limit ≡ arguments.limit }
    ensures updaters { result.updaters ≡ arguments.updaters }
    ensures transfers { result.transfers ≡ record {
      are_offered = offers_transfers arguments.answering;
      secondaries = arguments.secondaries;
      clock = clock;
    } }
    ensures journal { result.has_journal ≡ is_some arguments.durable.journal }
{
    let limit = arguments.limit;
    let are_offered = arguments.offers_transfers();
    let has_journal = arguments.durable.journal.is_some();
    let (updaters, secondaries) = arguments.into_lists();
    Settings {
        policy,
        limit,
        updaters,
        transfers: Transfers {
            are_offered,
            secondaries,
            clock,
        },
        has_journal,
    }
}

/// Returns `true` if a rule answers by the rows from before the last update.
fn has_stale(faults: &FaultTable) -> bool {
    faults.rules().iter().any(|counted| matches!(counted.rule.fault.service, FaultService::Stale))
}

/// Returns the arguments of the program.
fn given_arguments(rt: &HostRuntime) -> Result<Arguments, Ending> {
    let given = match env::args(rt) {
        Ok(given) => given,
        Err(error) if error.kind() == io::ErrorKind::OutOfMemory => {
            // Copying the arguments was refused memory.
            return Err(Ending::Memory);
        }
        Err(_) => return Err(Ending::NotUtf8),
    };
    let texts = given.collect::<Vec<String>>(rt.alloc())?;
    let words = texts
        .iter()
        .map(|text| text.as_str())
        .collect::<Vec<&str>>(rt.alloc())?;
    read_arguments(rt.alloc(), words.as_slice())
}

/// Returns the fault table whose rules a part of a script states, or else that of the arguments.
fn fault_table(
    rt: &HostRuntime,
    arguments: &Arguments,
    part: Option<&Part>,
) -> Result<FaultTable, Ending> {
    if let Some(part) = part {
        if let Some(rules) = &part.rules {
            return faults_of(rt.alloc(), RULES_NAME, rules.as_str());
        }
    }
    read_faults(rt, arguments)
}

/// Returns what the fault table of a part of a script, or else of the arguments, is named by.
fn fault_path<'a>(arguments: &'a Arguments, part: Option<&Part>) -> &'a str {
    let has_rules = part.is_some_and(|part| part.rules.is_some());
    match &arguments.faults {
        Some(path) if !has_rules => path.as_str(),
        _ => RULES_NAME,
    }
}

/// Reads the fault table, if one is given.
fn read_faults(rt: &HostRuntime, arguments: &Arguments) -> Result<FaultTable, Ending> {
    let Some(path) = &arguments.faults else {
        return Ok(FaultTable::new(rt.alloc()));
    };
    let path = path.as_str();
    let text = read_text(rt, path)?;
    faults_of(rt.alloc(), path, text.as_str())
}

/// Opens the log, if one is given. What its file has stays.
fn open_log(rt: &HostRuntime, arguments: &Arguments) -> Result<Option<RequestLog<File>>, Ending> {
    let Some(path) = &arguments.log else {
        return Ok(None);
    };
    let path = path.as_str();
    match OpenOptions::new().append(true).create(true).open(rt, path) {
        Ok(file) => Ok(Some(RequestLog::new(file))),
        Err(error) => Err(Ending::CannotOpenLog(String::from_str(rt.alloc(), path)?, error)),
    }
}
