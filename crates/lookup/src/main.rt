//! `lookup NAME.. [OPTIONS]`: looks up names at name servers, or sends an update.
//!
//! - `network`: the network; `files`: the files that are read; `lookups`: lookups, and their output
//! - `update`: the words of an update; `update_fault`: what is wrong with them; `signed`: signed updates
#![tactic(auto)]

mod files;
mod lookups;
mod network;
mod signed;
mod update;
mod update_fault;

use files::{read_conf, read_hosts, read_traced_hosts};
use lookup_cli::answers::ExitStatus;
use lookup_cli::{Arguments, Ending, Session, read_arguments, settings_of};
use lookups::Program;
use network::ProgramNetwork;
use signed::open_signed;
use std::process::ExitCode;
use std::time::Instant;
use std::{env, io};
use stub_config::ResolverOpts;
use stub_net_sockets::{RandomIds, SocketNetwork, Stopwatch, SystemEntropy};
use stub_servers::resolv_conf::SystemConf;

/// The status if the arguments or the files are at fault, or the program ends early for another reason.
const INVALID: u8 = 2;

/// The network of the program.
pub(crate) type Sockets<'a> = ProgramNetwork<'a>;

/// The ids of the program.
pub(crate) type Ids<'a> = RandomIds<SystemEntropy<&'a HostRuntime>>;

fn main(rt: HostRuntime) -> ExitCode {
    match run_program(&rt) {
        Ok(status) => ExitCode::from(status.code()),
        Err(ending) => end(&rt, &ending),
    }
}

/// Says why the program ends, and returns its status.
fn end(rt: &HostRuntime, ending: &Ending) -> ExitCode {
    if ending.is_answer() {
        return match rt.print(ending) {
            Ok(()) => ExitCode::SUCCESS,
            Err(_) => ExitCode::from(INVALID),
        };
    }
    // A failure to write to standard error can't be reported.
    let _written = rt.eprint(ending);
    ExitCode::from(INVALID)
}

/// Does what the arguments say.
fn run_program(rt: &HostRuntime) -> Result<ExitStatus, Ending> {
    let arguments = given_arguments(rt)?;
    let mut program = open_program(rt, &arguments)?;
    program.run()?;
    Ok(program.status)
}

/// Starts the clock, and opens the session of the arguments.
fn open_program<'a>(rt: &'a HostRuntime, arguments: &'a Arguments) -> Result<Program<'a>, Ending> {
    let start = now(rt)?;
    let clock = stopwatch(rt)?;
    let hosts = read_traced_hosts(rt, arguments)?;
    let session = open_session(rt, arguments, start)?;
    let signed = open_signed(rt, arguments, start)?;
    Ok(Program {
        rt,
        clock,
        start,
        arguments,
        session,
        signed,
        hosts,
        status: ExitStatus::new(),
    })
}

/// Returns the arguments of the program.
fn given_arguments(rt: &HostRuntime) -> Result<Arguments, Ending> {
    let given = match env::args(rt) {
        Ok(given) => given,
        Err(error) if error.kind() == io::ErrorKind::OutOfMemory => {
            // Copying the arguments was refused memory.
            return Err(Ending::Memory);
        }
        Err(_) => return Err(Ending::NotUtf8),
    };
    let texts = given.collect::<Vec<String>>(rt.alloc())?;
    let words = texts
        .iter()
        .map(|text| text.as_str())
        .collect::<Vec<&str>>(rt.alloc())?;
    read_arguments(rt.alloc(), words.as_slice())
}

/// Reads the files, and opens a session over sockets.
fn open_session<'a>(
    rt: &'a HostRuntime,
    arguments: &Arguments,
    start: Instant,
) -> Result<Session<Sockets<'a>, Ids<'a>>, Ending> {
    let SystemConf { config, options } = read_settings(rt, arguments)?;
    let hosts = read_hosts(rt, arguments.hosts.as_ref())?;
    let network = open_network(rt, arguments, start)?;
    let timeout = timeout_of(arguments, &options);
    let session = Session::new(
        rt.alloc(),
        network,
        RandomIds::new(SystemEntropy::new(rt)),
        config,
        options,
        timeout,
        arguments.tcp,
        hosts,
    );
    match session {
        Ok(session) => Ok(session),
        // Want of memory is the only error: a resolver has these options.
        Err(_) => Err(Ending::Memory),
    }
}

/// Returns how long to wait for a reply, in milliseconds.
pub(crate) fn timeout_of(arguments: &Arguments, options: &ResolverOpts) -> u64 {
    arguments
        .timeout
        .unwrap_or(options.timeout.saturating_mul(1_000))
}

/// Reads the configuration, and returns it with what the arguments say.
pub(crate) fn read_settings(rt: &HostRuntime, arguments: &Arguments) -> Result<SystemConf, Ending> {
    let text = read_conf(rt, arguments)?;
    Ok(settings_of(rt.alloc(), arguments, text.as_slice())?)
}

/// Opens the network, which tells what it does since a moment if the arguments say so.
pub(crate) fn open_network<'a>(
    rt: &'a HostRuntime,
    arguments: &Arguments,
    start: Instant,
) -> Result<Sockets<'a>, Ending> {
    let network = SocketNetwork::new(rt, rt.alloc(), stopwatch(rt)?)?;
    Ok(ProgramNetwork::new(network, rt, start, arguments.trace))
}

/// Returns the moment of the clock.
fn now(rt: &HostRuntime) -> Result<Instant, Ending> {
    match Instant::now(rt) {
        Ok(moment) => Ok(moment),
        Err(error) => Err(Ending::NoClock(error)),
    }
}

/// Starts a clock that counts from now.
fn stopwatch(rt: &HostRuntime) -> Result<Stopwatch<&HostRuntime>, Ending> {
    match Stopwatch::start(rt) {
        Ok(clock) => Ok(clock),
        Err(error) => Err(Ending::NoClock(error)),
    }
}
