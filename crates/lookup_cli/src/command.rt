//! The command of the arguments, for clap.

ghost use Rattle.std.specs.Prelude.{◌≡◌, IfOk, codes};
ghost use Rattle.clap.specs.Words.{App, Rule, app_of, with_rule};
ghost use Rattle.lookup_cli.specs.Command.{IsArg, Makes, bare_app, between, bound, flag, flag_rules};
ghost use Rattle.lookup_cli.specs.Command.{item_rules, key_rules, list, lookup_app, names_rule, number};
ghost use Rattle.lookup_cli.specs.Command.{option, source_rules, time_rules, update_rules};
ghost use Rattle.lookup_cli.specs.Command.{with_rules, with_short};

use clap::{Arg, ArgAction, Command, value_parser};
use std::alloc::{AllocError, Global};

/// The version of the program.
const VERSION: &str = "0.1.0";

/// Returns the program's command.
pub(crate) fn command<'a>(alloc: Global) -> Result<Command<'a>, AllocError>
    ensures { IfOk result (λ command. app_of command ≡ lookup_app) }
{
    let items = with_items(alloc, Ok(bare_command(alloc)));
    let sources = with_time(alloc, with_sources(alloc, items));
    with_flags(alloc, with_key(alloc, with_update(alloc, sources)))
}

/// Returns the command without arguments.
fn bare_command<'a>(alloc: Global) -> Command<'a>
    ensures { app_of result ≡ bare_app }
{
    Command::new(alloc, "lookup")
        .version(VERSION)
        .about("Looks up names at name servers")
}

/// Adds an argument to a command, if there is memory for both.
fn with_arg<'a>(
    command: Result<Command<'a>, AllocError>,
    arg: Result<Arg<'a>, AllocError>,
) -> Result<Command<'a>, AllocError>
    ensures { (app : App) (rule : Rule) → Makes app command.entry → IfOk arg.entry (IsArg rule)
        → Makes (with_rule app rule) result }
{
    command?.arg(arg?)
}

/// Returns an argument that excludes an update.
fn without_update<'a>(arg: Arg<'a>) -> Result<Arg<'a>, AllocError>
    ensures { (rule : Rule) → IsArg rule arg.entry → IfOk result (IsArg (bound rule)) }
{
    arg.conflicts_with("update")
}

/// Returns an argument that requires another one.
fn requiring<'a>(arg: Arg<'a>, id: &'a str) -> Result<Arg<'a>, AllocError>
    ensures { (rule : Rule) → IsArg rule arg.entry → IfOk result (IsArg (bound rule)) }
{
    arg.requires_arg(id)
}

/// Adds the options of what is looked up.
fn with_items<'a>(
    alloc: Global,
    command: Result<Command<'a>, AllocError>,
) -> Result<Command<'a>, AllocError>
    ensures { (app : App) → Makes app command.entry → Makes (with_rules app item_rules) result }
{
    let named = with_arg(command, names(alloc));
    let typed = with_arg(named, type_option(alloc));
    with_arg(typed, reverse_flag(alloc))
}

/// Returns the argument of the names.
fn names<'a>(alloc: Global) -> Result<Arg<'a>, AllocError>
    ensures { IfOk result (IsArg names_rule) }
{
    Arg::new(alloc, "NAME")
        .value_name("NAME")
        .help(
            "The names to look up; with - also those of standard input, one a line, after which a type may follow",
        )
        .action(ArgAction::Append)
        .num_args(1..)
        .required_unless_present("update")?
        .conflicts_with("update")
}

/// Returns the option of the type.
fn type_option<'a>(alloc: Global) -> Result<Arg<'a>, AllocError>
    ensures { IfOk result (IsArg (bound (with_short 116 (option (codes "type"))))) }
{
    let option = option(
        alloc,
        "type",
        "TYPE",
        "The type of the records; addresses if it is omitted",
    );
    without_update(option.short('t'))
}

/// Returns the flag of reverse names.
fn reverse_flag<'a>(alloc: Global) -> Result<Arg<'a>, AllocError>
    ensures { IfOk result (IsArg (bound (with_short 120 (flag (codes "reverse"))))) }
{
    let flag = flag(
        alloc,
        "reverse",
        "Look up the PTR records of addresses, by their reverse names",
    );
    without_update(flag.short('x'))
}

/// Adds the options of servers and of what completes names.
fn with_sources<'a>(
    alloc: Global,
    command: Result<Command<'a>, AllocError>,
) -> Result<Command<'a>, AllocError>
    ensures { (app : App) → Makes app command.entry → Makes (with_rules app source_rules) result }
{
    let server = list(
        alloc,
        "server",
        "ADDRESS[:PORT]",
        "A name server, in place of those of resolv.conf; the port is 53 if it is omitted",
    );
    let resolv_conf = option(
        alloc,
        "resolv-conf",
        "FILE",
        "The configuration; /etc/resolv.conf if neither it nor a server is given",
    );
    let hosts = option(
        alloc,
        "hosts",
        "FILE",
        "The hosts file; /etc/hosts if it is omitted",
    );
    let served = with_arg(command, Ok(server));
    let configured = with_arg(with_arg(served, Ok(resolv_conf)), Ok(hosts));
    with_arg(
        with_arg(configured, search_option(alloc)),
        ndots_option(alloc),
    )
}

/// Returns the option of the names that complete relative ones.
fn search_option<'a>(alloc: Global) -> Result<Arg<'a>, AllocError>
    ensures { IfOk result (IsArg (bound (list (codes "search")))) }
{
    without_update(list(
        alloc,
        "search",
        "NAME",
        "A name that completes relative names, in place of those of resolv.conf",
    ))
}

/// Returns the option of the number of dots.
fn ndots_option<'a>(alloc: Global) -> Result<Arg<'a>, AllocError>
    ensures { IfOk result (IsArg (bound (number (codes "ndots") (between 0 15)))) }
{
    let option = option(
        alloc,
        "ndots",
        "N",
        "The number of labels above which a name is looked up as it is before it is completed",
    );
    without_update(option.value_parser(value_parser!(u8).range(0..=15)))
}

/// Adds the options of how servers are asked.
fn with_time<'a>(
    alloc: Global,
    command: Result<Command<'a>, AllocError>,
) -> Result<Command<'a>, AllocError>
    ensures { (app : App) → Makes app command.entry → Makes (with_rules app time_rules) result }
{
    let timeout = option(
        alloc,
        "timeout",
        "SECONDS",
        "How long to wait for a reply, with at most three decimals",
    );
    let timed = with_arg(with_arg(command, strategy_option(alloc)), Ok(timeout));
    with_arg(timed, Ok(attempts_option(alloc)))
}

/// Returns the option of the types of addresses.
fn strategy_option<'a>(alloc: Global) -> Result<Arg<'a>, AllocError>
    ensures { IfOk result (IsArg (bound (option (codes "strategy")))) }
{
    without_update(option(
        alloc,
        "strategy",
        "STRATEGY",
        "The types of addresses: ipv4, ipv6, both, ipv4-then-ipv6 or ipv6-then-ipv4",
    ))
}

/// Returns the option of how many times each server is asked.
fn attempts_option<'a>(alloc: Global) -> Arg<'a>
    ensures { IsArg (number (codes "attempts") (between 1 1000)) result }
{
    option(
        alloc,
        "attempts",
        "N",
        "How many times each server is asked",
    )
    .value_parser(value_parser!(u16).range(1..=1000))
}

/// Adds the options of updates.
fn with_update<'a>(
    alloc: Global,
    command: Result<Command<'a>, AllocError>,
) -> Result<Command<'a>, AllocError>
    ensures { (app : App) → Makes app command.entry → Makes (with_rules app update_rules) result }
{
    let update = option(
        alloc,
        "update",
        "WORDS",
        "Send a dynamic update, such as 'append a 60 A 10.0.0.1'",
    );
    let zone = option(alloc, "zone", "NAME", "The zone of the update");
    let updated = with_arg(command, requiring(update, "zone"));
    with_arg(updated, requiring(zone, "update"))
}

/// Adds the options of the key that signs an update.
fn with_key<'a>(
    alloc: Global,
    command: Result<Command<'a>, AllocError>,
) -> Result<Command<'a>, AllocError>
    ensures { (app : App) → Makes app command.entry → Makes (with_rules app key_rules) result }
{
    let key = option(
        alloc,
        "key",
        "FILE",
        "Sign the update with a key of this file, in BIND's syntax, and accept only a reply that is signed with it",
    );
    let name = option(
        alloc,
        "key-name",
        "NAME",
        "The name of the key; the first one of the file if it is omitted",
    );
    let signed = with_arg(command, requiring(key, "update"));
    with_arg(signed, requiring(name, "key"))
}

/// Adds the options without a value.
fn with_flags<'a>(
    alloc: Global,
    command: Result<Command<'a>, AllocError>,
) -> Result<Command<'a>, AllocError>
    ensures { (app : App) → Makes app command.entry → Makes (with_rules app flag_rules) result }
{
    let no_edns = flag(alloc, "no-edns", "Leave the OPT record out of requests");
    let no_cache = flag(alloc, "no-cache", "Ask again for what was found before");
    let trace = flag(
        alloc,
        "trace",
        "Say on standard error what is sent and received",
    );
    let over_tcp = with_arg(command, Ok(flag(alloc, "tcp", "Ask over TCP alone")));
    let in_turn = with_arg(
        over_tcp,
        Ok(flag(alloc, "rotate", "Ask the servers in turn")),
    );
    let plain = with_arg(in_turn, without_update(no_edns));
    let fresh = with_arg(plain, without_update(no_cache));
    let as_json = with_arg(
        fresh,
        Ok(flag(alloc, "json", "Print a JSON object for each lookup")),
    );
    with_arg(as_json, Ok(trace))
}

/// Returns an option that takes one value.
fn option<'a>(alloc: Global, name: &'a str, value_name: &'a str, help: &'a str) -> Arg<'a>
    ensures { IsArg (option name.entry.now) result }
{
    Arg::new(alloc, name)
        .long(name)
        .value_name(value_name)
        .action(ArgAction::Set)
        .help(help)
}

/// Returns an option that may be given several times.
fn list<'a>(alloc: Global, name: &'a str, value_name: &'a str, help: &'a str) -> Arg<'a>
    ensures { IsArg (list name.entry.now) result }
{
    option(alloc, name, value_name, help).action(ArgAction::Append)
}

/// Returns an option without a value.
fn flag<'a>(alloc: Global, name: &'a str, help: &'a str) -> Arg<'a>
    ensures { IsArg (flag name.entry.now) result }
{
    Arg::new(alloc, name)
        .long(name)
        .action(ArgAction::SetTrue)
        .value_parser(value_parser!(bool))
        .help(help)
}
