//! What is given at the start for names that no zone has: rules of faults, and grants.

ghost use Rattle.std.specs.Prelude.{◌≡◌};
ghost use Rattle.nameserver_handlers.specs.Grants.{may_match, overlap};

use dns_faults::rules::{FaultTable, NamePattern, Rule};
use dns_names::Name;
use dns_zone::Zone;
use std::io::Eprint;

/// Says on standard error which rules of a fault table match no name of the zones: most often the name lacks that of its zone.
pub fn tell_unmatched<R: Eprint>(rt: &R, path: &str, table: &FaultTable, zones: &[Zone]) {
    for counted in table.rules() {
        let names = &counted.rule.names;
        if !zones.iter().any(|zone| may_match(names, zone.origin())) {
            tell_rule(rt, path, &counted.rule, zones);
        }
    }
}

/// Returns `true` if a pattern matches a name at or below an origin.
fn may_match(names: &NamePattern, origin: &Name) -> bool
    ensures { result ≡ may_match names.now origin.now }
{
    match names {
        NamePattern::Any => true,
        NamePattern::Exactly(name) => origin.zone_of(name),
        NamePattern::Below(above) => overlaps(above, origin),
    }
}

/// Returns `true` if a subtree and the zone of an origin have a name in common.
pub(crate) fn overlaps(subtree: &Name, origin: &Name) -> bool
    ensures { result ≡ overlap subtree.now origin.now }
{
    origin.zone_of(subtree) || subtree.zone_of(origin)
}

/// Says that a rule matches no name of the zones, and what was probably meant.
fn tell_rule<R: Eprint>(rt: &R, path: &str, rule: &Rule, zones: &[Zone]) {
    let line = rule.line;
    let (mark, name) = match &rule.names {
        NamePattern::Any => return,
        NamePattern::Exactly(name) => ("", name),
        NamePattern::Below(above) => ("*.", above),
    };
    // A failure to write to standard error can't be reported.
    let _written = match zones.first() {
        Some(zone) if !name.is_root() => eprintln!(rt;
            "{path}:{line}: no zone here has {mark}{name}: write the whole name, as {mark}{name}{}",
            zone.origin()
        ),
        _ => eprintln!(rt; "{path}:{line}: no zone here has {mark}{name}"),
    };
}
