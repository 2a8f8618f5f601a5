//! Rules: which questions they match, what goes wrong, and how often.

ghost use Rattle.std.specs.Prelude.{◌≡◌};
ghost use Rattle.dns_faults.specs.rules.Rule.{matches_name, matches_type};

use crate::rules::fault::Fault;
use dns_names::Name;
use dns_wire::codes::RecordType;

/// The names that a rule matches, ignoring ASCII case.
#[derive(Drop)]
pub enum NamePattern {
    /// Any name, the root included.
    Any,
    /// This name.
    Exactly(Name),
    /// Any name below this name, which is at least one label longer.
    Below(Name),
}

/// The types that a rule matches.
#[derive(Clone, Copy, Debug, PartialEq, Eq)]
pub enum TypePattern {
    /// Any type.
    Any,
    /// This type.
    Exactly(RecordType),
}

/// A rule of a table of faults.
#[derive(Drop)]
pub struct Rule {
    /// The line of the rule in the text of the table, from 1.
    pub line: usize,
    /// The names of the questions that the rule matches. An update has the name of its zone.
    pub names: NamePattern,
    /// The types of the questions that the rule matches. An update has the type SOA.
    pub types: TypePattern,
    /// The actions.
    pub fault: Fault,
    /// How often the rule decides, or `None` if it always does.
    pub times: Option<u32>,
}

impl NamePattern {
    /// Returns `true` if a name matches.
    pub fn matches(&self, name: &Name) -> bool
        ensures { result ≡ matches_name self.now name.now }
    {
        match self {
            NamePattern::Any => true,
            NamePattern::Exactly(own) => own.eq_ignore_root(name),
            NamePattern::Below(own) => own.iter().len() < name.iter().len() && own.zone_of(name),
        }
    }
}

impl TypePattern {
    /// Returns `true` if a type matches.
    pub fn matches(&self, record_type: RecordType) -> bool
        ensures { result ≡ matches_type self.now record_type }
    {
        match self {
            TypePattern::Any => true,
            TypePattern::Exactly(own) => *own == record_type,
        }
    }
}
