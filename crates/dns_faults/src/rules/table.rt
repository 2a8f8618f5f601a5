//! Tables of rules, and the rule that decides.

ghost use Rattle.std.specs.Prelude.{◌≡◌, ◌==◌, ◌<◌, [], ◌∷◌, ◌++◌, IfSome, OnOk, OnErr, length, option_map, slice_get, slice_set};
ghost use Rattle.std.specs.List.{find, position};
ghost use Rattle.dns_faults.specs.rules.Table.{applies, counted, decision_of, fresh, has_uses_left, with_count};

use crate::rules::fault::{Fault, Transport};
use crate::rules::rule::Rule;
use dns_names::Name;
use dns_wire::codes::RecordType;
use std::alloc::{AllocError, Global};
use std::marker::Model;

/// A rule, and how often it has decided.
#[derive(Drop)]
pub struct CountedRule {
    /// The rule.
    pub rule: Rule,
    /// How often it has decided. The count stops at 2^64 - 1.
    pub count: u64,
}

/// What a table decided.
#[derive(Clone, Copy, Debug, PartialEq, Eq)]
pub struct Decision {
    /// The actions that apply on the transport, at least one.
    pub fault: Fault,
    /// The line of the rule in the text of the table, from 1.
    pub line: usize,
}

/// A table of rules, in order.
#[derive(Drop)]
pub struct FaultTable {
    rules: Vec<CountedRule>,
}

impl Model for FaultTable {
    ghost use Rattle.std.specs.Prelude.{List};
    ghost use Rattle.dns_faults.specs.declared.rules.table.CountedRule.{CountedRule};

    ghost Value = { List CountedRule };

    ghost view = { λ table. table.rules.items };
}

impl CountedRule {
    /// Returns `true` if the rule applies to a question on a transport: if it matches the question, one of its actions applies
    /// on the transport, and it is not used up.
    pub fn applies(&self, name: &Name, record_type: RecordType, transport: Transport) -> bool
        ensures { result ≡ applies name.now record_type transport self.now }
    {
        self.has_uses_left()
            && self.rule.types.matches(record_type)
            && self.rule.fault.on_transport(transport).has_action()
            && self.rule.names.matches(name)
    }

    /// Returns `true` if the rule is not used up.
    pub fn has_uses_left(&self) -> bool
        ensures { result ≡ has_uses_left self.now }
    {
        match self.rule.times {
            Some(times) => self.count < u64::from(times),
            None => true,
        }
    }

    /// Returns what the rule decides on a transport.
    fn decision(&self, transport: Transport) -> Decision
        ensures { result ≡ decision_of transport self.now }
    {
        Decision {
            fault: self.rule.fault.on_transport(transport),
            line: self.rule.line,
        }
    }
}

impl FaultTable {
    /// Creates a table without rules. No memory is taken.
    pub fn new(alloc: Global) -> FaultTable
        ensures { result ≡ [] }
    {
        FaultTable {
            rules: Vec::new(alloc),
        }
    }

    /// Appends a rule, which has not decided yet. An error leaves the table unchanged.
    pub fn push(&mut self, rule: Rule) -> Result<(), AllocError>
        ensures ok { OnOk result (self.new ≡ self.old ++ fresh rule ∷ []) }
        ensures err { OnErr result (self.new ≡ self.old) }
    {
        self.rules.push(CountedRule { rule, count: 0 })?;
        Ok(())
    }

    /// Returns the rules with their counts, in order.
    pub fn rules(&self) -> &[CountedRule]
        ensures { result.now ≡ self.now }
    {
        self.rules.as_slice()
    }

    /// Returns `true` if there are no rules.
    pub fn is_empty(&self) -> bool
        ensures { result ≡ (length self.now == 0) }
    {
        self.rules.is_empty()
    }

    /// Returns the place of the rule that decides for a question on a transport: the first that applies.
    fn deciding_rule(
        &self,
        name: &Name,
        record_type: RecordType,
        transport: Transport,
    ) -> Option<usize>
        ensures place { result ≡ position (applies name.now record_type transport) self.now }
    {
        self.rules
            .iter()
            .position(|counted| counted.applies(name, record_type, transport))
    }

    /// Returns what the table decides for a question on a transport, or `None` if no rule applies. Nothing is counted.
    pub fn decision(
        &self,
        name: &Name,
        record_type: RecordType,
        transport: Transport,
    ) -> Option<Decision>
        ensures { result ≡ option_map (decision_of transport)
            (find (applies name.now record_type transport) self.now) }
    {
        let deciding = self
            .rules
            .iter()
            .find(|counted| counted.applies(name, record_type, transport))?;
        Some(deciding.decision(transport))
    }

    /// Decides what goes wrong with the reply to a question on a transport, or `None` if no rule applies.
    ///
    /// The first rule that applies decides, and its count rises by one. The others stay as they are.
    pub fn decide(
        &mut self,
        name: &Name,
        record_type: RecordType,
        transport: Transport,
    ) -> Option<Decision>
        ensures decision { result ≡ option_map (decision_of transport)
            (find (applies name.now record_type transport) self.old) }
        ensures counts { self.new ≡ counted (applies name.now record_type transport) self.old }
    {
        match self.deciding_rule(name, record_type, transport) {
            Some(place) => Some(self.decide_by(place, transport)),
            None => None,
        }
    }

    /// Returns what the rule at a place decides on a transport, and counts it.
    fn decide_by(&mut self, place: usize, transport: Transport) -> Decision
        requires { place < length self.old }
        ensures decision { IfSome (slice_get self.old place)
            (λ r. result ≡ decision_of transport r) }
        ensures counts { IfSome (slice_get self.old place)
            (λ r. self.new ≡ slice_set self.old place (with_count r)) }
    {
        let counted = &mut self.rules[place];
        counted.count = counted.count.saturating_add(1);
        counted.decision(transport)
    }
}
