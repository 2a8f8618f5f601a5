//! Events: what happens in a run, and when.

ghost use Rattle.std.specs.Prelude.{◌≡◌, IfSome};
ghost use Rattle.std.specs.Option.{option_copied};
ghost use Rattle.stub_link.specs.Request.{IsUpdate};
ghost use Rattle.stub_run.specs.Questions.{IsAskable};

use dns_messages::Message;
use dns_names::Name;
use dns_wire::RecordType;
use stub_link::{Script, UpdateEvent};
use stub_lookup::Moment;

/// Something that happens in a run at a moment, while the link follows a script.
pub struct Event {
    /// When the event happens, in seconds.
    pub at: Moment,
    /// What the link does during the event.
    pub script: Script,
    /// What happens.
    pub action: Action,
}

impl Drop for Event {
    fn drop(self) {
        let Event {
            at: _at,
            script,
            action,
        } = self;
        drop(script);
        drop(action);
    }
}

/// What happens in an event.
pub enum Action {
    /// A lookup of records of a type for a name.
    Lookup { name: Name, rtype: RecordType },
    /// A lookup of the addresses of a host: a literal address or a name.
    LookupIp { host: String },
    /// Removal from the cache of what a lookup of records of a type for a name asks for.
    Clear { name: Name, rtype: RecordType },
    /// Removal of all entries of the cache.
    ClearAll,
    /// An update of the zone, sent under its own id (RFC 2136 section 2).
    Update(Box<UpdateEvent>),
}

impl Drop for Action {
    fn drop(self) {
        match self {
            Action::Lookup { name, rtype: _ } | Action::Clear { name, rtype: _ } => drop(name),
            Action::LookupIp { host } => drop(host),
            Action::ClearAll => {}
            Action::Update(update) => drop(update),
        }
    }
}

impl Action {
    ghost use Rattle.stub_run.specs.Event.{update_of};

    /// Tells the prover that a name that is looked up has at most 255 bytes, and its type 16 bits.
    pub(crate) fn know_name(&self)
        ensures { IsAskable self.now }
    {
        match self {
            Action::Lookup { name, rtype } => {
                let _length = name.encoded_len();
                let _number = u16::from(*rtype);
            }
            Action::LookupIp { .. } | Action::Clear { .. } | Action::ClearAll | Action::Update(_) =>
                {}
        }
    }

    /// Returns the message of an update, or `None` if the action is not one.
    pub fn update(&self) -> Option<&Message>
        ensures message { option_copied result ≡ update_of self.now }
        ensures sound { IfSome (update_of self.now) IsUpdate }
    {
        match self {
            Action::Update(update) => Some(update.message()),
            Action::Lookup { .. }
            | Action::LookupIp { .. }
            | Action::Clear { .. }
            | Action::ClearAll => None,
        }
    }
}
