//! Why a run ended early.

ghost use Rattle.std.specs.Prelude.{◌≡◌, Some};
ghost use Rattle.stub_play.specs.PlayFault.{fault_text, link_fault, script_fault};

use dns_zone::ZoneFault;
use std::alloc::AllocError;
use std::{fmt, io};
use stub_hosts::HostsFault;
use stub_link::LinkError;
use stub_script::ScriptFault;

/// Why a run ended early.
#[derive(Debug, Drop)]
pub enum PlayFault {
    /// The text of the zone file is not a zone.
    Zone(ZoneFault),
    /// A line of the script, counted from 1, cannot be read, or its moment is out of order.
    Script(usize),
    /// The hosts file cannot be read.
    Hosts(HostsFault),
    /// The sockets cannot be opened.
    Sockets,
    /// Out of memory.
    Memory,
    /// The report could not be written.
    Write,
}

impl From<ZoneFault> for PlayFault {
    ghost use Rattle.stub_play.specs.declared.plays.fault.PlayFault.TheVariants.{Zone};

    ghost from_gives = { λ fault played. played ≡ Zone fault };

    fn from(fault: ZoneFault) -> PlayFault {
        PlayFault::Zone(fault)
    }
}

impl From<ScriptFault> for PlayFault {
    ghost from_gives = { λ fault played. played ≡ script_fault fault };

    fn from(fault: ScriptFault) -> PlayFault {
        match fault {
            ScriptFault::Line(line) => PlayFault::Script(line),
            ScriptFault::Memory => PlayFault::Memory,
        }
    }
}

impl From<HostsFault> for PlayFault {
    ghost use Rattle.stub_play.specs.declared.plays.fault.PlayFault.TheVariants.{Hosts};

    ghost from_gives = { λ fault played. played ≡ Hosts fault };

    fn from(fault: HostsFault) -> PlayFault {
        PlayFault::Hosts(fault)
    }
}

impl From<LinkError> for PlayFault {
    ghost from_gives = { λ error played. played ≡ link_fault error };

    fn from(error: LinkError) -> PlayFault {
        match error {
            LinkError::Failed => PlayFault::Sockets,
            LinkError::Memory => PlayFault::Memory,
        }
    }
}

impl From<AllocError> for PlayFault {
    ghost use Rattle.stub_play.specs.declared.plays.fault.PlayFault.TheVariants.{Memory};

    ghost from_gives = { λ _ played. played ≡ Memory };

    fn from(_error: AllocError) -> PlayFault {
        PlayFault::Memory
    }
}

impl From<io::Error> for PlayFault {
    ghost use Rattle.stub_play.specs.declared.plays.fault.PlayFault.TheVariants.{Write};

    ghost from_gives = { λ _ played. played ≡ Write };

    fn from(_error: io::Error) -> PlayFault {
        PlayFault::Write
    }
}

impl fmt::Display for PlayFault {
    ghost output = { λ fault. Some (fault_text fault) };

    /// Writes the line that the program ends with, as `zone: Z1 line 3`.
    fn fmt<W: fmt::Write>(&self, f: &mut fmt::Formatter<W>) -> fmt::Result {
        match self {
            PlayFault::Zone(ZoneFault::Parse(error)) => match error.line() {
                Some(line) => write!(f, "zone: Z1 line {line}"),
                None => f.write_str("zone: Z7"),
            },
            PlayFault::Zone(ZoneFault::NotInternet) => f.write_str("zone: Z2"),
            PlayFault::Zone(ZoneFault::OutsideOrigin) => f.write_str("zone: Z3"),
            PlayFault::Zone(ZoneFault::NoSoa) => f.write_str("zone: Z4"),
            PlayFault::Zone(ZoneFault::SoaElsewhere) => f.write_str("zone: Z5"),
            PlayFault::Zone(ZoneFault::DataTooLong) => f.write_str("zone: Z6"),
            PlayFault::Zone(ZoneFault::Memory) => f.write_str("zone: Z7"),
            PlayFault::Script(line) => write!(f, "script line {line}"),
            PlayFault::Hosts(HostsFault::Utf8) => f.write_str("hosts: H1"),
            PlayFault::Hosts(HostsFault::Memory) => f.write_str("hosts: H2"),
            PlayFault::Sockets => f.write_str("cannot open sockets"),
            PlayFault::Memory => f.write_str("no memory"),
            PlayFault::Write => f.write_str("cannot write"),
        }
    }
}
