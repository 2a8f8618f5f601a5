//! Zones with a journal.

use crate::zones::{milliseconds_since, read_zones, read_zones_twice, tell};
use dns_durable::recovery::{OpenError, Opened as OpenedJournal, open_journal};
use dns_durable::{CompactError, DurableServer, Progress, ReplayError, replay};
use dns_journal::files::FileStorage;
use dns_journal::format::{Link, ReadError};
use dns_journal::{Journal, Position, State, Storage, StorageError, StoredFiles};
use dns_nameserver::FormerZones;
use dns_server::Server;
use dns_zone::Zone;
use nameserver_cli::{Arguments, Ending, add_zone, refuse_includes, text_of, zone_of};
use nameserver_handlers::{Unreplaced, draw_key, replace_text};
use std::io;
use std::time::Instant;

/// The position of a journal that keeps nothing.
const START: Position = Position {
    end: 0,
    digest: [0; 32],
    key: [0; 16],
    link: Link { seal: 0, number: 0 },
    state: State::Ready,
};

/// What to do with a journal that belongs to another zone file.
const OTHER_TEXT_HELP: &str =
    "The zone file was edited after the journal was begun. To keep the updates, put the former zone file back, replace it by the zone
with its updates (--compact), remove the journal, which has no updates then, and edit the zone file. To give the updates up, remove
the journal.
";

/// What to do with a journal of the former format.
const FORMER_HELP: &str =
    "An earlier version of this program wrote the journal. To keep its updates, let that version replace the zone file by the zone
with its updates (--compact), and then remove the journal. To give the updates up, remove the journal. Nothing was changed.
";

/// Zones that were read, with their journal.
#[derive(Drop)]
pub(crate) struct Opened<'a> {
    /// The zones and the journal.
    pub(crate) server: DurableServer<FileStorage<'a>>,
    /// The same zones, as those from before the last update, if they are asked for.
    pub(crate) former: Option<FormerZones>,
}

/// Reads the zones, and the updates of their journal, if there is one; and reads them once more if those from before the last update are
/// asked for.
pub(crate) fn open<'a>(
    rt: &'a HostRuntime,
    arguments: &Arguments,
    has_former: bool,
) -> Result<Opened<'a>, Ending> {
    match (&arguments.durable.journal, arguments.files.as_slice()) {
        (Some(journal), [file, ..]) => {
            open_with_journal(rt, arguments, file.as_str(), journal.as_str(), has_former)
        }
        _ => open_without_journal(rt, arguments, has_former),
    }
}

/// Reads zones that have no journal.
fn open_without_journal<'a>(
    rt: &'a HostRuntime,
    arguments: &Arguments,
    has_former: bool,
) -> Result<Opened<'a>, Ending> {
    let (server, former) = if has_former {
        let (server, copy) = read_zones_twice(rt, arguments)?;
        (server, Some(FormerZones::new(copy, arguments.answering)))
    } else {
        (read_zones(rt, arguments)?, None)
    };
    Ok(Opened {
        server: DurableServer {
            server,
            journal: Journal {
                storage: FileStorage::without_files(rt),
                position: START,
            },
            draft: Progress::Idle,
        },
        former,
    })
}

/// Files that were read, and the storage that they are from.
struct Stored<'a> {
    storage: FileStorage<'a>,
    files: StoredFiles,
}

impl Drop for Stored<'_> {
    fn drop(self) {
        let Stored { storage, files } = self;
        drop(storage);
        drop(files);
    }
}

impl<'a> Stored<'a> {
    /// Reads a zone file and its journal.
    fn read(rt: &'a HostRuntime, file: &str, path: &str) -> Result<Stored<'a>, Ending> {
        let mut storage = FileStorage::new(rt, file, path)?;
        match storage.read(rt.alloc()) {
            Ok(files) => Ok(Stored { storage, files }),
            Err(error) => Err(storage_ending(rt, &mut storage, path, error)),
        }
    }

    /// Opens the journal of the files, and serves its updates again, by each of these servers.
    fn into_journal(
        self,
        rt: &HostRuntime,
        server: &mut Server,
        copy: &mut Option<Server>,
        path: &str,
    ) -> Result<Journal<FileStorage<'a>>, Ending> {
        let Stored { storage, files } = self;
        let mut storage = storage;
        let position = replay_journal(rt, &mut storage, &files, server, copy, path)?;
        drop(files);
        Ok(Journal { storage, position })
    }
}

/// Reads a zone and the updates of its journal.
fn open_with_journal<'a>(
    rt: &'a HostRuntime,
    arguments: &Arguments,
    file: &str,
    path: &str,
    has_former: bool,
) -> Result<Opened<'a>, Ending> {
    let stored = Stored::read(rt, file, path)?;
    let mut server = server_of(rt, arguments, file, &stored.files)?;
    let mut copy = if has_former {
        Some(quiet_server_of(rt, arguments, file, &stored.files)?)
    } else {
        None
    };
    let journal = stored.into_journal(rt, &mut server, &mut copy, path)?;
    Ok(Opened {
        server: DurableServer {
            server,
            journal,
            draft: Progress::Idle,
        },
        former: copy.map(|copy| FormerZones::new(copy, arguments.answering)),
    })
}

/// Returns a server of the zone of files that were read. Standard error has a line for it.
fn server_of(
    rt: &HostRuntime,
    arguments: &Arguments,
    file: &str,
    files: &StoredFiles,
) -> Result<Server, Ending> {
    let start = Instant::now(rt);
    let server = quiet_server_of(rt, arguments, file, files)?;
    if let [zone] = server.zones() {
        tell(rt, file, zone, milliseconds_since(rt, start));
    }
    Ok(server)
}

/// Returns a server of the zone of files that were read.
fn quiet_server_of(
    rt: &HostRuntime,
    arguments: &Arguments,
    file: &str,
    files: &StoredFiles,
) -> Result<Server, Ending> {
    let zone = stored_zone(rt, arguments, file, files)?;
    let mut server = Server::new(rt.alloc());
    add_zone(rt.alloc(), &mut server, file, zone)?;
    Ok(server)
}

/// Returns the zone of files that were read.
fn stored_zone(
    rt: &HostRuntime,
    arguments: &Arguments,
    file: &str,
    files: &StoredFiles,
) -> Result<Zone, Ending> {
    let text = text_of(rt.alloc(), file, files.text.clone()?)?;
    refuse_includes(rt.alloc(), file, text.as_str())?;
    zone_of(
        rt.alloc(),
        file,
        text.as_str(),
        &[],
        arguments.origin.as_ref(),
    )
}

/// Opens the journal of files that were read, and serves its updates again. Standard error has a line for it.
fn replay_journal(
    rt: &HostRuntime,
    storage: &mut FileStorage<'_>,
    files: &StoredFiles,
    server: &mut Server,
    copy: &mut Option<Server>,
    path: &str,
) -> Result<Position, Ending> {
    let key = drawn_key(rt, path)?;
    let OpenedJournal { updates, position } = match open_journal(storage, rt.alloc(), files, key) {
        Ok(opened) => opened,
        Err(error) => return Err(open_ending(rt, storage, path, error)),
    };
    storage.note_end(position.end);
    tell_cut(rt, storage, path);
    serve_again(rt, server, updates.as_slice(), path)?;
    if let Some(copy) = copy {
        serve_again(rt, copy, updates.as_slice(), path)?;
    }
    // A failure to write to standard error can't be reported.
    let _written = eprintln!(rt; "{path}: {} entries", updates.len());
    Ok(position)
}

/// Serves the updates of the journal at a path again.
fn serve_again(
    rt: &HostRuntime,
    server: &mut Server,
    updates: &[&[u8]],
    path: &str,
) -> Result<(), Ending> {
    match replay(server, rt.alloc(), updates) {
        Ok(()) => Ok(()),
        // Memory for an update was refused.
        Err(ReplayError::Memory) => Err(Ending::Memory),
        Err(error) => Err(Ending::Refused(format!(in rt.alloc(); "{path}: {error}\n")?)),
    }
}

/// Draws the key of the journal at a path, or says why there is none.
fn drawn_key(rt: &HostRuntime, path: &str) -> Result<[u8; 16], Ending> {
    match draw_key(rt) {
        Ok(key) => Ok(key),
        Err(error) => Err(Ending::Journal(String::from_str(rt.alloc(), path)?, error)),
    }
}

/// Says on standard error what was cut off a journal, and where it is now.
fn tell_cut(rt: &HostRuntime, storage: &mut FileStorage<'_>, path: &str) {
    if let Some(cut) = storage.take_cut() {
        // A failure to write to standard error can't be reported.
        let _written = eprintln!(rt;
            "{path}: {} bytes of an interrupted write were moved to {}",
            cut.len, cut.path
        );
    }
}

/// Says why a journal is not opened.
fn open_ending(
    rt: &HostRuntime,
    storage: &mut FileStorage<'_>,
    path: &str,
    error: OpenError,
) -> Ending {
    match error {
        // Memory for the journal was refused.
        OpenError::Memory => Ending::Memory,
        OpenError::Storage(error) => storage_ending(rt, storage, path, error),
        OpenError::OtherText => match format!(in rt.alloc(); "{path}: {error}\n{OTHER_TEXT_HELP}") {
            Ok(report) => Ending::Refused(report),
            // Memory for the report was refused.
            Err(_) => Ending::Memory,
        },
        OpenError::Journal(ReadError::Former) => {
            match format!(in rt.alloc(); "{path}: {error}\n{FORMER_HELP}") {
                Ok(report) => Ending::Refused(report),
                // Memory for the report was refused.
                Err(_) => Ending::Memory,
            }
        }
        error => match format!(in rt.alloc(); "{path}: {error}\n") {
            Ok(report) => Ending::Refused(report),
            // Memory for the report was refused.
            Err(_) => Ending::Memory,
        },
    }
}

/// Says why a storage failed.
fn storage_ending(
    rt: &HostRuntime,
    storage: &mut FileStorage<'_>,
    path: &str,
    error: StorageError,
) -> Ending {
    if error == StorageError::Memory {
        // Memory for the files was refused.
        return Ending::Memory;
    }
    let error = match storage.take_error() {
        Some(error) => error,
        None => io::Error::from(io::ErrorKind::Other),
    };
    match String::from_str(rt.alloc(), path) {
        Ok(path) => Ending::Journal(path, error),
        // Memory for the path was refused.
        Err(_) => Ending::Memory,
    }
}

/// Replaces the zone file by the zone with the updates of its journal, or says why not.
pub(crate) fn compact_and_end(
    rt: &HostRuntime,
    arguments: &Arguments,
    server: &mut DurableServer<FileStorage<'_>>,
) -> Result<(), Ending> {
    let path = match &arguments.durable.journal {
        Some(path) => path.as_str(),
        None => "",
    };
    match replace_text(rt, server) {
        Ok(()) => Ok(()),
        Err(Unreplaced::Edited(reason)) => {
            Err(Ending::Refused(format!(in rt.alloc(); "{path}: {reason}\n")?))
        }
        Err(Unreplaced::Unwritten(error)) => {
            let file = arguments.files.first().map_or("", |file| file.as_str());
            Err(Ending::Refused(format!(in rt.alloc(); "{file}.new: {error}\n")?))
        }
        // Memory for the text or for the zone was refused.
        Err(Unreplaced::Refused(CompactError::Memory)) => Err(Ending::Memory),
        Err(Unreplaced::Refused(error)) => match server.journal.storage.take_error() {
            Some(error) => Err(Ending::Journal(String::from_str(rt.alloc(), path)?, error)),
            None => Err(Ending::Refused(format!(in rt.alloc(); "{path}: {error}\n")?)),
        },
    }
}
