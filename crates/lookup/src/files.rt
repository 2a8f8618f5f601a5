//! The files that the program reads.

use dns_keys::is_exposed;
use dns_tsig::Key;
use lookup_cli::{Arguments, Ending, KeyArguments, default_conf_path, key_of};
use std::fs::File;
use std::io::Read;
use std::os::unix::fs::PermissionsExt;
use std::{fs, io};
use stub_hosts::{Hosts, HostsFault};

/// The path of the hosts file, if the arguments name none.
const SYSTEM_HOSTS: &str = "/etc/hosts";

/// Reads the configuration. Without a path, or if there is no file at the system's path, it is empty.
pub(crate) fn read_conf(rt: &HostRuntime, arguments: &Arguments) -> Result<Vec<u8>, Ending> {
    if let Some(path) = &arguments.resolv_conf {
        return read_file(rt, path.as_str());
    }
    match default_conf_path(arguments) {
        Some(path) => read_if_there(rt, path),
        None => Ok(Vec::new(rt.alloc())),
    }
}

/// Reads the hosts file. If there is none, there are no hosts.
pub(crate) fn read_hosts(rt: &HostRuntime, path: Option<&String>) -> Result<Hosts, Ending> {
    let path = path.map_or(SYSTEM_HOSTS, |path| path.as_str());
    let text = read_if_there(rt, path)?;
    let mut hosts = Hosts::default(rt.alloc());
    match hosts.read_hosts_conf(text.as_slice(), 0) {
        Ok(()) => Ok(hosts),
        Err(HostsFault::Utf8) => Err(Ending::HostsNotUtf8(String::from_str(rt.alloc(), path)?)),
        // Memory for the hosts was refused.
        Err(HostsFault::Memory) => Err(Ending::Memory),
    }
}

/// Reads the hosts file if events are told, which say what is answered from it.
pub(crate) fn read_traced_hosts(rt: &HostRuntime, arguments: &Arguments) -> Result<Hosts, Ending> {
    if arguments.trace {
        read_hosts(rt, arguments.hosts.as_ref())
    } else {
        Ok(Hosts::default(rt.alloc()))
    }
}

/// Reads the key of the arguments. If other users may read or write its file, a line on standard error says so.
pub(crate) fn read_key(rt: &HostRuntime, arguments: &KeyArguments) -> Result<Key, Ending> {
    let path = arguments.path.as_str();
    match read_secrets(rt, path) {
        Ok(Secrets { text, mode }) => {
            if is_exposed(mode) {
                // A failure to write to standard error can't be reported.
                let _written = eprintln!(rt;
                    "lookup: {path}: other users may read or write the key file"
                );
            }
            key_of(rt.alloc(), path, text.as_slice(), arguments.name.as_ref())
        }
        Err(error) => Err(Ending::cannot_read(rt.alloc(), path, error)),
    }
}

/// The text of a file, and its mode.
#[derive(Drop)]
struct Secrets {
    text: Vec<u8>,
    mode: u32,
}

/// Reads a file and its mode.
fn read_secrets(rt: &HostRuntime, path: &str) -> io::Result<Secrets> {
    let mut file = File::open(rt, path)?;
    let mode = file.metadata()?.permissions().mode();
    let mut text = Vec::new(rt.alloc());
    file.read_to_end(&mut text)?;
    Ok(Secrets { text, mode })
}

/// Reads a file.
fn read_file(rt: &HostRuntime, path: &str) -> Result<Vec<u8>, Ending> {
    match fs::read(rt, path) {
        Ok(bytes) => Ok(bytes),
        Err(error) => Err(Ending::cannot_read(rt.alloc(), path, error)),
    }
}

/// Reads a file, which is empty if there is none.
fn read_if_there(rt: &HostRuntime, path: &str) -> Result<Vec<u8>, Ending> {
    match fs::read(rt, path) {
        Ok(bytes) => Ok(bytes),
        Err(error) if error.kind() == io::ErrorKind::NotFound => Ok(Vec::new(rt.alloc())),
        Err(error) => Err(Ending::cannot_read(rt.alloc(), path, error)),
    }
}
