//! The paths of included files.

ghost use Rattle.std.specs.Prelude.{◌≡◌, ◌≤◌, false, length, take, drop, IfOk, IsOk, option_map};
ghost use Rattle.dns_zone_file.specs.includes.Path.{folder, goes_up, included_path, is_absolute, is_up, leaves_folder, may_include};

use std::alloc::{AllocError, Global};

/// Which files a zone file may include.
#[derive(Clone, Copy, Debug, PartialEq, Eq)]
pub enum Reach {
    /// Those in the folder of the zone file, and in folders below it.
    Folder,
    /// Any file.
    Anywhere,
}

/// Returns the path of the file that `$INCLUDE` names: the name, in the folder of the zone file unless it is absolute.
///
/// It is `None` if the zone file may not include it: with [`Reach::Folder`], if the name is absolute or has a part `..`. Then no
/// memory is taken.
pub fn included_path(
    alloc: Global,
    zone_file: &[u8],
    name: &[u8],
    reach: Reach,
) -> Result<Option<Vec<u8>>, AllocError>
    ensures path { IfOk result (λ path. option_map (λ p. p.items) path
        ≡ included_path reach zone_file.now name.now) }
    ensures refused { may_include reach name.now ≡ false → IsOk result }
{
    if !may_include(reach, name) {
        return Ok(None);
    }
    if is_absolute(name) {
        return Ok(Some(Vec::from_slice(alloc, name)?));
    }
    let mut path = Vec::from_slice(alloc, &zone_file[..folder_len(zone_file)])?;
    path.extend_from_slice(name)?;
    Ok(Some(path))
}

/// Returns `true` if a zone file may include the file of a name.
fn may_include(reach: Reach, name: &[u8]) -> bool
    ensures { result ≡ may_include reach name.now }
{
    match reach {
        Reach::Folder => !leaves_folder(name),
        Reach::Anywhere => true,
    }
}

/// Returns `true` if a path is absolute.
fn is_absolute(path: &[u8]) -> bool
    ensures { result ≡ is_absolute path.now }
{
    matches!(path, [b'/', ..])
}

/// Returns `true` if a path may lead out of the folder that it begins in.
fn leaves_folder(path: &[u8]) -> bool
    ensures { result ≡ leaves_folder path.now }
{
    is_absolute(path) || is_up(path) || goes_up(path)
}

/// Returns `true` if the first part of a path is `..`.
fn is_up(path: &[u8]) -> bool
    ensures { result ≡ is_up path.now }
{
    matches!(path, [b'.', b'.'] | [b'.', b'.', b'/', ..])
}

/// Returns `true` if a part of a path after the first is `..`.
fn goes_up(path: &[u8]) -> bool
    ensures { result ≡ goes_up path.now }
{
    for place in 0..path.len() {
        if path[place] == b'/' && is_up(&path[place + 1..]) {
            return true;
        }
    }
    false
}

/// Returns the length of the folder in front of the last part of a path, with its last `/`.
fn folder_len(path: &[u8]) -> usize
    ensures within { result ≤ length path.now }
    ensures folder { take result path.now ≡ folder path.now }
{
    let mut len = path.len();
    while len > 0 && path[len - 1] != b'/' {
        len -= 1;
    }
    len
}
