//! Gives a name new bytes.
//!
//! They are written to a new file in the same folder, which then takes the name in one step. So a save that fails, and
//! one whose process or machine ends, leaves the old file whole. If that would change more than the bytes, the file is
//! written in place. So it is if the file isn't regular, has further hard links, belongs to another user or group, or is
//! mounted from elsewhere, or if the folder takes no new file.
ghost use Rattle.std.specs.Prelude.{◌≡◌, ◌↔◌, IfOk, OnOk, OnSome, IsFalse, IsTrue, string_bytes};
ghost use Rattle.std.specs.List.{Contains};
ghost use Rattle.std.specs.Io.KnownBytes.{Appends};
ghost use Rattle.host_outside.specs.Answers.{WroteIf, WroteSome};
ghost use Rattle.host_outside.specs.Kinds.{IsMissing, IsRegular};
ghost use Rattle.host_outside.specs.Changes.{EmptiedIf, NamedIf};
ghost use Rattle.host_outside.specs.declared.spared_files.FileId.{FileId as AnyFile};

use crate::file_changer::FileChanger;
use crate::opened::{Opened, identified, make_new, new_options};
use crate::spared_files::{FileId, SparedFiles, id_of};
use bn_outside::SaveError;
use std::alloc::{AllocError, Global};
use std::fs::{Files, Metadata, OpenFile};
use std::io::{ErrorKind, Write};
use std::os::unix::fs::MetadataExt;
use std::random::RandomSource;
use std::{fs, io};

// So many names are tried for a new file. Each has a number that nobody can guess. But if the system gives none, an ended
// process may have left some.
const MOST_NAMES: u64 = 1_000;

// Linux follows so many links.
const MOST_LINKS: u32 = 40;

// What others may do with a file that nothing had the name of: all but what the process's mask takes.
const OF_ALL: u32 = 0o666;

// What others may do with a file before it has the permissions of the one that it is to replace: nothing.
const OF_OWNER: u32 = 0o600;

/// A new file, and its name.
#[derive(Drop)]
pub struct Fresh<F> {
    opened: Opened<F>,
    name: String,
}

/// Why bytes aren't saved.
pub fn save_error(kind: ErrorKind) -> SaveError
    ensures { (result ≡ SaveError.OutOfMemory) ↔ (kind ≡ ErrorKind.OutOfMemory) }
{
    match kind {
        ErrorKind::OutOfMemory => SaveError::OutOfMemory,
        _ => SaveError::Failed,
    }
}

// A name in the folder of another one.
fn beside(alloc: Global, name: &str, last: &str) -> Result<String, AllocError> {
    match name.rsplit_once('/') {
        Some((folder, _)) => format!(in alloc; "{folder}/{last}"),
        None => last.to_string(alloc),
    }
}

// The name that a link leads to, of a name that is one.
fn next_name<R: Files>(rt: &R, alloc: Global, name: &str) -> Result<Option<String>, AllocError> {
    match fs::symlink_metadata(rt, name) {
        Ok(there) if there.is_symlink() => {}
        _ => return Ok(None),
    }
    match rt.read_link(alloc, name) {
        Ok(target) if target.as_str().starts_with('/') => Ok(Some(
            target.as_str().to_string(alloc)?,
        )),
        Ok(target) => Ok(Some(beside(alloc, name, target.as_str())?)),
        Err(error) if error.kind() == ErrorKind::OutOfMemory => Err(AllocError),
        Err(_) => Ok(None),
    }
}

/// The name at the end of a name's links, whether something is there or not.
pub fn end_of_links<R: Files>(rt: &R, alloc: Global, name: &str) -> Result<String, AllocError> {
    let mut end = name.to_string(alloc)?;
    for _ in 0..MOST_LINKS {
        match next_name(rt, alloc, end.as_str())? {
            Some(next) => end = next,
            None => return Ok(end),
        }
    }
    Ok(end)
}

// Whether a look for a file finds none.
fn is_missing(found: &io::Result<Metadata>) -> bool
    ensures { IsTrue result ↔ IsMissing found.now }
{
    match found {
        Ok(_) => false,
        Err(error) => error.kind() == ErrorKind::NotFound,
    }
}

/// Whether a name leads to nothing, and at the end of its links there isn't even a link.
// Both are asked: the links of /proc lead to files, as to a pipe, by words that are no names.
pub fn is_free(found: &io::Result<Metadata>, at_end: &io::Result<Metadata>) -> bool
    ensures { IsTrue result ↔ (IsMissing found.now × IsMissing at_end.now) }
{
    is_missing(found) && is_missing(at_end)
}

// Gives up a new file's name.
fn remove<R: Files>(rt: &R, name: &str) {
    // What can be done about a failure was done.
    let _ = fs::remove_file(rt, name);
}

// Makes a file of this name, if nothing has it.
fn make<R: Files>(rt: &R, name: String, mode: u32) -> io::Result<Fresh<R::File>> {
    let file = make_new(rt, name.as_str(), &new_options(mode))?;
    match identified(file) {
        Ok(opened) => Ok(Fresh { opened, name }),
        Err(error) => {
            remove(rt, name.as_str());
            Err(error)
        }
    }
}

// A number that nobody can guess, or this one if the system gives none.
fn number_or<R: RandomSource>(rt: &R, other: u64) -> u64 {
    let mut bytes = [0; 8];
    match rt.fill_bytes(&mut bytes) {
        Ok(()) => u64::from_le_bytes(bytes),
        Err(_) => other,
    }
}

// Makes a new file in the folder of this name.
fn make_beside<R: Files + RandomSource>(
    rt: &R,
    alloc: Global,
    name: &str,
    mode: u32,
) -> io::Result<Fresh<R::File>> {
    for tried in 0..MOST_NAMES {
        let number = number_or(rt, tried);
        let last = format!(in alloc; ".zelkuma-save-{number:016x}")?;
        match make(rt, beside(alloc, name, last.as_str())?, mode) {
            Err(error) if error.kind() == ErrorKind::AlreadyExists => {}
            made => return made,
        }
    }
    Err(io::Error::from(ErrorKind::AlreadyExists))
}

/// Makes a new file for a name that nothing has.
pub fn make_first<R: Files + RandomSource>(
    rt: &R,
    alloc: Global,
    name: &str,
) -> io::Result<Fresh<R::File>> {
    make_beside(rt, alloc, name, OF_ALL)
}

// Whether a new file is on the device of an old one, and belongs to the same user and group.
fn is_alike(new: &Metadata, old: &Metadata) -> bool {
    new.dev() == old.dev() && new.uid() == old.uid() && new.gid() == old.gid()
}

// Whether a file can be replaced by a new one: it is a regular one, with this name alone.
fn is_replaceable<R: Files, F>(rt: &R, opened: &Opened<F>, name: &str) -> bool
    ensures { IsTrue result → IsRegular opened.now.metadata }
{
    let is_alone = opened.metadata.is_file() && opened.metadata.nlink() == 1;
    match fs::symlink_metadata(rt, name) {
        Ok(there) => is_alone && id_of(&there) == opened.id,
        Err(_) => false,
    }
}

// Whether this is why a folder takes no new file, though one in it may be written to.
fn is_closed(kind: ErrorKind) -> bool {
    matches!(
        kind,
        ErrorKind::PermissionDenied | ErrorKind::ReadOnlyFilesystem
    )
}

/// Makes a new file to replace an open one, whose name this is; none if that one is to be written in place.
pub fn make_like<R: Files + RandomSource>(
    rt: &R,
    alloc: Global,
    opened: &Opened<R::File>,
    name: &str,
) -> io::Result<Option<Fresh<R::File>>>
    ensures { IfOk result (λ o. OnSome o (IsRegular opened.now.metadata)) }
{
    if !is_replaceable(rt, opened, name) {
        return Ok(None);
    }
    let fresh = match make_beside(rt, alloc, name, OF_OWNER) {
        Ok(fresh) => fresh,
        Err(error) if is_closed(error.kind()) => return Ok(None),
        Err(error) => return Err(error),
    };
    if !is_alike(&fresh.opened.metadata, &opened.metadata) {
        remove(rt, fresh.name.as_str());
        return Ok(None);
    }
    Ok(Some(fresh))
}

// Writes all bytes, and then waits until the disk has them.
fn write_durably<F: OpenFile + Write>(file: &mut F, bytes: &[u8]) -> io::Result<()>
    ensures { OnOk result (Appends (F.contents file.old) (F.contents file.new) bytes.now) }
{
    file.write_all(bytes)?;
    file.sync_all()
}

// Remembers a new file, and writes it.
fn fill<F: OpenFile + Write>(
    fresh: &mut Fresh<F>,
    bytes: &[u8],
    spared: &mut SparedFiles,
) -> Result<(), SaveError>
    ensures written { OnOk result (Appends (F.contents fresh.old.opened.file) (F.contents fresh.new.opened.file) bytes.now) }
    ensures remembered { OnOk result (Contains spared.new fresh.old.opened.id) }
    ensures name { string_bytes fresh.new.name ≡ string_bytes fresh.old.name }
    ensures kept { (id : AnyFile) → Contains spared.old id → Contains spared.new id }
{
    spared.add(fresh.opened.id)?;
    match write_durably(&mut fresh.opened.file, bytes) {
        Ok(()) => Ok(()),
        Err(error) => Err(save_error(error.kind())),
    }
}

// Gives a file a further name, unless something has that, and takes the old name away. Whether nothing had it.
// If no file here can have two names, it is renamed: what took the name since the last look is replaced then.
fn name_first<R: Files, C: FileChanger>(
    rt: &R,
    changer: &mut C,
    from: &str,
    to: &str,
) -> io::Result<bool>
    ensures { NamedIf C.note (C.noted changer.new) from.now to.now result }
{
    match changer.link(from, to) {
        Ok(()) => {
            remove(rt, from);
            Ok(true)
        }
        Err(error) if error.kind() == ErrorKind::AlreadyExists => Ok(false),
        Err(_) => {
            changer.rename(from, to)?;
            Ok(true)
        }
    }
}

// Gives a file the permissions of an old one, and then its name. Whether another file can have that: no other can if
// that one is mounted.
fn name_over<F: OpenFile, C: FileChanger>(
    changer: &mut C,
    fresh: &Fresh<F>,
    to: &str,
    old: &Metadata,
) -> io::Result<bool>
    ensures { NamedIf C.note (C.noted changer.new) (string_bytes fresh.now.name) to.now result }
{
    fresh.opened.file.set_permissions(old.permissions())?;
    match changer.rename(fresh.name.as_str(), to) {
        Ok(()) => Ok(true),
        Err(error) if error.kind() == ErrorKind::ResourceBusy => Ok(false),
        Err(error) => Err(error),
    }
}

// What became of a new file, whose old name is then gone: whether it has the other.
fn settle<R: Files>(rt: &R, name: &str, named: io::Result<bool>) -> Result<bool, SaveError>
    ensures { IfOk result (λ done. named ≡ Ok done) }
{
    match named {
        Ok(true) => Ok(true),
        Ok(false) => {
            remove(rt, name);
            Ok(false)
        }
        Err(error) => {
            remove(rt, name);
            Err(save_error(error.kind()))
        }
    }
}

/// Gives these bytes to a new file, and to that a name that nothing had. If something has it by now, nothing is done.
#[tactic(auto, using(crate::proofs::Tries::settled, crate::proofs::Tries::wrote))]
pub fn put_first<R: Files, C: FileChanger>(
    rt: &R,
    changer: &mut C,
    fresh: Fresh<R::File>,
    name: &str,
    bytes: &[u8],
    spared: &mut SparedFiles,
) -> Result<bool, SaveError>
    ensures saved { WroteIf R.File.contents bytes.now spared.new result }
    ensures named { NamedIf C.note (C.noted changer.new) (string_bytes fresh.name) name.now result }
    ensures kept { (id : AnyFile) → Contains spared.old id → Contains spared.new id }
{
    let mut fresh = fresh;
    match fill(&mut fresh, bytes, spared) {
        Ok(()) => {
            let named = name_first(rt, changer, fresh.name.as_str(), name);
            settle(rt, fresh.name.as_str(), named)
        }
        Err(error) => {
            remove(rt, fresh.name.as_str());
            Err(error)
        }
    }
}

/// Gives these bytes to a new file, and to that the name of an old one, which is then gone: so it must be none that is
/// spared. If no other file can have the name, nothing is done.
#[tactic(auto, using(crate::proofs::Tries::settled, crate::proofs::Tries::wrote))]
pub fn put_over<R: Files, C: FileChanger>(
    rt: &R,
    changer: &mut C,
    fresh: Fresh<R::File>,
    name: &str,
    old: &Opened<R::File>,
    bytes: &[u8],
    spared: &mut SparedFiles,
) -> Result<bool, SaveError>
    requires { Contains spared.old old.now.id → ⊥ }
    ensures saved { WroteIf R.File.contents bytes.now spared.new result }
    ensures named { NamedIf C.note (C.noted changer.new) (string_bytes fresh.name) name.now result }
    ensures kept { (id : AnyFile) → Contains spared.old id → Contains spared.new id }
{
    let mut fresh = fresh;
    match fill(&mut fresh, bytes, spared) {
        Ok(()) => {
            let named = name_over(changer, &fresh, name, &old.metadata);
            settle(rt, fresh.name.as_str(), named)
        }
        Err(error) => {
            remove(rt, fresh.name.as_str());
            Err(error)
        }
    }
}

// Empties a file if it is a regular one, and writes these bytes.
fn write_over<F: OpenFile + Write, C: FileChanger>(
    changer: &mut C,
    file: &mut F,
    metadata: &Metadata,
    bytes: &[u8],
) -> io::Result<()>
    ensures written { OnOk result (Appends (F.contents file.old) (F.contents file.new) bytes.now) }
    ensures emptied { EmptiedIf C.note (C.noted changer.new) metadata.now result }
{
    if metadata.is_file() {
        changer.empty(file)?;
    }
    file.write_all(bytes)
}

/// Gives an open file these bytes, in place of what it has.
pub fn overwrite<F: OpenFile + Write, C: FileChanger>(
    changer: &mut C,
    opened: &mut Opened<F>,
    bytes: &[u8],
    spared: &mut SparedFiles,
) -> Result<(), SaveError>
    requires { Contains spared.old opened.old.id → ⊥ }
    ensures written { OnOk result (Appends (F.contents opened.old.file) (F.contents opened.new.file) bytes.now) }
    ensures remembered { OnOk result (IsFalse opened.old.is_stream → Contains spared.new opened.old.id) }
    ensures saved { OnOk result (WroteSome F.contents bytes.now spared.new) }
    ensures emptied { EmptiedIf C.note (C.noted changer.new) opened.old.metadata result }
    ensures kept { (id : AnyFile) → Contains spared.old id → Contains spared.new id }
{
    opened.remember(spared)?;
    match write_over(changer, &mut opened.file, &opened.metadata, bytes) {
        Ok(()) => Ok(()),
        Err(error) => Err(save_error(error.kind())),
    }
}
