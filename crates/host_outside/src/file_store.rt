//! The files of the system as a store.
ghost use Rattle.std.specs.Prelude.{◌≡◌, ◌≤◌, ◌↔◌, ⊤, None, Ok, Err, IfOk, IsFalse, OnOk, vec_len};
ghost use Rattle.std.specs.List.{Contains};
ghost use Rattle.bn_outside.specs.Counts.{counted, NoneFell, LoadCause, SaveCause};
ghost use Rattle.host_outside.specs.Answers.{AnswersSomeTry, AnswersTry, FileTells, OpensToLoad, WroteIf, WroteSome};
ghost use Rattle.host_outside.specs.Kinds.{IsMissing, RanOutOfMemory};
ghost use Rattle.host_outside.specs.Changes.{EmptiedIf, GotNameIf};
ghost use Rattle.host_outside.specs.declared.spared_files.FileId.{FileId as AnyFile};

use crate::file_changer::{FileChanger, HostChanger};
use crate::limits::most_bytes;
use crate::opened::{Opened, open_to_read, open_to_write, save_options};
use crate::replacing::{
    end_of_links, is_free, make_first, make_like, overwrite, put_first, put_over, save_error,
};
use crate::spared_files::SparedFiles;
use crate::streams::ReaderSource;
use bn_outside::{LoadError, ReadError, SaveError, Store, read_to_end};
use std::alloc::Global;
use std::fs::{Files, Metadata, OpenFile};
use std::io::{ErrorKind, Read, Write};
use std::random::RandomSource;
use std::{fs, io};

/// The files of the system. A name is a path.
///
/// What the files hold is told by no clause, since others may change them at any moment. A save never replaces what
/// was loaded or saved through the same store, by whatever name: such a save fails, and the file stays as it is.
#[derive(Drop)]
pub struct FileStore<'a, R: Files> {
    rt: &'a R,
    alloc: Global,
    // What was loaded or saved, which no save may replace.
    spared: SparedFiles,
    // How many loads found no such name, found too many bytes, and how many calls failed.
    misses: u64,
    longs: u64,
    faults: u64,
    // How many saves there were, those that failed too.
    saves: u64,
}

impl<'a, R: Files + AllocGlobal> FileStore<'a, R> {
    /// The files of a host, with nothing loaded, saved or counted.
    pub fn new(rt: &'a R) -> Self
        ensures misses { result.misses ≡ 0 }
        ensures longs { result.longs ≡ 0 }
        ensures faults { result.faults ≡ 0 }
        ensures saves { result.saves ≡ 0 }
    {
        FileStore {
            rt,
            alloc: rt.alloc(),
            spared: SparedFiles::new(rt.alloc()),
            misses: 0,
            longs: 0,
            faults: 0,
            saves: 0,
        }
    }
}

// Why a file that can't be opened isn't loaded.
// Only a name that isn't there is missing: a file without permission is a failure, and so is a folder once it is read.
fn load_error(kind: ErrorKind) -> LoadError
    ensures missing { (result ≡ LoadError.Missing) ↔ (kind ≡ ErrorKind.NotFound) }
    ensures memory { (result ≡ LoadError.OutOfMemory) ↔ (kind ≡ ErrorKind.OutOfMemory) }
{
    match kind {
        ErrorKind::NotFound => LoadError::Missing,
        ErrorKind::OutOfMemory => LoadError::OutOfMemory,
        _ => LoadError::Failed,
    }
}

// Remembers a file that was opened to be loaded.
fn open_to_load<F: Drop>(
    tried: io::Result<Opened<F>>,
    spared: &mut SparedFiles,
) -> Result<Opened<F>, LoadError>
    ensures told { OpensToLoad spared.new tried result }
    ensures kept { (id : AnyFile) → Contains spared.old id → Contains spared.new id }
{
    match tried {
        Ok(opened) => match opened.remember(spared) {
            Ok(()) => Ok(opened),
            Err(_) => Err(LoadError::OutOfMemory),
        },
        Err(error) => Err(load_error(error.kind())),
    }
}

// The bytes of an open file, if they are at most `limit`. No more than the limit and one piece is read.
fn read_file<F: Read + Drop>(
    alloc: Global,
    opened: Opened<F>,
    spared: &SparedFiles,
    limit: usize,
) -> Result<Vec<u8>, LoadError>
    requires { IsFalse opened.is_stream → Contains spared.now opened.id }
    ensures bound { IfOk result (λ bytes. vec_len bytes ≤ limit) }
    ensures told { FileTells (F.remaining opened.file) limit result }
{
    let Opened { file, metadata, .. } = opened;
    let size = usize::try_from(metadata.len()).unwrap_or(0);
    match read_to_end(alloc, &mut ReaderSource::new(file), size, limit) {
        Ok(bytes) => Ok(bytes),
        Err(ReadError::TooLong) => Err(LoadError::TooLong),
        Err(ReadError::Failed) => Err(LoadError::Failed),
        Err(ReadError::OutOfMemory) => Err(LoadError::OutOfMemory),
    }
}

// Loads what a try to open a file gave, and remembers the file.
fn load_opened<F: Read + Drop>(
    alloc: Global,
    tried: io::Result<Opened<F>>,
    limit: usize,
    spared: &mut SparedFiles,
) -> Result<Vec<u8>, LoadError>
    ensures bound { IfOk result (λ bytes. vec_len bytes ≤ limit) }
    ensures told { AnswersTry F.remaining limit spared.new tried result }
    ensures kept { (id : AnyFile) → Contains spared.old id → Contains spared.new id }
{
    match open_to_load(tried, spared) {
        Ok(opened) => read_file(alloc, opened, spared, limit),
        Err(error) => Err(error),
    }
}

// Loads a file, and remembers it.
fn load_file<R: Files>(
    rt: &R,
    alloc: Global,
    name: &str,
    limit: usize,
    spared: &mut SparedFiles,
) -> Result<Vec<u8>, LoadError>
    ensures bound { IfOk result (λ bytes. vec_len bytes ≤ limit) }
    ensures told { AnswersSomeTry R.File.remaining limit spared.new result }
    ensures kept { (id : AnyFile) → Contains spared.old id → Contains spared.new id }
{
    load_opened(alloc, open_to_read(rt, name), limit, spared)
}

// Whether the system lets this process make a file so long. A write past its limit would end the process by a
// signal that nothing here can ignore, so none is begun. If something else than a file has the name, there is no
// limit.
fn has_room<R: Files>(rt: &R, name: &str, length: usize) -> bool {
    if length as u64 <= most_bytes(rt) {
        return true;
    }
    match fs::metadata(rt, name) {
        Ok(metadata) => !metadata.is_file(),
        Err(_) => false,
    }
}

// A file that was opened to be saved, unless it is one that was loaded or saved.
fn open_to_save<F: Drop>(
    tried: io::Result<Opened<F>>,
    spared: &SparedFiles,
) -> Result<Opened<F>, SaveError>
    ensures spared { IfOk result (λ o. Contains spared.now o.id → ⊥) }
    ensures memory { (result ≡ Err SaveError.OutOfMemory) ↔ RanOutOfMemory tried }
    ensures others { IfOk tried (λ o. (Contains spared.now o.id → ⊥) → result ≡ Ok o) }
{
    match tried {
        Ok(opened) => {
            if spared.has(opened.id) {
                return Err(SaveError::Failed);
            }
            Ok(opened)
        }
        Err(error) => Err(save_error(error.kind())),
    }
}

// Saves a file under a name that none has, as two looks for one told. Whether none had it until the save.
#[tactic(auto, using(crate::proofs::Tries::got_name))]
fn save_first<R: Files + RandomSource, C: FileChanger>(
    rt: &R,
    changer: &mut C,
    alloc: Global,
    name: &str,
    found: &io::Result<Metadata>,
    at_end: &io::Result<Metadata>,
    bytes: &[u8],
    spared: &mut SparedFiles,
) -> Result<bool, SaveError>
    requires { IsMissing found.now × IsMissing at_end.now }
    ensures saved { WroteIf R.File.contents bytes.now spared.new result }
    ensures named { GotNameIf C.note (C.noted changer.new) name.now result }
    ensures kept { (id : AnyFile) → Contains spared.old id → Contains spared.new id }
{
    match make_first(rt, alloc, name) {
        Ok(fresh) => put_first(rt, changer, fresh, name, bytes, spared),
        Err(error) => Err(save_error(error.kind())),
    }
}

// Saves an open file in place of what it has, unless it is one that was loaded or saved.
fn save_in_place<F: OpenFile + Write + Drop, C: FileChanger>(
    changer: &mut C,
    mut opened: Opened<F>,
    bytes: &[u8],
    spared: &mut SparedFiles,
) -> Result<(), SaveError>
    ensures saved { OnOk result (WroteSome F.contents bytes.now spared.new) }
    ensures emptied { EmptiedIf C.note (C.noted changer.new) opened.metadata result }
    ensures kept { (id : AnyFile) → Contains spared.old id → Contains spared.new id }
{
    if spared.has(opened.id) {
        return Err(SaveError::Failed);
    }
    overwrite(changer, &mut opened, bytes, spared)
}

// Saves a file that is there, and open. The name is its own, and no link.
fn save_over<R: Files + RandomSource, C: FileChanger>(
    rt: &R,
    changer: &mut C,
    alloc: Global,
    opened: Opened<R::File>,
    name: &str,
    bytes: &[u8],
    spared: &mut SparedFiles,
) -> Result<(), SaveError>
    requires { Contains spared.old opened.id → ⊥ }
    ensures saved { OnOk result (WroteSome R.File.contents bytes.now spared.new) }
    ensures kept { (id : AnyFile) → Contains spared.old id → Contains spared.new id }
{
    match make_like(rt, alloc, &opened, name) {
        Ok(Some(fresh)) => match put_over(rt, changer, fresh, name, &opened, bytes, spared) {
            Ok(true) => Ok(()),
            Ok(false) => save_in_place(changer, opened, bytes, spared),
            Err(error) => Err(error),
        },
        Ok(None) => save_in_place(changer, opened, bytes, spared),
        Err(error) => Err(save_error(error.kind())),
    }
}

// Saves a file, unless the name was free and then was not. Whether it is saved.
fn try_to_save<R: Files + RandomSource, C: FileChanger>(
    rt: &R,
    changer: &mut C,
    alloc: Global,
    name: &str,
    bytes: &[u8],
    spared: &mut SparedFiles,
) -> Result<bool, SaveError>
    ensures saved { WroteIf R.File.contents bytes.now spared.new result }
    ensures kept { (id : AnyFile) → Contains spared.old id → Contains spared.new id }
{
    let end = end_of_links(rt, alloc, name)?;
    let found = fs::metadata(rt, name);
    let at_end = fs::symlink_metadata(rt, end.as_str());
    if is_free(&found, &at_end) {
        return save_first(
            rt,
            changer,
            alloc,
            end.as_str(),
            &found,
            &at_end,
            bytes,
            spared,
        );
    }
    let opened = open_to_save(open_to_write(rt, name, &save_options()), spared)?;
    save_over(rt, changer, alloc, opened, end.as_str(), bytes, spared)?;
    Ok(true)
}

// Saves a file. A name that was taken meanwhile is looked for once more.
fn save_file<R: Files + RandomSource, C: FileChanger>(
    rt: &R,
    changer: &mut C,
    alloc: Global,
    name: &str,
    bytes: &[u8],
    spared: &mut SparedFiles,
) -> Result<(), SaveError>
    ensures saved { OnOk result (WroteSome R.File.contents bytes.now spared.new) }
    ensures kept { (id : AnyFile) → Contains spared.old id → Contains spared.new id }
{
    if !has_room(rt, name, bytes.len()) {
        return Err(SaveError::Failed);
    }
    if try_to_save(rt, changer, alloc, name, bytes, spared)? {
        return Ok(());
    }
    if try_to_save(rt, changer, alloc, name, bytes, spared)? {
        return Ok(());
    }
    Err(SaveError::Failed)
}

impl<'a, R: Files + RandomSource> Store for FileStore<'a, R> {
    // It notes nothing.
    ghost stored = { λ s. record {
      files = None;
      saves = s.saves;
      counts = record { misses = s.misses; longs = s.longs; faults = s.faults };
      noted = 0;
    } };

    ghost note = { λ _ _. 0 };

    fn load(&mut self, alloc: Global, name: &str, limit: usize) -> Result<Vec<u8>, LoadError>
        ensures bound { IfOk result (λ bytes. vec_len bytes ≤ limit) }
        ensures asked { self.new.saves ≡ self.old.saves }
        ensures later { NoneFell
            (record { misses = self.old.misses; longs = self.old.longs; faults = self.old.faults })
            (record { misses = self.new.misses; longs = self.new.longs; faults = self.new.faults }) }
        ensures cause { LoadCause
            (record { misses = self.old.misses; longs = self.old.longs; faults = self.old.faults })
            (record { misses = self.new.misses; longs = self.new.longs; faults = self.new.faults })
            result }

        // It answers what some try to open a file came to, and spares the file.
        ensures answers { AnswersSomeTry R.File.remaining limit self.new.spared result }
        ensures kept { (id : AnyFile) → Contains self.old.spared id → Contains self.new.spared id }
    {
        let result = load_file(self.rt, alloc, name, limit, &mut self.spared);
        match &result {
            Err(LoadError::Missing) => self.misses = self.misses.saturating_add(1),
            Err(LoadError::TooLong) => self.longs = self.longs.saturating_add(1),
            Err(LoadError::Failed) => self.faults = self.faults.saturating_add(1),
            _ => (),
        }
        result
    }

    // As no clause tells what files hold, `saved` says nothing.
    fn save(&mut self, name: &str, bytes: &[u8]) -> Result<(), SaveError>
        ensures saved { OnOk result ⊤ }
        ensures asked { self.new.saves ≡ counted self.old.saves }
        ensures later { NoneFell
            (record { misses = self.old.misses; longs = self.old.longs; faults = self.old.faults })
            (record { misses = self.new.misses; longs = self.new.longs; faults = self.new.faults }) }
        ensures cause { SaveCause
            (record { misses = self.old.misses; longs = self.old.longs; faults = self.old.faults })
            (record { misses = self.new.misses; longs = self.new.longs; faults = self.new.faults })
            result }

        // It wrote the bytes to some file, and spares that.
        ensures wrote { OnOk result (WroteSome R.File.contents bytes.now self.new.spared) }
        ensures kept { (id : AnyFile) → Contains self.old.spared id → Contains self.new.spared id }
    {
        self.saves = self.saves.saturating_add(1);
        let mut changer = HostChanger::new(self.rt);
        let spared = &mut self.spared;
        let saved = save_file(self.rt, &mut changer, self.alloc, name, bytes, spared);
        match saved {
            Err(SaveError::Failed) => {
                self.faults = self.faults.saturating_add(1);
                Err(SaveError::Failed)
            }
            other => other,
        }
    }
}
