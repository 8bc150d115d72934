//! Saves on a host that differs from the usual one, or that others change meanwhile.
use crate::calls::{fresh_name, loads, refusal};
use bn_outside::{LoadError, Store};
use host_outside::FileStore;
use std::alloc::{AllocError, Allocator, Global};
use std::cell::Cell;
use std::fs::{Files, Metadata, OpenOptions, Permissions};
use std::io::ErrorKind;
use std::os::unix::fs::{MetadataExt, PermissionsExt, symlink};
use std::path::PathBuf;
use std::random::RandomSource;
use std::test::Fail;
use std::{fs, io};

// A host that gives no random number, has its table of limits in this file, and keeps with which permissions a new file is
// made. Before its first link it gives the name to another file.
#[derive(Drop)]
struct Hasty<'a, R> {
    rt: &'a R,
    limits: &'a str,
    mode: Cell<u32>,
    has_linked: Cell<bool>,
}

impl<'a, R> Hasty<'a, R> {
    // A host with its table of limits in this file.
    fn new(rt: &'a R, limits: &'a str) -> Hasty<'a, R> {
        Hasty {
            rt,
            limits,
            mode: Cell::new(0),
            has_linked: Cell::new(false),
        }
    }
}

impl<'a, R: Files> Files for Hasty<'a, R> {
    type File = R::File;

    type Dir = R::Dir;

    fn open_file(&self, how: &OpenOptions, path: &str) -> io::Result<R::File> {
        let is_table = path == "/proc/self/limits";
        let opened = self
            .rt
            .open_file(how, if is_table { self.limits } else { path })?;
        if how.asks_create_new() {
            self.mode.set(fs::metadata(self.rt, path)?.mode());
        }
        Ok(opened)
    }

    fn open_dir(&self, path: &str) -> io::Result<R::Dir> {
        self.rt.open_dir(path)
    }

    fn metadata(&self, path: &str) -> io::Result<Metadata> {
        self.rt.metadata(path)
    }

    fn symlink_metadata(&self, path: &str) -> io::Result<Metadata> {
        self.rt.symlink_metadata(path)
    }

    fn copy(&self, from: &str, to: &str) -> io::Result<u64> {
        self.rt.copy(from, to)
    }

    fn rename(&self, from: &str, to: &str) -> io::Result<()> {
        self.rt.rename(from, to)
    }

    fn remove_file(&self, path: &str) -> io::Result<()> {
        self.rt.remove_file(path)
    }

    fn create_dir(&self, path: &str) -> io::Result<()> {
        self.rt.create_dir(path)
    }

    fn remove_dir(&self, path: &str) -> io::Result<()> {
        self.rt.remove_dir(path)
    }

    fn remove_dir_all<B: Allocator>(&self, alloc: B, path: &str) -> io::Result<()> {
        self.rt.remove_dir_all(alloc, path)
    }

    fn read_link<B: Allocator>(&self, alloc: B, path: &str) -> io::Result<PathBuf<B>> {
        self.rt.read_link(alloc, path)
    }

    fn hard_link(&self, original: &str, link: &str) -> io::Result<()> {
        if !self.has_linked.replace(true) {
            fs::write(self.rt, link, b"other")?;
        }
        self.rt.hard_link(original, link)
    }
}

impl<'a, R> RandomSource for Hasty<'a, R> {
    fn fill_bytes(&self, _bytes: &mut [u8]) -> io::Result<()> {
        Err(io::Error::from(ErrorKind::Unsupported))
    }
}

// Makes a file that others may read, a link to it, and a link that has the name of the first new file without a random
// number.
fn make_hostile<R: Files + AllocGlobal>(rt: &R, folder: &str) -> io::Result<()> {
    let alloc = rt.alloc();
    let file = format!(in alloc; "{folder}/FILE")?;
    let soft = format!(in alloc; "{folder}/soft")?;
    let fresh = format!(in alloc; "{folder}/.zelkuma-save-0000000000000000")?;
    fs::create_dir(rt, folder)?;
    fs::write(rt, file.as_str(), b"old")?;
    fs::set_permissions(rt, file.as_str(), Permissions::from_mode(0o644))?;
    symlink(rt, "FILE", soft.as_str())?;
    symlink(rt, "VICTIM", fresh.as_str())
}

// Whether a name is a link.
fn is_link<R: Files>(rt: &R, name: &str) -> bool {
    fs::symlink_metadata(rt, name).is_ok_and(|there| there.is_symlink())
}

// What others may do with a file.
fn mode_of<R: Files>(rt: &R, name: &str) -> u32 {
    match fs::metadata(rt, name) {
        Ok(there) => there.mode() & 0o7777,
        Err(_) => 0,
    }
}

// With which permissions a save made a new file, if it was done.
fn saved_by<R: Files>(rt: &R, alloc: Global, name: &str) -> u32 {
    let host = (Hasty::new(rt, ""), alloc);
    let mut files = FileStore::new(&host);
    if files.save(name, b"new") == Ok(()) {
        host.0.mode.get() & 0o7777
    } else {
        0
    }
}

// Whether a save through a link keeps the link, gives its file the bytes, keeps what others may do with it, gives them
// nothing before, and touches no other file.
fn replaced_alone<R: Files + RandomSource + AllocGlobal>(
    rt: &R,
    folder: &str,
) -> Result<[bool; 6], AllocError> {
    let alloc = rt.alloc();
    let file = format!(in alloc; "{folder}/FILE")?;
    let soft = format!(in alloc; "{folder}/soft")?;
    let victim = format!(in alloc; "{folder}/VICTIM")?;
    let left = format!(in alloc; "{folder}/.zelkuma-save-0000000000000001")?;
    let made = saved_by(rt, alloc, soft.as_str());
    let mut files = FileStore::new(rt);
    Ok([
        made == 0o600,
        is_link(rt, soft.as_str()),
        loads(alloc, &mut files, file.as_str(), 3, b"new"),
        mode_of(rt, file.as_str()) == 0o644,
        refusal(alloc, &mut files, victim.as_str(), 3) == Some(LoadError::Missing),
        refusal(alloc, &mut files, left.as_str(), 3) == Some(LoadError::Missing),
    ])
}

// Whether a name that another file takes meanwhile is saved all the same, as one that was there.
fn taken_meanwhile<R: Files + RandomSource + AllocGlobal>(
    rt: &R,
    folder: &str,
) -> Result<[bool; 2], AllocError> {
    let alloc = rt.alloc();
    let first = format!(in alloc; "{folder}/FIRST")?;
    let made = saved_by(rt, alloc, first.as_str());
    let mut files = FileStore::new(rt);
    Ok([
        made == 0o600,
        loads(alloc, &mut files, first.as_str(), 3, b"new"),
    ])
}

#[test]
fn a_save_replaces_the_bytes_alone(rt: HostRuntime) -> Result<(), Fail> {
    let folder = fresh_name(&rt, "hostile")?;
    make_hostile(&rt, folder.as_str())?;
    let told = replaced_alone(&rt, folder.as_str())?;
    let taken = taken_meanwhile(&rt, folder.as_str())?;
    fs::remove_dir_all(&rt, folder.as_str())?;
    assert_eq!(rt; told, [true; 6]);
    assert_eq!(rt; taken, [true; 2]);
    Ok(())
}

// Whether four bytes are saved on a host with this table of limits.
fn are_four_saved<R: Files + RandomSource + AllocGlobal>(
    rt: &R,
    folder: &str,
    table: &str,
) -> io::Result<bool> {
    let alloc = rt.alloc();
    let name = format!(in alloc; "{folder}/FILE")?;
    let limits = format!(in alloc; "{folder}/limits")?;
    fs::write(rt, limits.as_str(), table.as_bytes())?;
    let host = (Hasty::new(rt, limits.as_str()), alloc);
    Ok(FileStore::new(&host).save(name.as_str(), b"text") == Ok(()))
}

// Whether they are saved at a soft limit of four bytes, at one of three, at none, without a number and without a line.
fn saved_at_limits<R: Files + RandomSource + AllocGlobal>(
    rt: &R,
    folder: &str,
) -> io::Result<[bool; 5]> {
    let table = "Limit             Soft Limit   Hard Limit   Units\n\
        Max cpu time      7            unlimited    seconds\n\
        Max file size     4            unlimited    bytes\n";
    Ok([
        are_four_saved(rt, folder, table)?,
        are_four_saved(
            rt,
            folder,
            "Max file size     3            unlimited    bytes",
        )?,
        are_four_saved(
            rt,
            folder,
            "Max file size     unlimited    unlimited    bytes",
        )?,
        are_four_saved(rt, folder, "Max file size ")?,
        are_four_saved(rt, folder, "")?,
    ])
}

#[test]
fn a_save_keeps_to_the_systems_limit(rt: HostRuntime) -> Result<(), Fail> {
    let folder = fresh_name(&rt, "limits")?;
    fs::create_dir(&rt, folder.as_str())?;
    let saved = saved_at_limits(&rt, folder.as_str())?;
    fs::remove_dir_all(&rt, folder.as_str())?;
    assert_eq!(rt; saved, [true, false, true, true, true]);
    Ok(())
}
