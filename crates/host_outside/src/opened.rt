//! Open files, and what they are.
ghost use Rattle.std.specs.Prelude.{◌≡◌, ◌↔◌, IfOk, IsFalse, IsTrue, OnOk};
ghost use Rattle.std.specs.Fs.{asks_create_new, asks_truncate};
ghost use Rattle.std.specs.List.{Contains};
ghost use Rattle.host_outside.specs.declared.spared_files.FileId.{FileId as AnyFile};
ghost use Rattle.host_outside.specs.Kinds.{IsStream};

use crate::spared_files::{FileId, SparedFiles, id_of};
use std::alloc::AllocError;
use std::fs::{Files, Metadata, OpenFile, OpenOptions};
use std::os::unix::fs::{MetadataExt, OpenOptionsExt};
use std::{fs, io};

/// A file that is open, which one it is, and what its metadata said of it then.
#[derive(Drop)]
pub struct Opened<F> {
    pub file: F,
    pub id: FileId,
    pub is_stream: bool,
    pub metadata: Metadata,
}

impl<F> Opened<F> {
    /// Remembers the file, unless it is a terminal or a pipe: that keeps nothing that a save could destroy.
    pub fn remember(&self, spared: &mut SparedFiles) -> Result<(), AllocError>
        ensures remembered { OnOk result (IsFalse self.now.is_stream → Contains spared.new self.now.id) }
        ensures kept { (id : AnyFile) → Contains spared.old id → Contains spared.new id }
        ensures stream { IsTrue self.now.is_stream → spared.new ≡ spared.old }
    {
        if self.is_stream {
            return Ok(());
        }
        spared.add(self.id)
    }
}

// Whether it is a device of characters or a pipe.
fn is_stream(metadata: &Metadata) -> bool
    ensures { IsTrue result ↔ IsStream metadata.now }
{
    let kind = metadata.mode() & 0o170_000;
    kind == 0o020_000 || kind == 0o010_000
}

/// The open file itself is asked which one it is: by now its name can lead to another.
pub fn identified<F: OpenFile + Drop>(file: F) -> io::Result<Opened<F>>
    ensures { IfOk result (λ opened. IsTrue opened.is_stream ↔ IsStream opened.metadata) }
{
    let metadata = file.metadata()?;
    Ok(Opened {
        file,
        id: id_of(&metadata),
        is_stream: is_stream(&metadata),
        metadata,
    })
}

/// Opens a file that is there.
pub fn open_to_read<R: Files>(rt: &R, name: &str) -> io::Result<Opened<R::File>>
    ensures { IfOk result (λ opened. IsTrue opened.is_stream ↔ IsStream opened.metadata) }
{
    identified(fs::open(rt, name)?)
}

/// How a file is opened to be saved: it is made if it isn't there.
pub fn save_options() -> OpenOptions
    ensures { IsFalse (asks_truncate result) }
{
    let mut options = OpenOptions::new();
    options.write(true).create(true);
    options
}

/// How a new file is made, with these permissions, of which the process's mask takes some.
// What a mode does to the other options is told by no clause, so they are set after it.
pub fn new_options(mode: u32) -> OpenOptions
    ensures { IsTrue (asks_create_new result) }
{
    let mut options = OpenOptions::new();
    options.mode(mode);
    options.write(true).create_new(true);
    options
}

/// Makes a file, if nothing has the name. No link is followed.
pub fn make_new<R: Files>(rt: &R, name: &str, options: &OpenOptions) -> io::Result<R::File>
    requires { IsTrue (asks_create_new options.now) }
{
    options.open(rt, name)
}

/// Opens a file for writing. It isn't emptied, since by its name alone nobody knows which one it is.
pub fn open_to_write<R: Files>(
    rt: &R,
    name: &str,
    options: &OpenOptions,
) -> io::Result<Opened<R::File>>
    requires { IsFalse (asks_truncate options.now) }
    ensures { IfOk result (λ opened. IsTrue opened.is_stream ↔ IsStream opened.metadata) }
{
    identified(options.open(rt, name)?)
}
