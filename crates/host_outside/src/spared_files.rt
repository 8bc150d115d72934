//! Which files no save may replace: those loaded or saved before, so that no command destroys its own input.
ghost use Rattle.std.specs.Prelude.{◌≡◌, ◌↔◌, ◌++◌, ◌∷◌, [], IsTrue, List, OnErr, OnOk};
ghost use Rattle.std.specs.List.{Contains};
ghost use Rattle.host_outside.specs.declared.spared_files.FileId.{FileId};

use std::alloc::{AllocError, Global};
use std::fs::Metadata;
use std::marker::Model;
use std::os::unix::fs::MetadataExt;

/// A file by its device and its inode number. They are the same for all names that lead to the file.
#[derive(Clone, Copy, Drop, PartialEq, Eq)]
pub struct FileId {
    device: u64,
    inode: u64,
}

/// The file that this metadata is of.
pub fn id_of(metadata: &Metadata) -> FileId {
    FileId {
        device: metadata.dev(),
        inode: metadata.ino(),
    }
}

/// The files that a process has loaded or saved, in the order of these calls.
#[derive(Drop)]
pub struct SparedFiles {
    ids: Vec<FileId>,
}

impl Model for SparedFiles {
    ghost Value = { List FileId };

    ghost view = { λ f. f.ids.items };
}

impl SparedFiles {
    /// No file.
    pub fn new(alloc: Global) -> Self
        ensures { result ≡ [] }
    {
        SparedFiles {
            ids: Vec::new(alloc),
        }
    }

    /// Adds a file.
    pub fn add(&mut self, id: FileId) -> Result<(), AllocError>
        ensures ok { OnOk result (self.new ≡ self.old ++ id ∷ []) }
        ensures err { OnErr result (self.new ≡ self.old) }
    {
        self.ids.push(id)?;
        Ok(())
    }

    /// Whether the file was added.
    pub fn has(&self, id: FileId) -> bool
        ensures { IsTrue result ↔ Contains self.now id }
    {
        self.ids.contains(&id)
    }
}
