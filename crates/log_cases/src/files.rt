//! Files by their names.
use bn_outside::MemoryStore;
use std::alloc::{AllocError, Global};

/// The files that stand before the first case, and those of the case.
#[derive(Drop)]
pub struct Files {
    alloc: Global,
    begun: bool,
    common: MemoryStore,
    own: MemoryStore,
}

impl Files {
    /// No file, before the first case.
    pub fn new(alloc: Global) -> Files {
        Files {
            alloc,
            begun: false,
            common: MemoryStore::new(alloc, Vec::new(alloc)),
            own: MemoryStore::new(alloc, Vec::new(alloc)),
        }
    }

    /// Begins a case, with the files before the first.
    pub fn begin(&mut self) {
        self.begun = true;
        self.own = MemoryStore::new(self.alloc, Vec::new(self.alloc));
    }

    /// The bytes of a file; one that isn't there has none.
    pub fn bytes(&self, name: &str) -> &[u8] {
        match self.own.bytes(name) {
            Some(bytes) => bytes,
            None => self.common.bytes(name).unwrap_or(&[]),
        }
    }

    /// Gives a file these bytes.
    pub fn put(&mut self, name: &str, bytes: &[u8]) -> Result<(), AllocError> {
        if self.begun {
            self.own.put(name, bytes)
        } else {
            self.common.put(name, bytes)
        }
    }
}
