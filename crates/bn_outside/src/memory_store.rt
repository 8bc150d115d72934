//! A store in memory, for tests: contracts can name its files, and chosen calls fail.
ghost use Rattle.std.specs.Prelude.{◌≡◌, ◌≤◌, ◌↔◌, Some, Err, IfOk, IsTrue, OnOk, OnErr, option_map, vec_len};
ghost use Rattle.bn_outside.specs.Counts.{NoneFell, LoadCause, SaveCause, counted};
ghost use Rattle.bn_outside.specs.Calls.{NextFails, after_call};
ghost use Rattle.bn_outside.specs.Files.{LoadTells, SameElsewhere};
ghost use Rattle.bn_outside.specs.InMemory.{empty_store, files_in, counts_after_load, counts_after_save};

use crate::calls::FailingCalls;
use crate::{LoadError, SaveError, Store};
use std::alloc::{AllocError, Global};
use std::collections::BTreeMap;
use std::marker::Model;

/// A store of files in memory. Exactly the loads and saves whose numbers are listed fail; they are
/// counted together, and the first one has the number 1.
#[derive(Drop)]
pub struct MemoryStore {
    alloc: Global,
    files: BTreeMap<String, Vec<u8>>,
    calls: FailingCalls,
    misses: u64,
    longs: u64,
    faults: u64,
    saves: u64,
}

impl Model for MemoryStore {
    ghost use Rattle.bn_outside.specs.InMemory.{StoreState, entries_of};

    ghost Value = { StoreState };

    ghost view = { λ s. record {
      entries = entries_of s.files.entries;
      calls = s.calls;
      counts = record { misses = s.misses; longs = s.longs; faults = s.faults };
      saves = s.saves;
    } };
}

impl MemoryStore {
    /// A store with no file.
    pub fn new(alloc: Global, failing: Vec<u64>) -> Self
        ensures { result ≡ empty_store failing.items }
    {
        MemoryStore {
            alloc,
            files: BTreeMap::new(alloc),
            calls: FailingCalls::new(failing),
            misses: 0,
            longs: 0,
            faults: 0,
            saves: 0,
        }
    }

    /// Gives `name` these bytes, in place of what it had. This is none of the counted calls. When out
    /// of memory, nothing changes.
    pub fn put(&mut self, name: &str, bytes: &[u8]) -> Result<(), AllocError>
        ensures ok { OnOk result (files_in self.new.entries name.now ≡ Some bytes.now) }
        ensures others { SameElsewhere name.now
            (files_in self.old.entries) (files_in self.new.entries) }
        ensures rest { self.new ≡ record self.old { entries = self.new.entries } }
        ensures err { OnErr result (self.new ≡ self.old) }
    {
        let name = name.to_string(self.alloc)?;
        let bytes = bytes.to_vec(self.alloc)?;
        self.files.insert(name, bytes)?;
        Ok(())
    }

    /// The bytes of `name`, if it is there. This is none of the counted calls.
    pub fn bytes(&self, name: &str) -> Option<&[u8]>
        ensures { files_in self.now.entries name.now ≡ option_map (λ bytes. bytes.now) result }
    {
        match self.files.get(name) {
            Some(bytes) => Some(bytes.as_slice()),
            None => None,
        }
    }

    // What a load comes to, whether it fails or not. It counts nothing.
    fn found(
        &self,
        fails: bool,
        alloc: Global,
        name: &str,
        limit: usize,
    ) -> Result<Vec<u8>, LoadError>
        ensures bound { IfOk result (λ bytes. vec_len bytes ≤ limit) }
        ensures told { LoadTells (files_in self.now.entries name.now) limit result }
        ensures fails { (result ≡ Err LoadError.Failed) ↔ IsTrue fails }
    {
        if fails {
            return Err(LoadError::Failed);
        }
        let Some(bytes) = self.bytes(name) else {
            return Err(LoadError::Missing);
        };
        if bytes.len() > limit {
            return Err(LoadError::TooLong);
        }
        Ok(bytes.to_vec(alloc)?)
    }

    // Counts what a load came to.
    fn count_load(&mut self, loaded: &Result<Vec<u8>, LoadError>)
        ensures later { NoneFell self.old.counts self.new.counts }
        ensures cause { LoadCause self.old.counts self.new.counts loaded.now }
        ensures rest { self.new ≡ record self.old { counts = counts_after_load loaded.now self.old.counts } }
    {
        match loaded {
            Err(LoadError::Missing) => self.misses = self.misses.saturating_add(1),
            Err(LoadError::TooLong) => self.longs = self.longs.saturating_add(1),
            Err(LoadError::Failed) => self.faults = self.faults.saturating_add(1),
            Err(LoadError::OutOfMemory) => {}
            Ok(_) => {}
        }
    }
}

impl Store for MemoryStore {
    ghost stored = { λ s. record {
      files = Some (files_in s.entries);
      saves = s.saves;
      counts = s.counts;
      noted = s.calls.made;
    } };

    ghost note = { λ made _. counted made };

    fn load(&mut self, alloc: Global, name: &str, limit: usize) -> Result<Vec<u8>, LoadError>
        ensures bound { IfOk result (λ bytes. vec_len bytes ≤ limit) }
        ensures told { LoadTells (files_in self.old.entries name.now) limit result }
        ensures unchanged { Some (files_in self.new.entries) ≡ Some (files_in self.old.entries) }
        ensures asked { self.new.saves ≡ self.old.saves }
        ensures called { self.new.calls.made ≡ counted self.old.calls.made }
        ensures later { NoneFell self.old.counts self.new.counts }
        ensures cause { LoadCause self.old.counts self.new.counts result }

        // Exactly the listed calls fail.
        ensures listed { (result ≡ Err LoadError.Failed) ↔ NextFails self.old.calls }
        ensures rest { self.new ≡ record self.old {
          calls = after_call self.old.calls;
          counts = counts_after_load result self.old.counts;
        } }
    {
        let fails = self.calls.next_fails();
        let loaded = self.found(fails, alloc, name, limit);
        self.count_load(&loaded);
        loaded
    }

    fn save(&mut self, name: &str, bytes: &[u8]) -> Result<(), SaveError>
        ensures saved { OnOk result (files_in self.new.entries name.now ≡ Some bytes.now) }
        ensures others { SameElsewhere name.now
            (files_in self.old.entries) (files_in self.new.entries) }
        ensures asked { self.new.saves ≡ counted self.old.saves }
        ensures called { self.new.calls.made ≡ counted self.old.calls.made }
        ensures later { NoneFell self.old.counts self.new.counts }
        ensures cause { SaveCause self.old.counts self.new.counts result }

        // Exactly the listed calls fail.
        ensures listed { (result ≡ Err SaveError.Failed) ↔ NextFails self.old.calls }
        ensures err { OnErr result (self.new.entries ≡ self.old.entries) }
        ensures rest { self.new ≡ record self.old {
          entries = self.new.entries;
          calls = after_call self.old.calls;
          counts = counts_after_save result self.old.counts;
          saves = counted self.old.saves;
        } }
    {
        self.saves = self.saves.saturating_add(1);
        if self.calls.next_fails() {
            self.faults = self.faults.saturating_add(1);
            return Err(SaveError::Failed);
        }
        self.put(name, bytes)?;
        Ok(())
    }
}
