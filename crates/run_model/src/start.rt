//! What a recording begins with: program, settings, input. With the schedule it determines the whole recording.
ghost use Rattle.std.specs.Prelude.{◌≡◌, IfOk};
ghost use Rattle.std.specs.Bool.{Decides};

use bn_base::{Image, Settings};
use std::alloc::{AllocError, Global};

/// What a recording begins with: the loaded program, the settings, the input, and the SHA-256 digest
/// (FIPS 180-4) of the program's ELF file.
#[derive(Drop)]
pub struct Start {
    pub image: Image,
    pub settings: Settings,
    pub input: Vec<u8>,
    pub digest: [u8; 32],
}

// Whether both settings are the same.
fn same_settings(a: &Settings, b: &Settings) -> bool
    ensures { Decides result (a.now ≡ b.now) }
{
    *a == *b
}

impl Start {
    /// Whether recordings that begin with this and with the other begin alike: with the same program,
    /// settings, input and digest.
    pub fn is_same(&self, other: &Start) -> bool
        ensures { Decides result ((self.now.image ≡ other.now.image) × (self.now.settings ≡ other.now.settings) × (self.now.input.items ≡ other.now.input.items) × (self.now.digest ≡ other.now.digest)) }
    {
        self.image == other.image
            && same_settings(&self.settings, &other.settings)
            && self.input == other.input
            && self.digest == other.digest
    }

    /// The same again. The only error is out of memory.
    pub fn copy(&self, alloc: Global) -> Result<Start, AllocError>
        ensures image { IfOk result (λ s. s.image ≡ self.now.image) }
        ensures settings { IfOk result (λ s. s.settings ≡ self.now.settings) }
        ensures input { IfOk result (λ s. s.input.items ≡ self.now.input.items) }
        ensures digest { IfOk result (λ s. s.digest ≡ self.now.digest) }
    {
        let input = self.input.to_vec(alloc)?;
        Ok(Start {
            image: self.image.copy()?,
            settings: self.settings,
            input,
            digest: self.digest,
        })
    }
}
