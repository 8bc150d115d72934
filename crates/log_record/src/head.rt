//! What a log file has before the records: the settings and the program's digest.
use bn_base::Settings;

/// The settings of the recording, and the SHA-256 digest (FIPS 180-4) of the recorded program's
/// ELF file.
#[derive(Clone, Copy, Drop)]
pub struct Head {
    pub settings: Settings,
    pub digest: [u8; 32],
}
