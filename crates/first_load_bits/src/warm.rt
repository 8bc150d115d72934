//! What a cache answers to an access: a warm word's value is not logged.
ghost use Rattle.std.specs.Prelude.{◌≡◌, ◌<◌, ◌==◌, if◌then◌else◌};
ghost use Rattle.std.specs.Int.{bit_at};

/// What a cache knew of a word just before an access of it.
#[derive(Clone, Copy, Debug, Drop)]
pub enum Warm {
    /// The word was touched since the last clear, and from some such touch on the cache has held its line.
    Warm,
    /// The word wasn't touched since the last clear, or the cache has lost its line since each such touch.
    Cold,
}

// The answer if the bits of the touched word's line were so, and the word has this place.
pub(crate) fn answer(bits: u16, place: u32) -> Warm
    requires { place < 16 }
    ensures { result ≡ (if bit_at bits place == 1 then Warm.Warm else Warm.Cold) }
{
    if (bits >> place) % 2 == 1 {
        Warm::Warm
    } else {
        Warm::Cold
    }
}
