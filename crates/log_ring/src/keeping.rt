//! Laws of the longest suffix: what is dropped stays dropped, so a ring needs only what it holds.
ghost use Rattle.std.specs.Prelude.{◌≡◌, ◌≤◌, ◌++◌, ◌∷◌, [], ℕ, List, length};
ghost use Rattle.log_record.specs.declared.record.Record.{Record};
ghost use Rattle.log_record.specs.Spelling.{total};
ghost use Rattle.log_ring.specs.Kept.{kept};

/// What is kept is a suffix.
pub fn a_suffix_is_kept()
    ensures { (size : ℕ) (rs : List Record) → (front : List Record) × (rs ≡ front ++ kept size rs) }
{}

/// Its bytes sum to at most the size.
pub fn kept_records_fit()
    ensures { (size : ℕ) (rs : List Record) → total (kept size rs) ≤ size }
{}

/// No longer suffix does so.
pub fn no_longer_suffix_fits()
    ensures { (size : ℕ) (front back : List Record) → total back ≤ size → length back ≤ length (kept size (front ++ back)) }
{}

/// Records that were given up need not be known again.
pub fn dropped_records_stay_dropped()
    ensures { (size : ℕ) (rs : List Record) (r : Record) → kept size (kept size rs ++ r ∷ []) ≡ kept size (rs ++ r ∷ []) }
{}
