//! Slices of small logs, worked out by hand.
ghost use Rattle.std.specs.Prelude.{◌≡◌, ◌∷◌, [], Some, None, Err};
ghost use Rattle.slice_back.specs.Agreeing.{AllAlike, WordsAgree};
ghost use Rattle.slice_back.specs.declared.error.SliceError.TheVariants.{NoRow};
ghost use Rattle.slice_back.specs.Examples.{shown, text_of, byte_store, byte_store_text, fault, fault_text, word_store, byte_over_word, load_after_store, loaded_twice, branch_before, call, apart_rows, apart_slice, apart_loads};

/// A byte is stored over a word that the log tells, and the word loaded.
#[tactic(auto, using(crate::proofs::Worked::byte_store_is))]
pub fn a_byte_is_stored_over_a_logged_word()
    ensures { text_of 0 2 byte_store ≡ byte_store_text }
{}

/// A row that faults uses its registers alone, and the row after it isn't there.
#[tactic(auto, using(crate::proofs::Worked::fault_is, crate::proofs::Worked::no_row_is))]
pub fn a_fault_stands_alone()
    ensures row { text_of 0 0 (fault 0) ≡ fault_text }
    ensures none { fault 1 ≡ Err (NoRow 1) }
{}

/// A load needs the store of its word.
#[tactic(auto, using(crate::proofs::Worked::word_store_is))]
pub fn a_load_needs_the_store()
    ensures { shown word_store ≡ Some (0 ∷ 1 ∷ 2 ∷ [], (11, 1) ∷ [], [], []) }
{}

/// A store of a byte needs the word under it.
#[tactic(auto, using(crate::proofs::Worked::byte_over_word_is))]
pub fn a_byte_needs_the_word_under_it()
    ensures { shown byte_over_word ≡ Some (0 ∷ 1 ∷ 2 ∷ 3 ∷ [], (11, 1) ∷ [], [], []) }
{}

/// A store is no source of a load that takes its word from the log.
#[tactic(auto, using(crate::proofs::Worked::load_after_store_is))]
pub fn a_first_load_is_newer_than_a_store()
    ensures { shown load_after_store ≡ Some (0 ∷ 3 ∷ [], [], (3, 0x20000, 7) ∷ [], []) }
{}

/// A word may be taken by a row that isn't in the slice.
#[tactic(auto, using(crate::proofs::Worked::loaded_twice_is))]
pub fn a_word_is_taken_by_an_earlier_load()
    ensures { shown loaded_twice ≡ Some (0 ∷ 2 ∷ [], [], (1, 0x20000, 5) ∷ [], []) }
{}

/// What isn't needed is left out, and a branch is named.
#[tactic(auto, using(crate::proofs::Worked::branch_before_is))]
pub fn what_is_not_needed_is_left_out()
    ensures { shown branch_before ≡ Some (0 ∷ 3 ∷ 4 ∷ [], (11, 1) ∷ [], [], 2 ∷ []) }
{}

/// A system call uses a0, a1, a2 and a7.
#[tactic(auto, using(crate::proofs::Worked::call_is))]
pub fn a_call_uses_its_arguments()
    ensures { shown call ≡ Some (0 ∷ 1 ∷ 2 ∷ [], (11, 1) ∷ (12, 0) ∷ [], [], []) }
{}

/// Two intervals that agree on the words of a slice and differ in another: their slices are the same, and not their rows.
#[tactic(auto, using(crate::proofs::Worked::apart_alike, crate::proofs::Worked::apart_agree, crate::proofs::Worked::apart_same, crate::proofs::Worked::apart_one, crate::proofs::Worked::apart_other))]
pub fn a_slice_does_not_hear_of_another_word()
    ensures alike { AllAlike (apart_rows 5) (apart_rows 6) }
    ensures agree { WordsAgree (apart_rows 5) (apart_rows 6) }
    ensures same { apart_slice 5 ≡ apart_slice 6 }
    ensures one { apart_loads 5 ≡ None ∷ Some 5 ∷ Some 7 ∷ [] }
    ensures other { apart_loads 6 ≡ None ∷ Some 6 ∷ Some 7 ∷ [] }
{}
