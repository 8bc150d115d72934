//! Laws between the definitions of a warm word, as functions whose contracts are the laws.
ghost use Rattle.std.specs.Prelude.{ℕ, Bool, true, false, List, [], ◌∷◌, length, IsTrue, ◌↔◌, ◌<◌, ◌≤◌, ◌≡◌, ◌≢◌};
ghost use Rattle.first_load_bits.specs.Events.{Geometry, Event, Touch, Drop, Clear, word_of, line_of, set_of, second_of};
ghost use Rattle.first_load_bits.specs.History.{IsListed, IsHeld, IsWarm};
ghost use Rattle.first_load_bits.specs.Warm.{later_lines, second_history, listed, held, warm};
ghost use Rattle.first_load_bits.specs.Lines.{levels, lines, lines_below, in_front, is_set};
ghost use Rattle.first_load_bits.specs.Represents.{Contents, RepresentsEvents};
ghost use Rattle.first_load_bits.specs.Worked.{answers, smallest, small, with_second};

/// The tests that compute say what the history says: which lines are listed, which are held, and which words are warm.
#[tactic(auto, using(crate::proofs::Listed::listed_is, crate::proofs::Second::held_is, crate::proofs::Warmth::warm_is))]
pub fn tests_say_the_history()
    ensures listed { (g : Geometry) (l : ℕ) (es : List Event) → 0 < g.ways → (IsTrue (listed g l es) ↔ IsListed g l es) }
    ensures held { (g : Geometry) (l : ℕ) (es : List Event) → 0 < g.ways → (IsTrue (held g l es) ↔ IsHeld g l es) }
    ensures warm { (g : Geometry) (a : ℕ) (es : List Event) → 0 < g.ways → (IsTrue (warm g a es) ↔ IsWarm g a es) }
{}

/// The lists that the rules of a cache give say the same. A line is listed if and only if it is in its set's list of the
/// first level, after the lines that were touched later. It is below if and only if it is in its set's list of the second,
/// after the lines that were evicted later. No list is longer than its level's ways. A word is warm if and only if its bit
/// is set.
pub fn lists_say_the_history()
    ensures order { (g : Geometry) (l : ℕ) (es : List Event) → 0 < g.ways → in_front l (lines g (set_of g l) es) ≡ later_lines g l es }
    ensures few { (g : Geometry) (k : ℕ) (es : List Event) → length (lines g k es) ≤ g.ways }
    ensures order_below { (g : Geometry) (l : ℕ) (es : List Event) → 0 < g.ways → 0 < g.ways2 →
        in_front l (lines_below g (set_of (second_of g) l) es) ≡ later_lines (second_of g) l (second_history g es) }
    ensures few_below { (g : Geometry) (k : ℕ) (es : List Event) → length (lines_below g k es) ≤ g.ways2 }
    ensures warm { (g : Geometry) (a : ℕ) (es : List Event) → 0 < g.ways → is_set g a (levels g es) ≡ warm g a es }
{}

/// No event warms a word but an access of that word. No word of a dropped line is warm, nor any word after a clear.
#[tactic(auto, using(crate::proofs::Warmth::warm_before_touch, crate::proofs::Warmth::warm_before_drop))]
pub fn only_a_touch_warms()
    ensures touch { (g : Geometry) (a b : ℕ) (es : List Event) → word_of b ≢ word_of a → IsTrue (warm g a (Touch b ∷ es)) → IsTrue (warm g a es) }
    ensures drop { (g : Geometry) (a b : ℕ) (es : List Event) → IsTrue (warm g a (Drop b ∷ es)) → (line_of g b ≢ line_of g a) × IsTrue (warm g a es) }
    ensures clear { (g : Geometry) (a : ℕ) (es : List Event) → ¬ IsTrue (warm g a (Clear ∷ es)) }
{}

/// A second drop of a line right after the first changes nothing. So a recorder that drops several words one after another
/// has to drop each line only once.
#[tactic(auto, using(crate::proofs::Both::second_drop))]
pub fn a_second_drop_changes_nothing()
    ensures { (c : Contents) (a b : ℕ) (es : List Event) → line_of c.geometry a ≡ line_of c.geometry b →
        RepresentsEvents c (Drop b ∷ es) → RepresentsEvents c (Drop a ∷ Drop b ∷ es) }
{}

/// Small histories, with the answers of their touches and the lists that they lead to.
pub fn worked_examples()
    // The one line is lost to the next word. An address of any byte names the word.
    ensures lost { answers smallest [] (Touch 0 ∷ Touch 4 ∷ Touch 0 ∷ []) ≡ false ∷ false ∷ false ∷ [] }
    ensures byte { answers smallest [] (Touch 0 ∷ Touch 0 ∷ Touch 3 ∷ []) ≡ false ∷ true ∷ true ∷ [] }

    // A drop that names the next word drops the whole line, and spares the next line.
    ensures dropped { answers small [] (Touch 0x20000 ∷ Drop 0x20004 ∷ Touch 0x20000 ∷ []) ≡ false ∷ false ∷ [] }
    ensures spared { answers small [] (Touch 0x20000 ∷ Drop 0x20010 ∷ Touch 0x20000 ∷ []) ≡ false ∷ true ∷ [] }

    // A word is touched for itself alone, and after a clear it is cold once.
    ensures neighbour { answers small [] (Touch 0x20000 ∷ Touch 0x20004 ∷ Touch 0x20004 ∷ []) ≡ false ∷ false ∷ true ∷ [] }
    ensures cleared { answers small [] (Touch 0x20000 ∷ Clear ∷ Touch 0x20000 ∷ Touch 0x20000 ∷ []) ≡ false ∷ false ∷ true ∷ [] }

    // Of three lines of one set the one touched longest ago is lost. Lines of the other set count for nothing.
    ensures oldest { answers small [] (Touch 0 ∷ Touch 0x20 ∷ Touch 0 ∷ Touch 0x40 ∷ Touch 0 ∷ Touch 0x20 ∷ []) ≡ false ∷ false ∷ true ∷ false ∷ true ∷ false ∷ [] }
    ensures other_set { answers small [] (Touch 0 ∷ Touch 0x10 ∷ Touch 0x30 ∷ Touch 0x50 ∷ Touch 0 ∷ []) ≡ false ∷ false ∷ false ∷ false ∷ true ∷ [] }

    // With a second level of one line, the line that falls is found below, and comes back with its bits.
    ensures below { answers (with_second 1) [] (Touch 0 ∷ Touch 4 ∷ Touch 0 ∷ Touch 4 ∷ []) ≡ false ∷ false ∷ true ∷ true ∷ [] }
    ensures fallen { lines_below (with_second 1) 0 (Touch 4 ∷ Touch 0 ∷ []) ≡ record { number = 0; bits = 1 } ∷ [] }
    ensures taken_out { lines_below (with_second 1) 0 (Touch 0 ∷ Touch 4 ∷ Touch 0 ∷ []) ≡ record { number = 1; bits = 1 } ∷ [] }

    // One more that falls puts the first out; a second level of two lines still holds both.
    ensures put_out { answers (with_second 1) [] (Touch 0 ∷ Touch 4 ∷ Touch 8 ∷ Touch 0 ∷ []) ≡ false ∷ false ∷ false ∷ false ∷ [] }
    ensures both_held { answers (with_second 2) [] (Touch 0 ∷ Touch 4 ∷ Touch 8 ∷ Touch 0 ∷ []) ≡ false ∷ false ∷ false ∷ true ∷ [] }

    // A drop takes a line from both levels, and a clear clears both.
    ensures dropped_below { answers (with_second 1) [] (Touch 0 ∷ Touch 4 ∷ Drop 0 ∷ Touch 0 ∷ []) ≡ false ∷ false ∷ false ∷ [] }
    ensures none_below { lines_below (with_second 1) 0 (Drop 0 ∷ Touch 4 ∷ Touch 0 ∷ []) ≡ [] }
    ensures cleared_below { answers (with_second 1) [] (Touch 0 ∷ Touch 4 ∷ Clear ∷ Touch 0 ∷ []) ≡ false ∷ false ∷ false ∷ [] }
    ensures kept_below { lines_below (with_second 1) 0 (Clear ∷ Touch 4 ∷ Touch 0 ∷ []) ≡ record { number = 0; bits = 0 } ∷ [] }

    // An access puts its line first, and a clear keeps the lines in their order.
    ensures front { lines small 0 (Touch 4 ∷ Touch 0x28 ∷ Touch 0 ∷ []) ≡ record { number = 0; bits = 3 } ∷ record { number = 2; bits = 4 } ∷ [] }
    ensures order { lines small 0 (Clear ∷ Touch 0x28 ∷ Touch 0 ∷ []) ≡ record { number = 2; bits = 0 } ∷ record { number = 0; bits = 0 } ∷ [] }
{}
