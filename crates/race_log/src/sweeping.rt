//! Sweeps of all that is kept.
ghost use Rattle.std.specs.Prelude.{◌≡◌, ◌≢◌, ◌+◌, ◌*◌, ◌/◌, ◌<◌, ◌≤◌, ℕ, length, vec_len};
ghost use Rattle.bn_base.specs.declared.settings.TheConstants.{HARTS};
ghost use Rattle.race_log.specs.Words.{kept_in, has_room, IsAsLarge};
ghost use Rattle.race_log.specs.Sweep.{uncovered, sum_below, held_below};

use crate::sweep::{give_up_page, held_page};
use crate::words::KeptWords;
use vector_time::Times;

impl KeptWords {
    /// Gives up the accesses that the times cover, all of them if there are no times, and answers how many. It takes no
    /// memory, and room stays.
    pub fn sweep(&mut self, known: &Option<Times>) -> u64
        ensures harts { self.new.harts ≡ self.old.harts }
        ensures epochs { self.new.epochs ≡ self.old.epochs }
        ensures pages { length self.new.pages.items ≡ length self.old.pages.items }
        ensures kept { (w : ℕ) → kept_in self.new w ≡ uncovered known.now (kept_in self.old w) }
        ensures gone { result + held_below (kept_in self.new) (64 * length self.new.pages.items) ≡ held_below (kept_in self.old) (64 * length self.old.pages.items) }
        ensures room { (w : ℕ) → has_room self.new w ≡ has_room self.old w }
        ensures size { IsAsLarge self.old self.new }
    {
        let mut gone = 0u64;
        for number in 0..self.pages.len() {
            gone += self.sweep_page(number, known);
        }
        gone
    }

    // Gives up the accesses of a page's words that the times cover, and answers how many.
    fn sweep_page(&mut self, number: usize, known: &Option<Times>) -> u64
        requires { number < vec_len self.old.pages }
        ensures harts { self.new.harts ≡ self.old.harts }
        ensures epochs { self.new.epochs ≡ self.old.epochs }
        ensures pages { length self.new.pages.items ≡ length self.old.pages.items }
        ensures kept { (w : ℕ) → w / 256 ≡ number → kept_in self.new w ≡ uncovered known.now (kept_in self.old w) }
        ensures others { (w : ℕ) → w / 256 ≢ number → kept_in self.new w ≡ kept_in self.old w }
        ensures gone { result + sum_below (λ i. length (kept_in self.new (4 * (64 * number + i)))) 64 ≡ sum_below (λ i. length (kept_in self.old (4 * (64 * number + i)))) 64 }
        ensures few { result ≤ 64 * (HARTS + 1) }
        ensures room { (w : ℕ) → has_room self.new w ≡ has_room self.old w }
        ensures size { IsAsLarge self.old self.new }
    {
        let harts = self.harts;
        give_up_page(&mut self.pages[number], harts, known)
    }

    /// How many accesses are kept.
    pub fn held(&self) -> u64
        ensures { result ≡ held_below (kept_in self.now) (64 * length self.now.pages.items) }
    {
        let mut held = 0u64;
        for number in 0..self.pages.len() {
            held += held_page(&self.pages[number], self.harts);
        }
        held
    }
}
