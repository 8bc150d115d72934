//! The bytes of memory that system calls move.
ghost use Rattle.std.specs.Prelude.{◌≡◌, ◌<◌, ◌≤◌, ◌+◌, ◌*◌, ◌/◌, ◌%◌, ◌^◌, ◌++◌, ℕ, true, List, take, drop, length, vec_len, vec_capacity};
ghost use Rattle.run_model.specs.Common.{aligned, bytes_at, HoldsMap, has_page, HasPages};
ghost use Rattle.run_model.specs.Machine.{put_byte, filled, bytes_in, word_count};

use bn_base::Addr;
use bus_memory::Memory;
use rv_meaning::stored_word;

// The byte at an address.
fn byte(memory: &Memory, addr: Addr) -> u8
    requires { addr < 4 * length memory.now.words }
    ensures { (m : ℕ → ℕ) → HoldsMap memory.now.words m → result ≡ bytes_at (addr % 4) 1 (m (aligned addr)) }
{
    let word = memory.word(addr / 4 * 4);
    ((word >> (addr % 4 * 8)) % 256) as u8
}

// Writes the byte at an address whose page is made.
fn put_byte(memory: &mut Memory, addr: Addr, value: u8)
    requires within { addr < 4 * length memory.old.words }
    requires made { has_page memory.old (aligned addr) ≡ true }
    ensures map { (m : ℕ → ℕ) → HoldsMap memory.old.words m → HoldsMap memory.new.words (put_byte addr value m) }
    ensures size { length memory.new.words ≡ length memory.old.words }
    ensures made { memory.new.made ≡ memory.old.made }
{
    let place = addr / 4 * 4;
    let word = memory.word(place);
    memory.put(place, stored_word(addr, 1, u32::from(value), word));
}

/// Fills `len` bytes from `addr` on with those of `bytes` from `start` on. The pages are made.
pub(crate) fn fill(memory: &mut Memory, addr: Addr, bytes: &[u8], start: usize, len: u32)
    requires within { addr + len ≤ 4 * length memory.old.words }
    requires range { addr + len ≤ 2 ^ 32 }
    requires pages { HasPages memory.old (aligned addr) (word_count addr len) }
    requires given { start + len ≤ length bytes.now }
    ensures map { (m : ℕ → ℕ) → HoldsMap memory.old.words m → HoldsMap memory.new.words (filled addr (take len (drop start bytes.now)) m) }
    ensures size { length memory.new.words ≡ length memory.old.words }
    ensures made { memory.new.made ≡ memory.old.made }
{
    for place in 0..len {
        put_byte(memory, addr + place, bytes[start + place as usize]);
    }
}

/// Appends `len` bytes from `addr` on to a stream that has room for them.
pub(crate) fn send(stream: &mut Vec<u8>, memory: &Memory, addr: Addr, len: u32)
    requires within { addr + len ≤ 4 * length memory.now.words }
    requires range { addr + len ≤ 2 ^ 32 }
    requires room { vec_len stream.old + len ≤ vec_capacity stream.old }
    ensures items { (m : ℕ → ℕ) → HoldsMap memory.now.words m → stream.new.items ≡ stream.old.items ++ bytes_in m addr len }
    ensures len { vec_len stream.new ≡ vec_len stream.old + len }
    ensures capacity { vec_capacity stream.new ≡ vec_capacity stream.old }
{
    for place in 0..len {
        stream.push_reserved(byte(memory, addr + place));
    }
}
