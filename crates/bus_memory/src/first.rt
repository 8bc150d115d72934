//! Pages as they are before the run: what the program's file gives of each.
ghost use Rattle.std.specs.Prelude.{◌≡◌, ◌≤◌, ◌<◌, ◌+◌, ◌*◌, ◌^◌, ℕ, slice_index, vec_len, IfOk};
ghost use Rattle.bn_base.specs.Programs.{first_at};
ghost use Rattle.bus_memory.specs.Contents.{is_touched};
ghost use Rattle.bus_memory.specs.Frames.{IsFirstFrame};

use crate::page::{PAGE_BYTES, PAGE_WORDS, Page};
use bn_base::Image;
use std::alloc::{AllocError, Global};

/// The page of a number before the run. It gets memory only if a segment touches it.
#[tactic(auto, using(crate::proofs::Touched::untouched))]
pub(crate) fn first_page(alloc: Global, image: &Image, number: u32) -> Result<Page, AllocError>
    requires { number < 2 ^ 20 }
    ensures { IfOk result (λ p. IsFirstFrame image.now number p) }
{
    if !is_touched(image, number) {
        return Ok(Page::unmade(alloc));
    }
    Ok(Page::of_words(first_words(alloc, image, number)?))
}

// Whether a segment has a byte in the page of a number.
fn is_touched(image: &Image, number: u32) -> bool
    requires { number < 2 ^ 20 }
    ensures { result ≡ is_touched image.now number }
{
    let low = PAGE_BYTES as u64 * number as u64;
    image.segments().iter().any(|segment| {
        (segment.first() as u64).max(low) < segment.end().min(low + PAGE_BYTES as u64)
    })
}

// The words of a page.
fn first_words(alloc: Global, image: &Image, number: u32) -> Result<Vec<u32>, AllocError>
    requires { number < 2 ^ 20 }
    ensures len { IfOk result (λ v. vec_len v ≡ 1024) }
    ensures words { IfOk result (λ v. (k : ℕ) → k < 1024 → slice_index v.items k ≡ first_at image.now (4096 * number + 4 * k)) }
{
    let mut words = Vec::with_capacity(alloc, PAGE_WORDS as usize)?;
    for place in 0..PAGE_WORDS {
        words.push(image.first(PAGE_BYTES * number + 4 * place))?;
    }
    Ok(words)
}
