//! Making the pages of a range, in two steps: first memory is found for all, then they are made.
ghost use Rattle.std.specs.Prelude.{◌≡◌, ◌≤◌, ◌<◌, ◌+◌, ◌*◌, ◌||◌, ◌&&◌, ℕ, true, false, nat_le, nat_lt, length, slice_index_or, IsOk, OnOk};
ghost use Rattle.bus_memory.specs.Frames.{contents_of, HaveWords, AreMade};

use crate::page::Page;
use std::alloc::AllocError;

/// Finds memory for the pages from one number to before another. They say the same afterwards.
pub(crate) fn find_memory(pages: &mut [Page], first: usize, end: usize) -> Result<(), AllocError>
    requires { end ≤ length pages.old }
    ensures same { contents_of pages.new ≡ contents_of pages.old }
    ensures found { OnOk result (HaveWords pages.new first end) }
    ensures ready { AreMade pages.old first end → IsOk result }
{
    for number in first..end {
        pages[number].find_memory()?;
    }
    Ok(())
}

/// Makes the pages from one number to before another, which have memory.
pub(crate) fn make(pages: &mut [Page], first: usize, end: usize)
    requires order { first ≤ end }
    requires within { end ≤ length pages.old }
    requires found { HaveWords pages.old first end }
    ensures words { (contents_of pages.new).words ≡ (contents_of pages.old).words }
    ensures made { (n : ℕ) → slice_index_or (contents_of pages.new).made n false ≡ (slice_index_or (contents_of pages.old).made n false || (nat_le first n && nat_lt n end)) }
{
    for number in first..end {
        pages[number].make();
    }
}
