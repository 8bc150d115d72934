//! The words of a command line.
use host_outside::words_of;
use std::alloc::{AllocError, Global};
use std::env::{Env, FillError};

// A command line of two words.
#[derive(Drop)]
struct Line {
    second: &'static [u8],
}

impl Env for Line {
    fn arg(&self, i: usize, buf: &mut [u8]) -> Result<usize, FillError> {
        let word = match i {
            0 => b"bugnet".as_slice(),
            1 => self.second,
            _ => return Err(FillError::NotPresent),
        };
        if word.len() > buf.len() {
            return Err(FillError::TooLong);
        }
        buf[..word.len()].copy_from_slice(word);
        Ok(word.len())
    }

    fn var(&self, _name: &str, _buf: &mut [u8]) -> Result<usize, FillError> {
        Err(FillError::NotPresent)
    }

    fn var_at(&self, _i: usize, _buf: &mut [u8]) -> Result<usize, FillError> {
        Err(FillError::NotPresent)
    }
}

// How many words a line has, and whether its second one is this.
fn words_in(alloc: Global, second: &'static [u8]) -> Result<(usize, bool), AllocError> {
    let words = words_of(&(Line { second }, alloc))?;
    let is_second = words.get(1).is_some_and(|word| word.as_str() == "replay");
    Ok((words.len(), is_second))
}

#[test]
fn a_line_with_a_word_that_is_not_utf8_has_no_words(rt: HostRuntime) -> Result<(), AllocError> {
    let told = words_in(rt.alloc(), b"replay")?;
    let none = words_in(rt.alloc(), b"\xff")?;
    assert!(rt; told == (2, true));
    assert!(rt; none == (0, false));
    Ok(())
}
