//! What comes of replies to an ask.
use crate::harts::print_state;
use crate::words::low;
use bn_base::HartState;
use rv_meaning::{Ask, Reply, Want, absorb, absorb_in_place, is_aligned, stored_word};
use std::io;

// The state after a word, if the ask is one that loads.
fn loaded(ask: &Ask, word: u32) -> Option<HartState> {
    match ask.want {
        Want::Load { .. } | Want::LoadReserved { .. } | Want::Amo { .. } => {
            Some(absorb(ask, Reply::Word(word)))
        }
        _ => None,
    }
}

// The state after a conditional store.
fn concluded(ask: &Ask, stored: bool) -> Option<HartState> {
    if let Want::StoreConditional { .. } = ask.want {
        if stored {
            Some(absorb(ask, Reply::ScOk))
        } else {
            Some(absorb(ask, Reply::ScFailed))
        }
    } else {
        None
    }
}

// The state after a system call that doesn't end the hart.
fn answered(ask: &Ask, value: u32) -> Option<HartState> {
    let mut state = ask.state;
    if let Want::System { .. } = ask.want {
        absorb_in_place(&mut state, &ask.want, Reply::Answer(value));
        Some(state)
    } else {
        None
    }
}

// The state after the reply that a line says.
fn after(ask: &Ask, verb: &str, value: u32) -> Option<HartState> {
    match verb {
        "word" => loaded(ask, value),
        "answer" => answered(ask, value),
        "sc-ok" => concluded(ask, true),
        "sc-failed" => concluded(ask, false),
        "over" => Some(absorb(ask, Reply::Over)),
        _ => None,
    }
}

// The word that an ask leaves in place of one, if it is one that stores.
fn left(ask: &Ask, word: u32) -> Option<u32> {
    match ask.want {
        Want::Store { addr, width, value } if is_aligned(addr, width) => {
            Some(stored_word(addr, width, value, word))
        }
        Want::StoreConditional { value, .. } => Some(value),
        Want::Amo { op, value, .. } => Some(op.result(word, value)),
        _ => None,
    }
}

// Prints the word that an ask leaves in place of one.
fn print_left<R: Print>(rt: &R, ask: &Ask, word: u32) -> io::Result<()> {
    match left(ask, word) {
        Some(word) => println!(rt; "leaves {word:08x}"),
        None => println!(rt; "leaves it"),
    }
}

/// Prints the word that the last ask leaves, or the state after the reply that a line says.
pub fn tell<R: Print>(rt: &R, ask: &Ask, verb: &str, words: &[&str]) -> anyhow::Result<()> {
    let value = low(words, 1);
    if verb == "leaves" {
        return Ok(print_left(rt, ask, value)?);
    }
    match after(ask, verb, value) {
        Some(state) => Ok(print_state(rt, &state)?),
        None => Err(anyhow::anyhow!("no line of cases: {verb}")),
    }
}
