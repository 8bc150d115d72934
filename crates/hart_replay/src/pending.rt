//! What of an interval's records is still to be met: an End with some left is refused.
ghost use Rattle.std.specs.Prelude.{◌≡◌, ◌≤◌, ◌+◌, ◌<◌, ◌^◌, length, drop};
ghost use Rattle.hart_replay.specs.Scans.{loads_in, conditionals_in, due, met, IsWaiting, first_of, rest_of};

use crate::scan::{count_conditionals, count_loads, next_conditional, next_load};
use bn_base::HartId;
use log_record::RecordList;
use std::marker::Model;

/// The first loads of a hart's interval that are still to be met, and the number of loading
/// accesses since the last one that was. The records aren't copied.
// They and the store-conditionals have a place of their own each: a log may have the two in another order than
// the rows meet them.
#[derive(Drop)]
pub(crate) struct Loads<'a> {
    hart: HartId,
    records: &'a RecordList,
    /// The place of the record after the next first load.
    at: usize,
    /// The next first load (skip, value).
    next: Option<(u32, u32)>,
    skipped: u32,
}

impl<'a> Model for Loads<'a> {
    ghost use Rattle.std.specs.Prelude.{◌≤◌, drop, IfSome};
    ghost use Rattle.hart_replay.specs.Scans.{Pending, in_front, loads_in};

    ghost Value = { Pending };

    ghost view = { λ l. record { loads = in_front l.next (loads_in l.hart (drop l.at l.records.now)); skipped = l.skipped } };

    ghost invariant = { λ l. IfSome l.next (λ n. l.skipped ≤ n.0) };
}

impl<'a> Loads<'a> {
    /// Those among the records from a place on.
    pub(crate) fn new(hart: HartId, records: &'a RecordList, from: usize) -> Loads<'a>
        ensures { result ≡ record { loads = loads_in hart (drop from records.now); skipped = 0 } }
    {
        let (next, at) = next_load(hart, records, from);
        Loads {
            hart,
            records,
            at,
            next,
            skipped: 0,
        }
    }

    /// A loading access: the value of the first load that it meets, if it meets one.
    pub(crate) fn take(&mut self) -> Option<u32>
        ensures value { result ≡ due self.old.skipped self.old.loads }
        ensures left { self.new ≡ met self.old.skipped self.old.loads }
        ensures waits { IsWaiting self.old.skipped self.old.loads }
    {
        match self.next {
            None => None,
            Some((skip, value)) => {
                if self.skipped == skip {
                    let (next, at) = next_load(self.hart, self.records, self.at);
                    self.next = next;
                    self.at = at;
                    self.skipped = 0;
                    Some(value)
                } else {
                    self.skipped += 1;
                    None
                }
            }
        }
    }

    /// How many there are.
    #[tactic(auto, using(crate::proofs::Counts::few_loads))]
    pub(crate) fn left(&self) -> u64
        ensures value { result ≡ length self.now.loads }
        ensures bound { result ≤ 2 ^ 63 }
        ensures waits { IsWaiting self.now.skipped self.now.loads }
    {
        let _length = self.records.len();
        match self.next {
            None => 0,
            Some(_) => 1 + count_loads(self.hart, self.records, self.at),
        }
    }

    /// The same ones.
    pub(crate) fn copy(&self) -> Loads<'a>
        ensures { result ≡ self.now }
    {
        Loads {
            hart: self.hart,
            records: self.records,
            at: self.at,
            next: self.next,
            skipped: self.skipped,
        }
    }
}

/// The store-conditionals of a hart's interval that are still to be met.
#[derive(Drop)]
pub(crate) struct Conditionals<'a> {
    hart: HartId,
    records: &'a RecordList,
    at: usize,
}

impl<'a> Model for Conditionals<'a> {
    ghost use Rattle.std.specs.Prelude.{Bool, List, drop};
    ghost use Rattle.hart_replay.specs.Scans.{conditionals_in};

    ghost Value = { List Bool };

    ghost view = { λ c. conditionals_in c.hart (drop c.at c.records.now) };
}

impl<'a> Conditionals<'a> {
    /// Those among the records from a place on.
    pub(crate) fn new(hart: HartId, records: &'a RecordList, from: usize) -> Conditionals<'a>
        ensures { result ≡ conditionals_in hart (drop from records.now) }
    {
        Conditionals {
            hart,
            records,
            at: from,
        }
    }

    /// Meets the next one: whether it succeeded.
    pub(crate) fn take(&mut self) -> Option<bool>
        ensures value { result ≡ first_of self.old }
        ensures left { self.new ≡ rest_of self.old }
    {
        let (next, at) = next_conditional(self.hart, self.records, self.at);
        match next {
            None => None,
            Some(good) => {
                self.at = at;
                Some(good)
            }
        }
    }

    /// How many there are.
    #[tactic(auto, using(crate::proofs::Counts::few_conditionals))]
    pub(crate) fn left(&self) -> u64
        ensures value { result ≡ length self.now }
        ensures bound { result < 2 ^ 63 }
    {
        let _length = self.records.len();
        count_conditionals(self.hart, self.records, self.at)
    }

    /// The same ones.
    pub(crate) fn copy(&self) -> Conditionals<'a>
        ensures { result ≡ self.now }
    {
        Conditionals {
            hart: self.hart,
            records: self.records,
            at: self.at,
        }
    }
}
