//! What the records so far say of a hart: which of its records may come next. `specs/Rules.antt` has the rules.
ghost use Rattle.std.specs.Prelude.{◌≡◌};
ghost use Rattle.log_order.specs.Rules.{by_number, takes_header, takes_other, is_awaited, has_edge, has_end, next_number, phase_after, after_header, after_edge, after_end, after_other, after_one, fresh, is_done, is_unfinished};

use crate::rule::OrderRule;
use bn_base::end_mark::{CALL, GUARD, LENGTH, LIMIT};
use bn_base::{EndMark, Ic};
use log_record::Record;

/// The settings on which the order depends.
#[derive(Clone, Copy, Drop)]
pub struct OrderLimits {
    /// The length of a full interval, in instructions.
    pub interval: u64,
    /// How many instructions each hart may do.
    pub limit: u64,
}

/// What may come next of a hart.
#[derive(Clone, Copy, Drop)]
pub enum Phase {
    /// No Header or End of it came, and records before these are gone.
    Unknown,
    /// A Header comes next: with this count, and with this interval number if that is known.
    Awaiting { next: Option<u64>, ic: Ic },
    /// It is in an interval that began at count `since`; the interval after it has number `next`.
    Open { next: u64, since: Ic },
    /// Nothing comes any more.
    Done,
}

/// What the records so far say of a hart.
#[derive(Clone, Copy, Drop)]
pub struct HartView {
    pub phase: Phase,
    /// 1 plus the greatest count of its Edges, 0 without one.
    pub seen: u64,
    /// It has a record.
    pub met: bool,
    /// The count of its last End.
    pub last: Option<Ic>,
}

/// The highest number that an interval may have.
pub const LAST_INTERVAL: u64 = 1 << 41;

impl Phase {
    fn takes_header(self) -> bool
        ensures { result ≡ takes_header self }
    {
        match self {
            Phase::Unknown | Phase::Awaiting { .. } => true,
            Phase::Open { .. } | Phase::Done => false,
        }
    }

    fn takes_other(self) -> bool
        ensures { result ≡ takes_other self }
    {
        match self {
            Phase::Unknown | Phase::Open { .. } => true,
            Phase::Awaiting { .. } | Phase::Done => false,
        }
    }

    // Whether a Header begins where the last End left the hart, as far as that is known.
    fn is_awaited(self, number: u64, count: Ic) -> bool
        ensures { result ≡ is_awaited self number count }
    {
        match self {
            Phase::Awaiting { next: None, ic } => ic == count,
            Phase::Awaiting {
                next: Some(next),
                ic,
            } => ic == count && next == number,
            _ => true,
        }
    }

    // Whether an Edge leads to an instruction of the interval, if the interval's start is known.
    fn has_edge(self, interval: u64, count: Ic) -> bool
        ensures { result ≡ has_edge interval self count }
    {
        match self {
            Phase::Open { since, .. } => since <= count && count - since < interval,
            _ => true,
        }
    }

    // Whether an End leaves its interval no longer than the settings allow; one of reason length, just as long.
    fn has_end(self, interval: u64, reason: u8, count: Ic) -> bool
        ensures { result ≡ has_end interval self reason count }
    {
        match self {
            Phase::Open { since, .. } => {
                if count < since {
                    return false;
                }
                if reason == LENGTH {
                    count - since == interval
                } else {
                    count - since <= interval
                }
            }
            _ => true,
        }
    }

    fn next_number(self) -> Option<u64>
        ensures { result ≡ next_number self }
    {
        match self {
            Phase::Open { next, .. } => Some(next),
            _ => None,
        }
    }

    fn after_end(self, mark: &EndMark) -> Phase
        ensures { result ≡ phase_after self mark.now }
    {
        if mark.reason == LENGTH || mark.reason == CALL || mark.reason == GUARD {
            Phase::Awaiting {
                next: self.next_number(),
                ic: mark.ic,
            }
        } else {
            Phase::Done
        }
    }

    fn is_done(self) -> bool
        ensures { result ≡ is_done self }
    {
        match self {
            Phase::Done => true,
            _ => false,
        }
    }
}

impl HartView {
    /// A hart of which no record came. If all records are kept, it awaits its first Header.
    pub fn fresh(all: bool) -> HartView
        ensures { result ≡ fresh all }
    {
        let phase = if all {
            Phase::Awaiting {
                next: Some(0),
                ic: 0,
            }
        } else {
            Phase::Unknown
        };
        HartView {
            phase,
            seen: 0,
            met: false,
            last: None,
        }
    }

    // Here and below, rules are tested by ascending number, so that the error is the lowest that is broken.
    #[tactic(auto, unfolding(crate::specs::Rules::after_header))]
    fn after_header(
        self,
        terms: &OrderLimits,
        number: u64,
        count: Ic,
    ) -> Result<HartView, OrderRule>
        ensures { by_number result ≡ after_header terms.now self number count }
    {
        if !self.phase.takes_header() {
            return Err(OrderRule::HeaderWhileAwaiting);
        }
        if !self.phase.is_awaited(number, count) {
            return Err(OrderRule::HeaderAwaited);
        }
        if LAST_INTERVAL < number {
            return Err(OrderRule::HeaderAwaited);
        }
        if count < self.seen {
            return Err(OrderRule::CountsRight);
        }
        if terms.limit < count {
            return Err(OrderRule::CountsRight);
        }
        let phase = Phase::Open {
            next: number + 1,
            since: count,
        };
        Ok(HartView {
            phase,
            seen: self.seen,
            met: true,
            last: self.last,
        })
    }

    #[tactic(auto, unfolding(crate::specs::Rules::after_edge))]
    fn after_edge(
        self,
        terms: &OrderLimits,
        count: Ic,
        from_count: Ic,
    ) -> Result<HartView, OrderRule>
        ensures { by_number result ≡ after_edge terms.now self count from_count }
    {
        if !self.phase.takes_other() {
            return Err(OrderRule::OtherWhileOpen);
        }
        if terms.limit <= count {
            return Err(OrderRule::CountsRight);
        }
        if terms.limit <= from_count {
            return Err(OrderRule::CountsRight);
        }
        if count + 1 < self.seen {
            return Err(OrderRule::CountsRight);
        }
        if !self.phase.has_edge(terms.interval, count) {
            return Err(OrderRule::CountsRight);
        }
        Ok(HartView {
            phase: self.phase,
            seen: self.seen.max(count + 1),
            met: true,
            last: self.last,
        })
    }

    #[tactic(auto, unfolding(crate::specs::Rules::after_end))]
    fn after_end(self, terms: &OrderLimits, mark: &EndMark) -> Result<HartView, OrderRule>
        ensures { by_number result ≡ after_end terms.now self mark.now }
    {
        if !self.phase.takes_other() {
            return Err(OrderRule::OtherWhileOpen);
        }
        if mark.ic < self.seen {
            return Err(OrderRule::CountsRight);
        }
        if terms.limit < mark.ic {
            return Err(OrderRule::CountsRight);
        }
        if mark.reason == LIMIT && mark.ic != terms.limit {
            return Err(OrderRule::CountsRight);
        }
        if !self.phase.has_end(terms.interval, mark.reason, mark.ic) {
            return Err(OrderRule::CountsRight);
        }
        Ok(HartView {
            phase: self.phase.after_end(mark),
            seen: self.seen,
            met: true,
            last: Some(mark.ic),
        })
    }

    #[tactic(auto, unfolding(crate::specs::Rules::after_other))]
    fn after_other(self) -> Result<HartView, OrderRule>
        ensures { by_number result ≡ after_other self }
    {
        if !self.phase.takes_other() {
            return Err(OrderRule::OtherWhileOpen);
        }
        Ok(HartView {
            phase: self.phase,
            seen: self.seen,
            met: true,
            last: self.last,
        })
    }

    /// The hart after a record of its own. The error is the lowest rule that the record breaks.
    #[inline(always)]
    pub fn after(self, terms: &OrderLimits, entry: &Record) -> Result<HartView, OrderRule>
        ensures { by_number result ≡ after_one terms.now self entry.now }
    {
        match entry {
            Record::Header { interval, ic, .. } => self.after_header(terms, *interval, *ic),
            Record::Edge { ic, from_ic, .. } => self.after_edge(terms, *ic, *from_ic),
            Record::End { mark, .. } => self.after_end(terms, mark),
            Record::FirstLoad { .. } => self.after_other(),
            Record::ScOk { .. } => self.after_other(),
            Record::ScFailed { .. } => self.after_other(),
        }
    }

    /// Whether it has to be done by the last record and isn't. If all records are kept, each hart has
    /// to; else each that has a record.
    pub fn is_unfinished(&self, all: bool) -> bool
        ensures { result ≡ is_unfinished all self.now }
    {
        (all || self.met) && !self.phase.is_done()
    }
}
