//! One step of a walk along records, and what is tested at its end. A file whose records break a rule is refused.
ghost use Rattle.std.specs.Prelude.{◌≡◌};
ghost use Rattle.std.specs.List.{list_any};
ghost use Rattle.log_order.specs.Rules.{number_of, by_number, is_unfinished};
ghost use Rattle.log_order.specs.Order.{has_source, order_break, step, Steps, is_late, order_limits_of};

use crate::rule::OrderRule;
use crate::view::{HartView, OrderLimits};
use bn_base::Settings;
use log_record::Record;

/// The first break of the order of records: its place and its rule.
#[derive(Clone, Copy, Debug, PartialEq, Eq, Drop)]
pub struct OrderBreak {
    /// The place of the record, in bytes from the first record's; for rule 6 the records' end.
    pub at: u64,
    /// The number of the rule, 1 to 7.
    pub rule: u64,
}

impl OrderBreak {
    /// The break of a rule at a place.
    pub fn of(at: u64, rule: OrderRule) -> OrderBreak
        ensures { result ≡ order_break at (number_of rule) }
    {
        OrderBreak {
            at,
            rule: rule.number(),
        }
    }
}

impl OrderLimits {
    /// The settings that the order of records depends on: the most instructions of an interval and of a hart.
    pub fn of(settings: &Settings) -> OrderLimits
        ensures { result ≡ order_limits_of settings.now }
    {
        OrderLimits {
            interval: settings.interval() as u64,
            limit: settings.limit(),
        }
    }
}

// Whether an Edge comes from another hart of the log; other records pass.
fn has_source(harts: usize, entry: &Record) -> bool
    ensures { result ≡ has_source harts entry.now }
{
    match entry {
        Record::Edge { hart, from, .. } => (*from as usize) < harts && *from != *hart,
        _ => true,
    }
}

/// Takes one more record into the views of all harts. The error is the lowest rule that it breaks.
#[tactic(auto, unfolding(crate::specs::Order::step))]
#[inline(always)]
pub fn step(terms: &OrderLimits, harts: &mut [HartView], entry: &Record) -> Result<(), OrderRule>
    ensures { Steps (by_number result) harts.new (step terms.now harts.old entry.now) }
{
    let hart = entry.hart() as usize;
    match harts.get(hart).copied() {
        None => Err(OrderRule::HartsBelow),
        Some(view) => {
            if !has_source(harts.len(), entry) {
                return Err(OrderRule::HartsBelow);
            }
            let next = view.after(terms, entry)?;
            harts[hart] = next;
            Ok(())
        }
    }
}

/// Whether some hart has to be done by the last record and isn't; `all` says that all records are
/// kept.
pub fn any_unfinished(all: bool, harts: &[HartView]) -> bool
    ensures { result ≡ list_any (is_unfinished all) harts.now }
{
    harts.iter().any(|view| view.is_unfinished(all))
}

/// Tells whether a record is an Edge from an instruction that its source, whose last view is among
/// these, hasn't done by its last End.
pub fn is_late(harts: &[HartView], entry: &Record) -> bool
    ensures { result ≡ is_late harts.now entry.now }
{
    match entry {
        Record::Edge { from, from_ic, .. } => match harts.get(*from as usize) {
            None => false,
            Some(view) => match view.last {
                None => false,
                Some(last) => last <= *from_ic,
            },
        },
        _ => false,
    }
}
