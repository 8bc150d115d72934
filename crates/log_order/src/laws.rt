//! Laws by which a recorder's kept records are in order, whatever the ring has dropped.
ghost use Rattle.std.specs.Prelude.{◌≡◌, ◌+◌, ◌++◌, ◌∷◌, [], ℕ, true, List, length, replicate, Some, None, Ok, Err};
ghost use Rattle.log_order.specs.Common.{AllByRecursion, RawSettings, Record, Header, FirstLoad, ScOk, ScFailed, Edge, End};
ghost use Rattle.log_order.specs.declared.view.OrderLimits.{OrderLimits};
ghost use Rattle.log_order.specs.declared.view.HartView.{HartView};
ghost use Rattle.log_order.specs.Rules.{fresh};
ghost use Rattle.log_order.specs.Order.{order_break, step, after_all, late_edge, broken_by};
ghost use Rattle.log_order.specs.First.{BreaksFirst, IsLateFirst};
ghost use Rattle.log_order.specs.Suffix.{Keeps, IsEarly, EndsLast};
ghost use Rattle.log_order.specs.Laws.{SuffixesKeepTheRules, SuffixesAreInOrder, AnAwaitedHeaderFollows, LoadsAndConditionalsFollow, AnEdgeFollows, AnEndFollows};

/// A break of a rule of single records is that of the first record that breaks one.
#[tactic(auto, using(crate::proofs::Firsts::breaks_first))]
pub fn breaks_are_first()
    ensures { (t : OrderLimits) (start : ℕ) (harts : List HartView) (rs : List Record) (place rule : ℕ) → after_all t start harts rs ≡ Err (order_break place rule) → BreaksFirst t start harts rs place rule }
{}

/// A late Edge that is named is the first.
#[tactic(auto, using(crate::proofs::Firsts::late_first))]
pub fn late_edges_are_first()
    ensures { (harts : List HartView) (start : ℕ) (rs : List Record) (place : ℕ) → late_edge harts start rs ≡ Some place → IsLateFirst harts start rs place }
{}

/// A log that loses its first records, and counts them, keeps its order.
#[tactic(auto, using(crate::proofs::Suffixes::order_kept))]
pub fn order_stays_without_the_first_records()
    ensures { (s : RawSettings) (dropped : ℕ) (front back : List Record) → broken_by s dropped (front ++ back) ≡ None → broken_by s (dropped + length front) back ≡ None }
{}

/// A recorder begins with no records.
#[tactic(auto, using(crate::proofs::Suffixes::keeps_none))]
pub fn no_records_are_kept()
    ensures { (t : OrderLimits) (count : ℕ) → Keeps t count 0 [] (replicate count (fresh true)) }
{}

/// It takes one more record that fits its hart's view.
#[tactic(auto, using(crate::proofs::Suffixes::keeps_more))]
pub fn one_more_is_kept()
    ensures { (t : OrderLimits) (count dropped : ℕ) (kept : List Record) (harts next : List HartView) (r : Record) → Keeps t count dropped kept harts → step t harts r ≡ Ok next → Keeps t count dropped (kept ++ r ∷ []) next }
{}

/// It gives up the first records, and counts them.
#[tactic(auto, using(crate::proofs::Suffixes::keeps_back))]
pub fn the_first_are_given_up()
    ensures { (t : OrderLimits) (count dropped : ℕ) (front back : List Record) (harts : List HartView) → Keeps t count dropped (front ++ back) harts → Keeps t count (dropped + length front) back harts }
{}

/// At all times the kept records keep the rules of single records, if each hart begins as it does in
/// a log with so many dropped. They say no more of a hart than is known.
pub fn kept_records_keep_the_rules()
    ensures { SuffixesKeepTheRules }
{}

/// In the end they are in order, if each hart is done and no Edge is late.
pub fn kept_records_are_in_order()
    ensures { SuffixesAreInOrder }
{}

/// No Edge is late whose source has done its instruction by the last End.
pub fn early_edges_are_not_late()
    ensures { (counts : ℕ → ℕ) (harts : List HartView) (start : ℕ) (rs : List Record) → EndsLast counts harts → AllByRecursion (IsEarly counts) rs → late_edge harts start rs ≡ None }
{}

/// The Header that its hart awaits may follow.
#[tactic(auto, using(crate::proofs::Takes::step_header))]
pub fn an_awaited_header_follows()
    ensures { AnAwaitedHeaderFollows }
{}

/// A FirstLoad, a ScOk and a ScFailed may follow in an interval.
pub fn loads_and_conditionals_follow()
    ensures { LoadsAndConditionalsFollow }
{}

/// An Edge into an instruction of the interval, not before those of earlier Edges, may follow.
#[tactic(auto, using(crate::proofs::Takes::step_edge))]
pub fn an_edge_follows()
    ensures { AnEdgeFollows }
{}

/// An End of the interval may follow.
#[tactic(auto, using(crate::proofs::Takes::step_end))]
pub fn an_end_follows()
    ensures { AnEndFollows }
{}
