//! Records that are in order, and records that break a rule of it.
#![tactic(auto, unfolding(crate::specs::Order::step, crate::specs::Order::after_all, crate::specs::Order::late_edge, crate::specs::Order::end_break, crate::specs::Order::broken, crate::specs::Rules::after_header, crate::specs::Rules::after_edge, crate::specs::Rules::after_end, crate::specs::Rules::after_other, le_numbers::specs::Numbers::number_bytes))]

ghost use Rattle.std.specs.Prelude.{◌≡◌, ◌∷◌, ◌++◌, [], Some, None};
ghost use Rattle.log_record.specs.declared.record.Record.TheVariants.{FirstLoad, ScOk, Edge};
ghost use Rattle.log_order.specs.Order.{order_break, broken_by};
ghost use Rattle.log_order.specs.Examples.{settings, header, end, an_exit};

/// The Header and the End of a hart are in order. The End alone is in order if a record was given up.
pub fn an_exit_is_in_order()
    ensures whole { broken_by (settings 1) 0 (an_exit 0) ≡ None }
    ensures kept { broken_by (settings 1) 1 (end 0 3 3 ∷ []) ≡ None }
{}

/// A record of a hart that isn't there breaks rule 1, and so does an Edge from its own hart.
pub fn a_record_needs_its_harts()
    ensures none { broken_by (settings 1) 0 (ScOk 1 ∷ []) ≡ Some (order_break 0 1) }
    ensures own { broken_by (settings 2) 0 (header 0 0 0 ∷ Edge 0 2 0 1 ∷ []) ≡ Some (order_break 146 1) }
{}

/// A second Header in an interval breaks rule 2, and so does one of a hart that is done.
pub fn a_header_begins_an_interval()
    ensures second { broken_by (settings 1) 0 (header 0 0 0 ∷ header 0 1 0 ∷ []) ≡ Some (order_break 146 2) }
    ensures done { broken_by (settings 1) 0 (an_exit 0 ++ header 0 1 3 ∷ []) ≡ Some (order_break 161 2) }
{}

/// A FirstLoad before the Header breaks rule 3.
pub fn a_load_needs_an_interval()
    ensures { broken_by (settings 1) 0 (FirstLoad 0 0 0 ∷ []) ≡ Some (order_break 0 3) }
{}

/// A Header whose number isn't the next one breaks rule 4, and so does one whose count isn't that of the End before it.
pub fn a_header_goes_on()
    ensures number { broken_by (settings 1) 0 (header 0 1 0 ∷ []) ≡ Some (order_break 0 4) }
    ensures count { broken_by (settings 1) 0 (header 0 0 0 ∷ end 0 3 2 ∷ header 0 1 4 ∷ []) ≡ Some (order_break 161 4) }
{}

/// An End of reason length before the interval is full breaks rule 5, and so does one of reason limit below the limit.
pub fn an_end_has_its_count()
    ensures length { broken_by (settings 1) 0 (header 0 0 0 ∷ end 0 3 1 ∷ []) ≡ Some (order_break 146 5) }
    ensures limit { broken_by (settings 1) 0 (header 0 0 0 ∷ end 0 3 7 ∷ []) ≡ Some (order_break 146 5) }
{}

/// A hart without an End breaks rule 6, at the end of the records.
pub fn a_hart_has_an_end()
    ensures { broken_by (settings 1) 0 (header 0 0 0 ∷ []) ≡ Some (order_break 146 6) }
{}

/// An Edge from an instruction that its source hasn't done by its last End breaks rule 7.
pub fn an_edge_comes_from_an_instruction_that_is_done()
    ensures { broken_by (settings 2) 0 (an_exit 0 ++ header 1 0 0 ∷ Edge 1 2 0 3 ∷ end 1 3 3 ∷ []) ≡ Some (order_break 307 7) }
{}
