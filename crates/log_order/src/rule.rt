//! The rules of the order of records. A refused file is told the number of the one that it breaks.
ghost use Rattle.std.specs.Prelude.{◌≡◌};
ghost use Rattle.log_order.specs.Rules.{number_of};

/// A rule of the order of records. `docs/FORMAT.md` says each in full.
#[derive(Clone, Copy, Drop)]
pub enum OrderRule {
    /// A record's hart is one of the log's, and so is an Edge's source, which is another hart.
    HartsBelow,
    /// A Header comes only while its hart is Unknown or Awaiting.
    HeaderWhileAwaiting,
    /// Another record comes only while its hart is Unknown or Open.
    OtherWhileOpen,
    /// A Header has the awaited count and number, as far as they are known, and no number above 2^41.
    HeaderAwaited,
    /// Counts are right.
    CountsRight,
    /// Each hart is Done that has to be.
    HartsDone,
    /// No Edge comes from an instruction that its source hasn't done.
    SourcesDone,
}

impl OrderRule {
    /// The rule's number, as the format and the line of a refusal have it.
    pub fn number(self) -> u64
        ensures { result ≡ number_of self }
    {
        match self {
            OrderRule::HartsBelow => 1,
            OrderRule::HeaderWhileAwaiting => 2,
            OrderRule::OtherWhileOpen => 3,
            OrderRule::HeaderAwaited => 4,
            OrderRule::CountsRight => 5,
            OrderRule::HartsDone => 6,
            OrderRule::SourcesDone => 7,
        }
    }
}
