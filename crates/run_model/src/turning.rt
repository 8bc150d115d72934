//! The steps of a turn of a plain machine, as a bus takes them: it prepares an ask, then applies it.
ghost use Rattle.std.specs.Prelude.{◌≡◌, ◌<◌, ◌≤◌, ◌*◌, ◌^◌, ℕ, true, false, length, IsTrue, IfOk, MatchOption};
ghost use Rattle.run_model.specs.Common.{is_cut, passes, Reply};
ghost use Rattle.rv_meaning.specs.declared.asks.Reply.TheVariants as replies;
ghost use Rattle.run_model.specs.Machine.{Machine as Meant, call_of};
ghost use Rattle.run_model.specs.Turn.{Run, span_of, is_orderly, is_guarded, bytes_since, serve_call, serve_disorderly, halted, budget};
ghost use Rattle.run_model.specs.Represents.Parts.{HasRoom, IsMachine, AreAddresses};
ghost use Rattle.run_model.specs.Represents.Harts.{hart_in};
ghost use Rattle.run_model.specs.Represents.Plain.{IsRun, IsRaceReady};
ghost use Rattle.run_model.specs.Runs.{start, most_turns};
ghost use Rattle.run_model.specs.Runs as runs;
ghost use Rattle.run_model.specs.Represents.Turning.{parts, is_live};

use crate::hart::{HEADER_SIZE, Hart};
use crate::harts::end_each;
use crate::laws::{each_turn_moves_on, guarded_asks_fit};
use crate::machine::{Machine, Streams};
use crate::plain::Plain;
use crate::span::Span;
use crate::start::Start;
use crate::trace::Trace;
use bn_base::{HartId, HartState};
use log_ring::Ring;
use rv_meaning::{Ask, Reply, Want};
use std::alloc::{AllocError, Global};
use system_calls::Plan;

/// What a plain machine recorded: its harts, the ring of kept records, the bytes of both output streams,
/// and how many turns it took.
#[derive(Drop)]
pub struct Recorded {
    pub harts: Vec<Hart>,
    pub ring: Ring,
    pub out: Vec<u8>,
    pub err: Vec<u8>,
    pub turns: u64,
}

// Whether an ask is a cut, which does no instruction.
fn is_cut(want: &Want) -> bool
    ensures { result ≡ is_cut want.now }
{
    match want {
        Want::Cut => true,
        _ => false,
    }
}

impl Plain {
    /// Whether a hart could ask this now: the count fits its budget, and the access passes the tests.
    pub fn is_orderly(&self, hart: HartId, ask: &Ask) -> bool
        requires { is_live (parts self.now) hart ≡ true }
        ensures value { result ≡ is_orderly self.now.start.settings self.now.start.image (hart_in self.now.trace.harts.items hart) ask.now }
        ensures run { (run : Run) → IsRun (parts self.now) run → result ≡ is_orderly self.now.start.settings self.now.start.image (run.harts hart) ask.now }
    {
        let own = &self.trace.harts[hart as usize];
        let budget = own.budget(&self.start.settings);
        ask.is_orderly(&self.start.image, own.state.ic, budget)
    }

    /// Whether a hart's orderly ask is guarded: more than half of the log's bytes are from the Header of
    /// its interval on, so that the interval ends ahead of it. A cut isn't, and with format 1 no ask is.
    pub fn is_guarded(&self, hart: HartId, ask: &Ask) -> bool
        requires { hart < self.now.start.settings.harts }
        ensures run { (run : Run) → IsRun (parts self.now) run → result ≡ is_guarded self.now.start.settings run hart ask.now.want }
        ensures uncut { result ≡ true → is_cut ask.now.want ≡ false }
    {
        self.start.settings.format() == 2
            && !is_cut(&ask.want)
            && u64::from(self.start.settings.log_size()) < 2 * self.since_header(hart)
    }

    // How many bytes of records there are from a hart's present Header on.
    pub(crate) fn since_header(&self, hart: HartId) -> u64
        requires { hart < self.now.start.settings.harts }
        ensures run { (run : Run) → IsRun (parts self.now) run → result ≡ bytes_since run hart }
        ensures few { result < 2 ^ 63 }
    {
        let own = &self.trace.harts[hart as usize];
        HEADER_SIZE + self.trace.log.bytes.saturating_sub(own.headed)
    }

    /// Plans the system call that an orderly ask makes, if it makes one, and finds all memory that its
    /// turn needs: first pages, then the race log's, then a stream's. The machine stays as it is, also on
    /// `Err`, and the only error is out of memory.
    pub fn prepare(&mut self, ask: &Ask) -> Result<Option<Plan>, AllocError>
        requires { IsTrue (passes self.old.start.image ask.now.want) }
        ensures run { (run : Run) → IsRun (parts self.old) run → IsRun (parts self.new) run }
        ensures call { IfOk result (λ call. (m : Meant) → IsMachine self.new.start.input.items self.new.machine m → call ≡ call_of self.new.start.image m ask.now.want) }
        ensures room { IfOk result (λ call. HasRoom self.new.start.input.items self.new.machine call ask.now.want) }
        ensures race { IfOk result (λ call. IsRaceReady self.new.trace.shadow (span_of call ask.now.want replies.ScOk)) }
        ensures addresses { IfOk result (λ call. (reply : Reply) → AreAddresses (span_of call ask.now.want reply)) }
        ensures start { self.new.start ≡ self.old.start }
        ensures harts { self.new.trace.harts ≡ self.old.trace.harts }
    {
        let call = self
            .machine
            .call(&self.start.image, &self.start.input, &ask.want);
        self.machine
            .pages(&self.start.image, &self.start.input, call, &ask.want)?;
        self.trace.reserve(Span::of(call, &ask.want, Reply::ScOk))?;
        self.machine
            .stream_room(&self.start.image, &self.start.input, call, &ask.want)?;
        Ok(call)
    }

    /// Answers an orderly ask of a live hart, once it is prepared, and takes its turn: a guarded ask in the
    /// hart's next interval, which then begins with it. It takes no memory.
    pub fn apply(&mut self, hart: HartId, ask: &Ask, call: Option<Plan>) -> Reply
        requires hart { hart < self.old.start.settings.harts }
        requires live { (hart_in self.old.trace.harts.items hart).live ≡ true }
        requires orderly { IsTrue (is_orderly self.old.start.settings self.old.start.image (hart_in self.old.trace.harts.items hart) ask.now) }
        requires call { (m : Meant) → IsMachine self.old.start.input.items self.old.machine m → call ≡ call_of self.old.start.image m ask.now.want }
        requires room { HasRoom self.old.start.input.items self.old.machine call ask.now.want }
        requires race { IsRaceReady self.old.trace.shadow (span_of call ask.now.want replies.ScOk) }
        requires addresses { (reply : Reply) → AreAddresses (span_of call ask.now.want reply) }
        ensures run { (run : Run) → IsRun (parts self.old) run → IsRun (parts self.new) (serve_call self.old.start.settings run hart ask.now (is_guarded self.old.start.settings run hart ask.now.want) call).run }
        ensures reply { (run : Run) → IsRun (parts self.old) run → result ≡ (serve_call self.old.start.settings run hart ask.now (is_guarded self.old.start.settings run hart ask.now.want) call).reply }
        ensures start { self.new.start ≡ self.old.start }
    {
        each_turn_moves_on();
        guarded_asks_fit();
        let guarded = self.is_guarded(hart, ask);
        self.trace.guard(guarded, hart, &ask.state);
        let word = self.machine.word_before(&self.start.image, &ask.want);
        let reply = self
            .machine
            .answer(&self.start.settings, &self.start.input, call, hart, ask);
        let load = self.trace.access(self.turns, hart, call, ask, reply, word);
        self.trace
            .finish(&self.start.settings, hart, call, ask, reply, load);
        self.turns += 1;
        reply
    }

    /// The turn of a live hart whose ask isn't orderly: it ends all and adds no record.
    pub fn end_all(&mut self, hart: HartId)
        requires { is_live (parts self.old) hart ≡ true }
        ensures run { (run : Run) → IsRun (parts self.old) run → IsRun (parts self.new) (serve_disorderly run).run }
        ensures start { self.new.start ≡ self.old.start }
    {
        let _own = &self.trace.harts[hart as usize];
        end_each(&mut self.trace.harts);
        self.turns += 1;
    }

    /// No hart is live any more; nothing else changes.
    pub fn halt(&mut self)
        ensures run { (run : Run) → IsRun (parts self.old) run → IsRun (parts self.new) (halted run) }
        ensures start { self.new.start ≡ self.old.start }
    {
        end_each(&mut self.trace.harts);
    }

    /// The machine before its first turn. The only error is out of memory.
    pub fn new(alloc: Global, from: &Start) -> Result<Plain, AllocError>
        ensures run { IfOk result (λ p. IsRun (parts p) (start from.now.settings from.now.image from.now.input.items)) }
        ensures image { IfOk result (λ p. p.start.image ≡ from.now.image) }
        ensures settings { IfOk result (λ p. p.start.settings ≡ from.now.settings) }
        ensures input { IfOk result (λ p. p.start.input.items ≡ from.now.input.items) }
        ensures digest { IfOk result (λ p. p.start.digest ≡ from.now.digest) }
    {
        let start = from.copy(alloc)?;
        let machine = Machine::new(alloc, &from.image)?;
        let trace = Trace::new(alloc, &from.settings, &from.image)?;
        Ok(Plain {
            start,
            machine,
            trace,
            turns: 0,
        })
    }

    /// Whether there is such a hart, and it has not ended.
    pub fn live(&self, hart: HartId) -> bool
        ensures value { result ≡ is_live (parts self.now) hart }
        ensures run { (run : Run) → IsRun (parts self.now) run → result ≡ runs.is_live self.now.start.settings run hart }
        ensures left { is_live (parts self.now) hart ≡ true → self.now.turns < most_turns self.now.start.settings }
    {
        match self.trace.harts.get(usize::from(hart)) {
            Some(hart) => hart.live,
            None => false,
        }
    }

    /// A hart between two turns.
    pub fn hart(&self, hart: HartId) -> Option<&Hart>
        ensures { (run : Run) → IsRun (parts self.now) run → MatchOption result (self.now.start.settings.harts ≤ hart) (λ h. h.now ≡ run.harts hart) }
    {
        self.trace.harts.get(usize::from(hart))
    }

    /// The bytes of output stream 1.
    pub fn out(&self) -> &[u8]
        ensures { (run : Run) → IsRun (parts self.now) run → result.now ≡ run.machine.out }
    {
        self.machine.out()
    }

    /// The bytes of output stream 2.
    pub fn err(&self) -> &[u8]
        ensures { (run : Run) → IsRun (parts self.now) run → result.now ≡ run.machine.err }
    {
        self.machine.err()
    }

    /// How many turns were taken.
    pub fn turns(&self) -> u64
        ensures value { (run : Run) → IsRun (parts self.now) run → result ≡ run.turns }
        ensures most { result ≤ most_turns self.now.start.settings }
    {
        self.turns
    }

    /// How many instructions a hart may do before its next cut.
    pub fn budget(&self, hart: HartId) -> u64
        requires { hart < self.now.start.settings.harts }
        ensures { result ≡ budget self.now.start.settings (hart_in self.now.trace.harts.items hart) }
    {
        self.trace.harts[hart as usize].budget(&self.start.settings)
    }

    /// A hart's state, as its last served ask left it.
    pub fn state(&self, hart: HartId) -> &HartState
        requires { hart < self.now.start.settings.harts }
        ensures { result.now ≡ (hart_in self.now.trace.harts.items hart).state }
    {
        &self.trace.harts[hart as usize].state
    }

    /// What it began with.
    pub fn start(&self) -> &Start
        ensures { result.now ≡ self.now.start }
    {
        &self.start
    }

    /// Takes out what was recorded. It takes no memory.
    pub fn into_recorded(self) -> Recorded
        ensures harts { result.harts ≡ (parts self).trace.harts }
        ensures count { length result.harts.items ≡ self.start.settings.harts }
        ensures ring { result.ring ≡ (parts self).trace.log.ring }
        ensures size { result.ring.size ≡ self.start.settings.log_size }
        ensures out { result.out.items ≡ (parts self).machine.out }
        ensures err { result.err.items ≡ (parts self).machine.err }
        ensures turns { result.turns ≡ (parts self).turns }
    {
        let Plain {
            start: _,
            machine,
            trace,
            turns,
        } = self;
        let Trace { harts, log, .. } = trace;
        let Streams { out, err } = machine.into_streams();
        Recorded {
            harts,
            ring: log.ring.into_ring(),
            out,
            err,
            turns,
        }
    }
}
