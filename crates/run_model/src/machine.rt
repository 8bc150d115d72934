//! The machine that all harts share, as it runs: it answers asks. `specs/Machine.antt` pins the answers.
ghost use Rattle.std.specs.Prelude.{◌≡◌, ◌≤◌, ◌<◌, ◌+◌, ◌*◌, ◌/◌, ◌^◌, ◌==◌, ℕ, IsTrue, true, List, length, slice_index, vec_len, IfOk, OnOk, Option, None, Some};
ghost use Rattle.run_model.specs.Common.{Program, passes, is_reply_to, aligned, stored_word, Reply, System, StoreConditional, Cut, is_aligned, Read, Write, stream_size, IsWithin, updated, has_page};
ghost use Rattle.bn_base.specs.declared.settings.TheConstants.{HARTS};
ghost use Rattle.rv_meaning.specs.declared.asks.Reply.TheVariants as replies;
ghost use Rattle.system_calls.specs.declared.effect.Plan.TheVariants as plans;
ghost use Rattle.bus_memory.specs.Contents.{Contents};
ghost use Rattle.run_model.specs.Machine.{Machine as Meant, answered, with_memory, with_reserved, reserving, others_lose, answer, answer_call, answer_access, answer_amo, answer_sc, answer_store};
ghost use Rattle.run_model.specs.Machine.{call_of, cut_reply, is_reserved, word_count};
ghost use Rattle.run_model.specs.Turn.{loading, word_before, span_of, call_span, span};
ghost use Rattle.run_model.specs.Runs.{start_machine};
ghost use Rattle.run_model.specs.Represents.Parts.{MachineParts, IsMachine, IsPlanned, IsSameMachine, AreWordsIn, AreWordsReady, AreAddresses, IsSpanReady, has_width, HasCallRoom, HasPlanRoom};
ghost use Rattle.run_model.specs.Represents.Parts.{HasStreamRoom, HasRoom, IsAnswer, size_of, kernel_in};

mod bytes;
mod reservations;

use crate::span::{Span, loading, word_count};
use bn_base::{Addr, HartId, Ic, Image, Settings};
use bus_memory::Memory;
use bytes::{fill, send};
use race_log::Mode;
use reservations::Reservations;
use rv_meaning::{AmoOp, Ask, Reply, Want, stored_word};
use std::alloc::{AllocError, Global};
use std::marker::Model;
use system_calls::{Kernel, Plan, plan};

/// The machine that all harts share: memory, the harts' reservations, the program break, how much of
/// the input was taken, and the two output streams.
///
/// Contracts see these parts, and say by `IsMachine` which machines of the definition they represent,
/// the whole input being given. An ask is answered in steps: `call` plans its system call, if it is one;
/// `pages` and `stream_room` find the memory that the answer needs; and `answer` answers it without
/// memory.
#[derive(Drop)]
pub struct Machine {
    memory: Memory,
    reservations: Reservations,
    brk: Addr,
    // How many bytes of the input were taken.
    taken: usize,
    out: Vec<u8>,
    err: Vec<u8>,
}

impl Model for Machine {
    ghost use Rattle.std.specs.Prelude.{◌≤◌, ◌*◌, ◌^◌, length, vec_len, vec_capacity};
    ghost use Rattle.system_calls.specs.Calls.{stream_size};
    ghost use Rattle.run_model.specs.Represents.Parts.{MachineParts, size_of};

    ghost Value = { MachineParts };

    ghost view = { λ s. record { memory = s.memory; reserved = s.reservations; brk = s.brk; taken = s.taken; out = s.out.items; err = s.err.items; out_room = vec_capacity s.out; err_room = vec_capacity s.err } };

    ghost invariant = { λ s. (4 * length s.memory.words ≤ 2 ^ 26) × (vec_len s.out ≤ stream_size) × (vec_len s.err ≤ stream_size) };
}

/// The two output streams of a machine.
#[derive(Drop)]
pub struct Streams {
    pub out: Vec<u8>,
    pub err: Vec<u8>,
}

impl Machine {
    /// The machine of a program before it runs. The only error is out of memory.
    pub fn new(alloc: Global, image: &Image) -> Result<Machine, AllocError>
        ensures stands { IfOk result (λ p. (input : List ℕ) → IsMachine input p (start_machine image.now input)) }
        ensures size { IfOk result (λ p. size_of p ≡ image.now.memory) }
    {
        let _memory = image.memory();
        Ok(Machine {
            memory: Memory::new(alloc, image)?,
            reservations: Reservations::new(),
            brk: image.heap_start(),
            taken: 0,
            out: Vec::new(alloc),
            err: Vec::new(alloc),
        })
    }

    // What a system call sees of the machine.
    fn kernel(&self, input: &[u8]) -> Kernel
        ensures { result ≡ kernel_in input.now self.now }
    {
        Kernel {
            brk: self.brk,
            input_left: input.len().saturating_sub(self.taken) as u64,
            out_len: self.out.len() as u64,
            err_len: self.err.len() as u64,
        }
    }

    /// The system call that is planned for an ask, if it asks for one.
    pub fn call(&self, image: &Image, input: &[u8], want: &Want) -> Option<Plan>
        ensures value { (m : Meant) → IsMachine input.now self.now m → result ≡ call_of image.now m want.now }
        ensures planned { IsPlanned image.now input.now self.now result want.now }
    {
        match want {
            Want::System { number, args } => {
                Some(plan(*number, *args, &self.kernel(input), image))
            }
            _ => None,
        }
    }

    /// The word of a loading access as it is before it, 0 if there is none.
    #[inline(always)]
    pub fn word_before(&self, image: &Image, want: &Want) -> u32
        requires size { size_of self.now ≡ image.now.memory }
        requires passes { IsTrue (passes image.now want.now) }
        ensures { (input : List ℕ) (m : Meant) → IsMachine input self.now m → result ≡ word_before m.memory (loading want.now) }
    {
        match loading(want) {
            Some(addr) => self.memory.word(addr),
            None => 0,
        }
    }

    /// The program break.
    pub fn brk(&self) -> Addr
        ensures { result ≡ self.now.brk }
    {
        self.brk
    }

    /// How many bytes of the input were taken.
    pub fn taken(&self) -> usize
        ensures { result ≡ self.now.taken }
    {
        self.taken
    }

    /// What was put out on the first stream.
    pub fn out(&self) -> &[u8]
        ensures value { result.now ≡ self.now.out }
        ensures bound { length self.now.out ≤ stream_size }
    {
        self.out.as_slice()
    }

    /// What was put out on the second stream.
    pub fn err(&self) -> &[u8]
        ensures value { result.now ≡ self.now.err }
        ensures bound { length self.now.err ≤ stream_size }
    {
        self.err.as_slice()
    }

    /// Takes the two streams out.
    pub fn into_streams(self) -> Streams
        ensures out { result.out.items ≡ self.out }
        ensures err { result.err.items ≡ self.err }
    {
        Streams {
            out: self.out,
            err: self.err,
        }
    }
}

impl Machine {
    /// Makes the pages of the words that an ask may write. The machine stays as it is, also on `Err`, and
    /// the only error is out of memory. The ask passes the program's tests, so the words that it accesses
    /// are addresses, whatever the reply.
    #[tactic(auto, using(crate::proofs::Spans::accessed_addresses))]
    pub fn pages(
        &mut self,
        image: &Image,
        input: &[u8],
        call: Option<Plan>,
        want: &Want,
    ) -> Result<(), AllocError>
        requires size { size_of self.old ≡ image.now.memory }
        requires passes { IsTrue (passes image.now want.now) }
        requires planned { IsPlanned image.now input.now self.old call want.now }
        ensures ready { OnOk result (AreWordsReady self.new.memory (span_of call want.now replies.ScOk)) }
        ensures width { IsTrue (has_width want.now) }
        ensures planned { IsPlanned image.now input.now self.new call want.now }
        ensures same { IsSameMachine self.old self.new }
        ensures stands { (m : Meant) → IsMachine input.now self.old m → IsMachine input.now self.new m }
        ensures size { size_of self.new ≡ size_of self.old }
        ensures addresses { (reply : Reply) → AreAddresses (span_of call want.now reply) }
    {
        let _memory = image.memory();
        self.make_pages(Span::of(call, want, Reply::ScOk))
    }

    /// Finds room in the stream that a planned call sends to. The machine stays as it is, also on `Err`,
    /// and the only error is out of memory.
    pub fn stream_room(
        &mut self,
        image: &Image,
        input: &[u8],
        call: Option<Plan>,
        want: &Want,
    ) -> Result<(), AllocError>
        requires planned { IsPlanned image.now input.now self.old call want.now }
        ensures plan { OnOk result (HasPlanRoom input.now self.new call want.now) }
        ensures memory { self.new.memory ≡ self.old.memory }
        ensures same { IsSameMachine self.old self.new }
        ensures stands { (m : Meant) → IsMachine input.now self.old m → IsMachine input.now self.new m }
        ensures size { size_of self.new ≡ size_of self.old }
    {
        match call {
            Some(plan) => self.find_call_room(image, input, plan),
            None => Ok(()),
        }
    }

    // Makes the pages of words that are written.
    fn make_pages(&mut self, words: Option<Span>) -> Result<(), AllocError>
        requires { AreWordsIn self.old.memory words }
        ensures within { AreWordsIn self.old.memory words }
        ensures ready { OnOk result (AreWordsReady self.new.memory words) }
        ensures same { IsSameMachine self.old self.new }
        ensures rooms { (self.new.out_room ≡ self.old.out_room) × (self.new.err_room ≡ self.old.err_room) }
    {
        match words {
            Some(
                Span {
                    first,
                    count,
                    mode: Mode::Write,
                },
            ) => self.memory.room(first, count),
            _ => Ok(()),
        }
    }

    // Makes room in the stream that a call sends to.
    fn find_call_room(&mut self, image: &Image, input: &[u8], plan: Plan) -> Result<(), AllocError>
        requires { IsWithin plan (kernel_in input.now self.old) image.now }
        ensures room { OnOk result (HasCallRoom input.now self.new plan) }
        ensures same { IsSameMachine self.old self.new }
        ensures memory { self.new.memory ≡ self.old.memory }
    {
        match plan {
            Plan::Send { stream, len, .. } => {
                if stream == 1 {
                    self.out.try_reserve(len as usize)
                } else {
                    self.err.try_reserve(len as usize)
                }
            }
            _ => Ok(()),
        }
    }

    /// Answers what a hart asks: the reply, and the machine after it, are those of the definition. It
    /// takes no memory.
    ///
    /// The reservations are those of RISC-V (unprivileged ISA, 8.2). A hart's write ends the other
    /// harts' ones of its word. An SC ends the hart's own, as does each system call; one that fills
    /// memory ends all that are of the words that it fills.
    pub fn answer(
        &mut self,
        settings: &Settings,
        input: &[u8],
        call: Option<Plan>,
        hart: HartId,
        ask: &Ask,
    ) -> Reply
        requires hart { hart < HARTS }
        requires room { HasRoom input.now self.old call ask.now.want }
        ensures answer { IsAnswer input.now self.old self.new result (λ m. answer settings.now call m hart ask.now) }
        ensures fits { IsTrue (is_reply_to ask.now.want result) }
        ensures size { size_of self.new ≡ size_of self.old }
    {
        match call {
            Some(plan) => self.answer_call(input, plan, hart),
            None => self.answer_access(settings, hart, ask),
        }
    }

    // The answer to an access of memory, or to a cut, which ends a hart at its limit. A fault ends its hart, as does a
    // system call without a plan.
    fn answer_access(&mut self, settings: &Settings, hart: HartId, ask: &Ask) -> Reply
        requires hart { hart < HARTS }
        requires words { AreWordsReady self.old.memory (span_of None ask.now.want replies.ScOk) }
        requires width { IsTrue (has_width ask.now.want) }
        ensures answer { (input : List ℕ) → IsAnswer input self.old self.new result (λ m. answer_access settings.now m hart ask.now) }
        ensures fits { IsTrue (is_reply_to ask.now.want result) }
        ensures size { size_of self.new ≡ size_of self.old }
    {
        match ask.want {
            Want::Load { addr, .. } => Reply::Word(self.memory.word(addr / 4 * 4)),
            Want::LoadReserved { addr, .. } => self.load_reserved(hart, addr),
            Want::Store { addr, width, value } => self.store(hart, addr, width, value),
            Want::StoreConditional { addr, value, .. } => self.store_conditional(hart, addr, value),
            Want::Amo {
                addr,
                op,
                value,
                ..
            } => self.amo(hart, addr, op, value),
            Want::Cut => cut_reply(settings, ask.state.ic),
            Want::System { .. } | Want::Faulted { .. } => Reply::Over,
        }
    }

    fn load_reserved(&mut self, hart: HartId, addr: Addr) -> Reply
        requires hart { hart < HARTS }
        requires word { AreWordsIn self.old.memory (Some (span addr 1 Read)) }
        ensures answer { (input : List ℕ) → IsAnswer input self.old self.new result (λ m. answered (replies.Word (m.memory addr)) (with_reserved (reserving hart (Some addr) m.reserved) m)) }
        ensures reply { result ≡ replies.Word (slice_index self.old.memory.words (addr / 4)) }
        ensures size { size_of self.new ≡ size_of self.old }
    {
        self.reservations.set(hart, Some(addr));
        Reply::Word(self.memory.word(addr))
    }

    // Writes an aligned word: the other harts' reservations of it end.
    #[inline(always)]
    fn write(&mut self, hart: HartId, addr: Addr, value: u32)
        requires { IsSpanReady self.old.memory (span addr 1 Write) }
        ensures stands { (input : List ℕ) (m : Meant) → IsMachine input self.old m → IsMachine input self.new (with_memory (updated addr value m.memory) (others_lose hart addr m.reserved) m) }
        ensures size { size_of self.new ≡ size_of self.old }
    {
        self.memory.put(addr, value);
        self.reservations.end_others(hart, addr);
    }

    /// Whether the page of the word that has the byte at an address is made, so that the word can be written.
    pub(crate) fn is_made(&self, addr: Addr) -> bool
        ensures { result ≡ true → IsSpanReady self.now.memory (span (aligned addr) 1 Write) }
    {
        self.memory.has_page(addr / 4 * 4)
    }

    #[inline(always)]
    pub(crate) fn store(&mut self, hart: HartId, addr: Addr, width: u8, value: u32) -> Reply
        requires word { IsSpanReady self.old.memory (span (aligned addr) 1 Write) }
        requires width { IsTrue (is_aligned addr width) }
        ensures answer { (input : List ℕ) → IsAnswer input self.old self.new result (λ m. answer_store addr width value hart m) }
        ensures reply { result ≡ replies.Stored }
        ensures size { size_of self.new ≡ size_of self.old }
    {
        let place = addr / 4 * 4;
        let word = self.memory.word(place);
        self.write(hart, place, stored_word(addr, width, value, word));
        Reply::Stored
    }

    fn amo(&mut self, hart: HartId, addr: Addr, op: AmoOp, value: u32) -> Reply
        requires { IsSpanReady self.old.memory (span addr 1 Write) }
        ensures answer { (input : List ℕ) → IsAnswer input self.old self.new result (λ m. answer_amo addr op value hart m) }
        ensures reply { result ≡ replies.Word (slice_index self.old.memory.words (addr / 4)) }
        ensures size { size_of self.new ≡ size_of self.old }
    {
        let word = self.memory.word(addr);
        self.write(hart, addr, op.result(word, value));
        Reply::Word(word)
    }

    // Stores if the hart has reserved that word, and ends the reservation.
    fn store_conditional(&mut self, hart: HartId, addr: Addr, value: u32) -> Reply
        requires hart { hart < HARTS }
        requires word { IsSpanReady self.old.memory (span addr 1 Write) }
        ensures answer { (input : List ℕ) → IsAnswer input self.old self.new result (λ m. answer_sc (is_reserved (m.reserved hart) addr) addr value hart m) }
        ensures fits { (rd : ℕ) → IsTrue (is_reply_to (StoreConditional addr rd value) result) }
        ensures size { size_of self.new ≡ size_of self.old }
    {
        if self.reservations.has(hart, addr) {
            self.memory.put(addr, value);
            self.reservations.end_others(hart, addr);
            self.reservations.set(hart, None);
            Reply::ScOk
        } else {
            self.reservations.set(hart, None);
            Reply::ScFailed
        }
    }

    // What a planned call of a hart does; the hart's reservation ends with it.
    fn answer_call(&mut self, input: &[u8], plan: Plan, hart: HartId) -> Reply
        requires hart { hart < HARTS }
        requires words { AreWordsReady self.old.memory (call_span plan) }
        requires room { HasCallRoom input.now self.old plan }
        ensures answer { IsAnswer input.now self.old self.new result (λ m. answer_call plan hart m) }
        ensures fits { (number : ℕ) (args : List ℕ) → IsTrue (is_reply_to (System number args) result) }
        ensures size { size_of self.new ≡ size_of self.old }
    {
        match plan {
            Plan::Fill { addr, len } => self.fill(input, hart, addr, len),
            Plan::Send { stream, addr, len } => self.send(stream, hart, addr, len),
            Plan::Break { value } => {
                self.brk = value;
                self.reservations.set(hart, None);
                Reply::Answer(value)
            }
            Plan::Answer { value } => {
                self.reservations.set(hart, None);
                Reply::Answer(value)
            }
            Plan::EndHart { .. } | Plan::EndRun { .. } => {
                self.reservations.set(hart, None);
                Reply::Over
            }
        }
    }

    fn fill(&mut self, input: &[u8], hart: HartId, addr: Addr, len: u32) -> Reply
        requires hart { hart < HARTS }
        requires words { IsSpanReady self.old.memory (span (aligned addr) (word_count addr len) Write) }
        requires given { self.old.taken + len ≤ length input.now }
        ensures answer { IsAnswer input.now self.old self.new result (λ m. answer_call (plans.Fill addr len) hart m) }
        ensures reply { result ≡ replies.Answer len }
        ensures size { size_of self.new ≡ size_of self.old }
    {
        fill(&mut self.memory, addr, input, self.taken, len);
        self.taken += len as usize;
        self.reservations
            .end_among(addr / 4 * 4, word_count(addr, len));
        self.reservations.set(hart, None);
        Reply::Answer(len)
    }

    fn send(&mut self, stream: u32, hart: HartId, addr: Addr, len: u32) -> Reply
        requires hart { hart < HARTS }
        requires words { IsSpanReady self.old.memory (span (aligned addr) (word_count addr len) Read) }
        requires room { HasStreamRoom (stream == 1) self.old len }
        ensures answer { (input : List ℕ) → IsAnswer input self.old self.new result (λ m. answer_call (plans.Send stream addr len) hart m) }
        ensures reply { result ≡ replies.Answer len }
        ensures size { size_of self.new ≡ size_of self.old }
    {
        self.reservations.set(hart, None);
        if stream == 1 {
            send(&mut self.out, &self.memory, addr, len);
            Reply::Answer(len)
        } else {
            send(&mut self.err, &self.memory, addr, len);
            Reply::Answer(len)
        }
    }
}

// A cut at the limit ends the hart; after any other it continues.
fn cut_reply(settings: &Settings, ic: Ic) -> Reply
    ensures value { result ≡ cut_reply settings.now ic }
    ensures fits { IsTrue (is_reply_to Cut result) }
{
    if settings.limit() <= ic {
        Reply::Over
    } else {
        Reply::Went
    }
}
