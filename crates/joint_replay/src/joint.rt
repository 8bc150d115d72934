//! The joint replay of all retained intervals: `Joint`, and what each call promises of an allowed order.
ghost use Rattle.std.specs.Prelude.{◌≡◌, ◌<◌, ◌+◌, ◌==◌, ◌&&◌, ◌++◌, not, [], ◌∷◌, length, take, replicate, slice_get, Some, None, IfOk, IfErr, OnOk, MatchOption};
ghost use Rattle.joint_replay.specs.declared.kinds.Readiness.TheVariants.{Ready};
ghost use Rattle.joint_replay.specs.declared.error.JointError.TheVariants.{OutOfMemory};
ghost use Rattle.joint_replay.specs.Points.{sources_into};
ghost use Rattle.joint_replay.specs.Joining.{fresh, is_passed, first_waited, waits_for, readiness, coming, choice, positions_from, error_of};
ghost use Rattle.joint_replay.specs.Memory.{word_in, known_from};
ghost use Rattle.joint_replay.specs.Calls.{Steps, state_at, RanOut, IsReached};
ghost use Rattle.joint_replay.specs.Together.{ArePassed, AreBegun};
ghost use Rattle.joint_replay.specs.Sources.{edges_into};
ghost use Rattle.joint_replay.specs.Merges.{IsAtMerge};
ghost use Rattle.joint_replay.specs.Sound.{IsSound};
ghost use Rattle.joint_replay.specs.Lanes.{lane_of};
ghost use Rattle.joint_replay.specs.Moves.{told};

use crate::error::JointError;
use crate::incoming_edges::IncomingEdge;
use crate::kinds::{Coming, Next, Readiness, Stepped};
use crate::lane::{Did, Lane, Moved};
use crate::laws::{ready_harts_are_admitted, starts_are_sound, walks_are_merges};
use crate::replay_memory::ReplayMemory;
use bn_base::{Addr, HartId, HartState, Ic, Image, List};
use hart_replay::ReplayError;
use log_order::KeptLog;
use std::alloc::{AllocError, Global};
use std::marker::Model;

/// The replay of all retained intervals together, in an order that the log's Edges allow.
///
/// Contracts see what each hart has left to do, and the known words of the joint memory. After a
/// refusal each step answers the same one.
#[derive(Drop)]
pub struct Joint<'a> {
    image: &'a Image,
    log: &'a KeptLog,
    harts: HartId,
    lanes: Vec<Lane<'a>>,
    /// Of the Edges into each hart, how many, from the first one on, have passed sources.
    met: Vec<usize>,
    memory: ReplayMemory,
    refused: Option<ReplayError>,
}

impl<'a> Model for Joint<'a> {
    ghost use Rattle.joint_replay.specs.Joining.{Joining};
    ghost use Rattle.joint_replay.specs.Together.{joining, IsTogether, AreMet};

    ghost Value = { Joining };

    ghost view = { λ j. joining j.image.now j.log.now.records j.lanes.items j.memory.words j.refused };

    ghost invariant = { λ j. IsTogether j.image.now j.log.now j.harts j.lanes.items j.memory.words j.refused × AreMet j.log.now.records j.lanes.items j.met.items };
}

impl<'a> Joint<'a> {
    /// The joint replay of a log with a program, before its first step. The only error is out of
    /// memory.
    pub fn begin(alloc: Global, image: &'a Image, log: &'a KeptLog) -> Result<Joint<'a>, JointError>
        ensures fresh { IfOk result (λ j. j ≡ fresh image.now log.now.head.settings.harts log.now.records) }
        ensures refused { IfErr result (λ e. e ≡ OutOfMemory) }
    {
        match all_lanes(alloc, image, log) {
            Ok(lanes) => match none_met(alloc, lanes.len()) {
                Ok(met) => Ok(Joint {
                    image,
                    log,
                    harts: log.head().settings.harts(),
                    lanes,
                    met,
                    memory: ReplayMemory::new(alloc),
                    refused: None,
                }),
                Err(_) => Err(JointError::OutOfMemory),
            },
            Err(_) => Err(JointError::OutOfMemory),
        }
    }

    /// Takes the next step of a hart that is ready.
    ///
    /// The replay of the hart's interval may be refused there, or run out of memory. After that each
    /// step answers the same, and all else stays.
    pub fn step(&mut self, hart: HartId) -> Result<Stepped, JointError>
        requires there { hart < length self.old.lanes }
        requires ready { readiness self.old hart ≡ Ready }
        ensures { Steps self.old hart result self.new }
    {
        let mut did = Did::blank();
        match self.step_into(hart, &mut did) {
            Ok(moved) => Ok(did.stepped(hart, moved)),
            Err(error) => Err(error),
        }
    }

    /// As `step`; its row, if it has one, is written to `did`.
    #[inline(always)]
    pub(crate) fn step_into(&mut self, hart: HartId, did: &mut Did) -> Result<Moved, JointError>
        requires there { hart < length self.old.lanes }
        requires ready { readiness self.old hart ≡ Ready }
        ensures { Steps self.old hart (told hart result did.new) self.new }
    {
        match self.refused {
            Some(refusal) => Err(error_of(refusal)),
            None => match self.take(hart, did) {
                Ok(moved) => {
                    self.pass_sources(hart);
                    Ok(moved)
                }
                Err(error) => Err(error),
            },
        }
    }

    // The step, if none was refused so far.
    #[inline(always)]
    fn take(&mut self, hart: HartId, did: &mut Did) -> Result<Moved, JointError>
        requires there { hart < length self.old.lanes }
        requires ready { readiness self.old hart ≡ Ready }
        requires none { self.old.refused ≡ None }
        ensures { Steps self.old hart (told hart result did.new) self.new }
    {
        self.keeps_passed();
        // Room for the row's words is made before the hart steps, so that out of memory here leaves the hart unchanged,
        // and a refusal of the step is told first.
        if self.memory.make_room().is_err() {
            let refusal = self.lanes[hart as usize].starve();
            self.refused = Some(refusal);
            return Err(error_of(refusal));
        }
        match self.lanes[hart as usize].step(did) {
            Err(refusal) => {
                self.refused = Some(refusal);
                Err(error_of(refusal))
            }
            Ok(moved) => {
                self.memory.note(moved, did);
                Ok(moved)
            }
        }
    }

    // If no step was refused, the sources of passed targets are passed. This does nothing.
    fn keeps_passed(&self)
        requires { self.now.refused ≡ None }
        ensures { IsSound self.now }
    {
        starts_are_sound();
        let _head = self.log.head();
    }

    // Moves past the Edges whose sources are passed since a hart moved.
    #[inline(always)]
    fn pass_sources(&mut self, moved: HartId)
        ensures { self.new ≡ self.old }
    {
        // One hart waits for none, as a log that was recorded has no Edges then.
        if self.lanes.len() == 1 && self.lanes[0].edges().is_empty() {
            return;
        }
        for hart in 0..self.harts() {
            self.pass_sources_into(hart, moved);
        }
    }

    // Moves past those of them that lead into a hart.
    #[tactic(auto, using(crate::proofs::MetSources::met_passed, crate::proofs::MetSources::met_more))]
    fn pass_sources_into(&mut self, hart: HartId, moved: HartId)
        requires { hart < length self.old.lanes }
        ensures { self.new ≡ self.old }
    {
        let met = self.met[hart as usize];
        let place = self.first_unpassed(hart, met, moved);
        self.met[hart as usize] = place;
    }

    // How many Edges into a hart from its first on have sources that are passed. `met` are known to be; the source of
    // the next one wasn't before `moved` took its step, so it isn't now either if it is another hart's.
    fn first_unpassed(&self, hart: HartId, met: usize, moved: HartId) -> usize
        requires there { hart < length self.now.lanes }
        requires before { ArePassed self.now.lanes (take met (edges_into hart self.now.records)) }
        ensures { ArePassed self.now.lanes (take result (edges_into hart self.now.records)) }
    {
        let sources = self.lanes[hart as usize].edges();
        if met < sources.len() && sources[met].hart != moved {
            return met;
        }
        for place in met..sources.len() {
            let source = sources[place];
            if !self.is_passed(source.hart, source.ic) {
                return place;
            }
        }
        sources.len()
    }

    /// An allowed order of steps led here. This does nothing.
    pub fn reached(&self)
        ensures { IsReached (length self.now.lanes) self.now }
    {
        let _harts = self.harts;
    }

    /// The steps that led here are a prefix of a merge of the harts' lists in which each point stands
    /// after the sources of the kept Edges into it. A hart is ready if the order with its next item is
    /// such a prefix again. This does nothing.
    pub fn merged(&self)
        ensures { IsAtMerge (length self.now.lanes) self.now }
    {
        walks_are_merges();
        ready_harts_are_admitted();
        let _head = self.log.head();
    }

    /// How many harts there are.
    pub fn harts(&self) -> u8
        ensures { result ≡ length self.now.lanes }
    {
        self.harts
    }

    /// What comes next of a hart; `None` if it is done.
    pub fn coming(&self, hart: HartId) -> Option<Coming>
        requires { hart < length self.now.lanes }
        ensures { result ≡ coming self.now hart }
    {
        self.lanes[hart as usize].coming()
    }

    /// The state of a hart, if an interval of it is under way.
    pub fn state(&self, hart: HartId) -> Option<&HartState>
        requires { hart < length self.now.lanes }
        ensures { MatchOption result (state_at self.now hart ≡ None) (λ s. state_at self.now hart ≡ Some s.now) }
    {
        self.lanes[hart as usize].state()
    }

    /// What the joint memory has of the word at an address, which is a multiple of 4.
    pub fn word(&self, addr: Addr) -> Option<u32>
        ensures { result ≡ word_in self.now.memory addr }
    {
        self.memory.word(addr)
    }

    /// The first known word of the joint memory at this address or above it; `None` if there is none.
    ///
    /// A walk along all known words by such calls takes time linear in the number of words up to the
    /// highest one that was ever known.
    pub fn known_from(&self, from: u64) -> Option<(Addr, u32)>
        ensures { MatchOption result (known_from from self.now.memory ≡ []) (λ m. known_from from self.now.memory ≡ m ∷ known_from (m.0 + 4) self.now.memory) }
    {
        self.memory.known_from(from)
    }

    /// The refusal that each step repeats, if there was one.
    pub(crate) fn refusal(&self) -> Option<ReplayError>
        ensures { result ≡ self.now.refused }
    {
        self.refused
    }

    /// Stops it as out of memory.
    pub(crate) fn halt(&mut self)
        ensures { RanOut self.old self.new }
    {
        self.refused = Some(ReplayError::OutOfMemory);
    }

    /// The harts that aren't done, each with its next count.
    pub fn positions(&self) -> Result<List<(HartId, Ic)>, AllocError>
        ensures { IfOk result (λ found. found ≡ positions_from 0 self.now.lanes) }
    {
        let mut found = Vec::new(*self.lanes.allocator());
        for hart in 0..self.harts {
            if let Some(coming) = self.coming(hart) {
                found.push((hart, coming.ic()))?;
            }
        }
        Ok(List::from_vec(found))
    }

    fn is_passed(&self, hart: HartId, ic: Ic) -> bool
        ensures { result ≡ is_passed (slice_get self.now.lanes hart) ic }
    {
        if hart < self.harts {
            match self.lanes[hart as usize].coming() {
                None => true,
                Some(coming) => ic < coming.ic(),
            }
        } else {
            true
        }
    }

    // Whether an Edge leads into this instruction, and its source isn't passed.
    fn holds_back(&self, source: IncomingEdge, ic: Ic) -> bool
        ensures { result ≡ (source.target == ic && not (is_passed (slice_get self.now.lanes source.hart) source.ic)) }
    {
        source.target == ic && !self.is_passed(source.hart, source.ic)
    }

    // Whether the sources of all Edges into an instruction of a hart are passed; the first in log
    // order that isn't.
    fn waits(&self, hart: HartId, ic: Ic) -> Readiness
        requires { hart < length self.now.lanes }
        ensures { result ≡ waits_for (first_waited self.now.lanes (sources_into self.now.records hart ic)) }
    {
        let sources = self.lanes[hart as usize].edges();
        for place in self.met[hart as usize]..sources.len() {
            let source = sources[place];
            if source.target > ic {
                return Readiness::Ready;
            }
            if self.holds_back(source, ic) {
                return Readiness::Waits {
                    hart: source.hart,
                    ic: source.ic,
                };
            }
        }
        Readiness::Ready
    }

    /// Whether a hart can take its next step. If that is at a point, the sources of all kept Edges into it
    /// have to be passed; `Waits` names the first in log order that isn't.
    #[inline(always)]
    pub fn ready(&self, hart: HartId) -> Readiness
        requires { hart < length self.now.lanes }
        ensures { result ≡ readiness self.now hart }
    {
        let lane = &self.lanes[hart as usize];
        match lane.point() {
            // Nearly each step is at a point, and then there is one.
            Some(ic) => self.waits(hart, ic),
            None => match lane.coming() {
                None => Readiness::Done,
                Some(_) => Readiness::Ready,
            },
        }
    }

    /// The lowest hart that is ready.
    #[inline(always)]
    pub fn next(&self) -> Next
        ensures { result ≡ choice self.now }
    {
        let mut waiting = false;
        for hart in 0..self.harts {
            match self.ready(hart) {
                Readiness::Ready => return Next::Hart(hart),
                Readiness::Waits { .. } => waiting = true,
                Readiness::Done => (),
            }
        }
        if waiting {
            Next::NoneReady
        } else {
            Next::AllDone
        }
    }

    /// An equal joint replay, of the same program and log. It takes memory in proportion to what this
    /// one holds, and fails only when out of memory.
    pub fn copy(&self) -> Result<Joint<'a>, AllocError>
        ensures { IfOk result (λ j. j ≡ self.now) }
    {
        let met = Vec::from_slice(*self.met.allocator(), &self.met)?;
        let memory = self.memory.copy()?;
        match copy_lanes(&self.lanes) {
            Err(error) => Err(error),
            Ok(lanes) => Ok(Joint {
                image: self.image,
                log: self.log,
                harts: self.harts,
                lanes,
                met,
                memory,
                refused: self.refused,
            }),
        }
    }
}

fn push_copy<'a>(lane: &Lane<'a>, copies: &mut Vec<Lane<'a>>) -> Result<(), AllocError>
    ensures { OnOk result (copies.new.items ≡ copies.old.items ++ lane.now ∷ []) }
{
    copies.reserve(1)?;
    match lane.copy() {
        Err(error) => Err(error),
        Ok(copy) => {
            copies.push_reserved(copy);
            Ok(())
        }
    }
}

fn copy_lanes<'a>(lanes: &Vec<Lane<'a>>) -> Result<Vec<Lane<'a>>, AllocError>
    ensures { IfOk result (λ copies. copies.items ≡ lanes.now.items) }
{
    let mut copies = Vec::new(*lanes.allocator());
    for hart in 0..lanes.len() {
        push_copy(&lanes[hart], &mut copies)?;
    }
    Ok(copies)
}

// No Edge into any of so many harts is known to have a passed source.
fn none_met(alloc: Global, harts: usize) -> Result<Vec<usize>, AllocError>
    ensures { IfOk result (λ met. met.items ≡ replicate harts 0) }
{
    vec![in alloc; 0; harts]
}

// Appends a hart before its first step.
fn push_begun<'a>(
    alloc: Global,
    image: &'a Image,
    log: &'a KeptLog,
    hart: HartId,
    lanes: &mut Vec<Lane<'a>>,
) -> Result<(), AllocError>
    requires { hart < log.now.head.settings.harts }
    ensures { OnOk result (lanes.new.items
        ≡ lanes.old.items ++ (record { program = image.now; records = log.now.records; hart = hart; lane = lane_of image.now log.now.records hart }) ∷ []) }
{
    lanes.reserve(1)?;
    match Lane::begin(alloc, image, log, hart) {
        Err(error) => Err(error),
        Ok(lane) => {
            lanes.push_reserved(lane);
            Ok(())
        }
    }
}

// All harts before their first steps.
fn all_lanes<'a>(
    alloc: Global,
    image: &'a Image,
    log: &'a KeptLog,
) -> Result<Vec<Lane<'a>>, AllocError>
    ensures { IfOk result (λ lanes. AreBegun image.now log.now.records log.now.head.settings.harts lanes.items) }
{
    let mut lanes = Vec::new(alloc);
    for hart in 0..log.head().settings.harts() {
        push_begun(alloc, image, log, hart, &mut lanes)?;
    }
    Ok(lanes)
}

/// How the refusal of a replay is told.
pub(crate) fn error_of(refusal: ReplayError) -> JointError
    ensures { result ≡ error_of refusal }
{
    match refusal {
        ReplayError::NoInterval { .. } => JointError::Replay(refusal),
        ReplayError::LoadMissing { .. } => JointError::Replay(refusal),
        ReplayError::ScMissing { .. } => JointError::Replay(refusal),
        ReplayError::RecordsLeft { .. } => JointError::Replay(refusal),
        ReplayError::EndDiffers { .. } => JointError::Replay(refusal),
        ReplayError::OutOfMemory => JointError::OutOfMemory,
    }
}
