//! A joint replay with the steps that led to its state, so that a debugger can go back.
ghost use Rattle.std.specs.Prelude.{◌≡◌, ◌≤◌, ◌<◌, ◌%◌, [], length, slice_get, None, IfOk, IfErr, OnOk, OnErr};
ghost use Rattle.joint_replay.specs.declared.kinds.Readiness.TheVariants.{Ready};
ghost use Rattle.joint_replay.specs.declared.error.JointError.TheVariants.{OutOfMemory};
ghost use Rattle.joint_replay.specs.Joining.{fresh, readiness};
ghost use Rattle.back_step.specs.Traces.{at_start, cut, IsGoneBack};
ghost use Rattle.back_step.specs.Trails.{TrailSteps};

use crate::entry::Entry;
use crate::steps::{is_due, keep_copy, put, replay};
use bn_base::{HartId, Image};
use joint_replay::{Joint, JointError, Stepped};
use log_order::KeptLog;
use std::alloc::{AllocError, Global};
use std::marker::Model;

/// A joint replay that keeps which steps led to its state, so that it can go back to each of them. A
/// position is a number of steps.
///
/// It keeps an entry for each step, and a copy of the joint replay at each position that is a
/// multiple of a number. Such a copy is made before the first step from there.
///
/// Contracts see that number, and the trace: what the joint replay began as, the entries, the first
/// first, and its present state.
#[derive(Drop)]
pub struct Trail<'a> {
    image: &'a Image,
    log: &'a KeptLog,
    every: u64,
    entries: Vec<Entry>,
    joint: Joint<'a>,
    copies: Vec<Joint<'a>>,
}

impl<'a> Model for Trail<'a> {
    ghost use Rattle.joint_replay.specs.Joining.{fresh};
    ghost use Rattle.back_step.specs.Traces.{Trailed};
    ghost use Rattle.back_step.specs.Trails.{trailed, IsTrail};

    ghost Value = { Trailed };

    ghost view = { λ t. trailed t.every (fresh t.image.now t.log.now.head.settings.harts t.log.now.records) t.entries.items t.joint };

    ghost invariant = { λ t. IsTrail t.every (fresh t.image.now t.log.now.head.settings.harts t.log.now.records) t.entries.items t.joint t.copies.items };
}

impl<'a> Trail<'a> {
    /// The joint replay of a log with a program, before its first step. The only error is out of
    /// memory.
    pub fn begin(
        alloc: Global,
        image: &'a Image,
        log: &'a KeptLog,
        every: u64,
    ) -> Result<Trail<'a>, JointError>
        requires { 0 < every }
        ensures fresh { IfOk result (λ t. t ≡ record { every = every; trace = at_start (fresh image.now log.now.head.settings.harts log.now.records) }) }
        ensures refused { IfErr result (λ e. e ≡ OutOfMemory) }
    {
        match Joint::begin(alloc, image, log) {
            Err(error) => Err(error),
            Ok(joint) => Ok(Trail {
                image,
                log,
                every,
                entries: Vec::new(alloc),
                joint,
                copies: Vec::new(alloc),
            }),
        }
    }

    /// The joint replay in its present state.
    pub fn joint(&self) -> &Joint<'a>
        ensures { result.now ≡ self.now.trace.now }
    {
        &self.joint
    }

    /// How many steps led here.
    pub fn position(&self) -> u64
        ensures { result ≡ length self.now.trace.entries }
    {
        self.entries.len() as u64
    }

    /// The step from a position; `None` if that isn't below the present one.
    pub fn entry(&self, position: u64) -> Option<Entry>
        ensures { result ≡ slice_get self.now.trace.entries position }
    {
        if position < self.entries.len() as u64 {
            Some(self.entries[position as usize])
        } else {
            None
        }
    }

    /// The entries are those of the steps that lead here from a fresh joint replay, and `joint` shows
    /// what that shows after them. This does nothing.
    pub fn came(&self)
        ensures { IsGoneBack self.now.trace }
    {
        let _every = self.every;
    }

    /// Takes the next step of a hart that is ready, as the joint replay does, and keeps its entry. At
    /// a position that is to have a copy, and has none, that is made first.
    ///
    /// If there is no memory for the copy or the entry, nothing changes. If the joint replay refuses
    /// the step, there is no entry, and it repeats the refusal until a `seek`.
    pub fn step(&mut self, hart: HartId) -> Result<Stepped, JointError>
        requires there { hart < length self.old.trace.now.lanes }
        requires ready { readiness self.old.trace.now hart ≡ Ready }
        ensures { TrailSteps self.old hart result self.new }
    {
        let position = self.entries.len() as u64;
        let due = is_due(self.every, position, self.copies.len() as u64);
        if keep_copy(&self.joint, &mut self.copies, due).is_err() {
            return Err(JointError::OutOfMemory);
        }
        if self.entries.reserve(1).is_err() {
            return Err(JointError::OutOfMemory);
        }
        match self.joint.step(hart) {
            Err(error) => Err(error),
            Ok(stepped) => {
                put(&mut self.entries, Entry::of(hart, &stepped));
                Ok(stepped)
            }
        }
    }

    /// Goes back to an earlier position, and gives up the entries and copies after it. A refusal is
    /// forgotten. It answers how many steps were taken again, which are those from the latest copy that
    /// isn't after the position.
    ///
    /// When out of memory, nothing changes.
    pub fn seek(&mut self, to: u64) -> Result<u64, AllocError>
        requires { to ≤ length self.old.trace.entries }
        ensures steps { IfOk result (λ n. n ≡ to % self.old.every) }
        ensures there { OnOk result (self.new ≡ record self.old { trace = cut self.old.trace to }) }
        ensures forgotten { OnOk result (self.new.trace.now.refused ≡ None) }
        ensures same { OnErr result (self.new ≡ self.old) }
    {
        let position = self.entries.len() as u64;
        if to == position && is_due(self.every, position, self.copies.len() as u64) {
            return Ok(0);
        }
        let place = (to / self.every) as usize;
        let past = to % self.every;
        let steps = &self.entries[(to - past) as usize..to as usize];
        let taken = steps.len() as u64;
        self.joint = replay(&self.copies[place], steps)?;
        self.entries.truncate(to as usize);
        self.copies.truncate(place + 1);
        Ok(taken)
    }
}
