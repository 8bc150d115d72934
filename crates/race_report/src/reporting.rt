//! `report`: a joint replay is run to its end, and its rows' races are gathered.
ghost use Rattle.std.specs.Prelude.{◌≡◌, ◌<◌, [], ℕ, length, None, IfErr};
ghost use Rattle.std.specs.Option.{option_map};
ghost use Rattle.joint_replay.specs.declared.kinds.Next.TheVariants.{Hart, NoneReady};
ghost use Rattle.joint_replay.specs.Joining.{Joining, choice};
ghost use Rattle.joint_replay.specs.Calls.{state_at};
ghost use Rattle.race_report.specs.declared.error.RaceError.TheVariants.{OutOfMemory};
ghost use Rattle.race_report.specs.Points.{asked_by};
ghost use Rattle.race_report.specs.Reports.{IsReport, TellsReport, Stops, RanOutOfMemory, IsUnrefused, Advances, TakesRow, HasState, IsOnTheWay, Gathers, GathersRest, GathersInto, joint_of};
ghost use Rattle.race_report.specs.Gathering.{IsGathered};

use crate::calls::Asked;
use crate::error::RaceError;
use crate::gathered::Gathered;
use crate::race::Race;
use bn_base::{HartId, Image, List, Row};
use joint_replay::laws::runs_go_by_steps;
use joint_replay::{Joint, JointError, Next, Stepped};
use log_order::KeptLog;
use rv_text::{RowLines, Text};
use std::alloc::Global;

// How an error of the joint replay is told.
fn told_as(error: JointError) -> RaceError
    ensures { TellsReport error result }
{
    match error {
        JointError::OutOfMemory => RaceError::OutOfMemory,
        JointError::Replay(refusal) => RaceError::Joint(JointError::Replay(refusal)),
        JointError::Stuck { positions } => RaceError::Joint(JointError::Stuck { positions }),
    }
}

// What a hart asks of a system call, if an interval of it is under way.
fn asked_in(joint: &Joint, hart: HartId) -> Option<Asked>
    requires { hart < length joint.now.lanes }
    ensures { result ≡ option_map asked_by (state_at joint.now hart) }
{
    match joint.state(hart) {
        None => None,
        Some(state) => Some(Asked::by(state)),
    }
}

// Takes in a row.
fn take_row(
    gathered: &mut Gathered,
    hart: HartId,
    asked: Option<Asked>,
    row: &Row,
    most: u64,
) -> Result<(), RaceError>
    requires { HasState hart most gathered.old }
    ensures { TakesRow hart most asked row.now gathered.old result gathered.new }
{
    match asked {
        None => Ok(()),
        Some(asked) => match gathered.take_row(hart, asked, row, most) {
            Ok(()) => Ok(()),
            Err(_) => Err(RaceError::OutOfMemory),
        },
    }
}

// Takes the next step of the lowest ready hart, and takes in its row, if it did one.
fn advance(
    joint: &mut Joint,
    gathered: &mut Gathered,
    hart: HartId,
    most: u64,
) -> Result<(), RaceError>
    requires none { joint.old.refused ≡ None }
    requires lowest { choice joint.old ≡ Hart hart }
    requires state { HasState hart most gathered.old }
    ensures advances { Advances hart most joint.old gathered.old result joint.new gathered.new }
    ensures memory { IfErr result (λ e. e ≡ OutOfMemory → IsUnrefused joint.new) }
{
    runs_go_by_steps();
    let asked = asked_in(joint, hart);
    match joint.step(hart) {
        Err(error) => Err(told_as(error)),
        Ok(stepped) => match stepped {
            Stepped::Passed { .. } => Ok(()),
            Stepped::Ended { .. } => Ok(()),
            Stepped::Did(row) => take_row(gathered, hart, asked, &row, most),
        },
    }
}

// Why no hart is ready.
fn stuck(alloc: Global, joint: &mut Joint) -> RaceError
    requires none { joint.old.refused ≡ None }
    requires stuck { choice joint.old ≡ NoneReady }
    ensures stops { Stops joint.old result }
    ensures memory { result ≡ OutOfMemory → RanOutOfMemory joint.new }
{
    runs_go_by_steps();
    let mut lines = RowLines::new(alloc);
    let mut untold = Text::new(alloc);
    match joint.run_all(&mut lines, &mut untold) {
        Ok(()) => RaceError::OutOfMemory,
        Err(error) => told_as(error),
    }
}

// Takes all steps that are left, the lowest ready hart's first, and takes in all rows.
fn gather_all(
    alloc: Global,
    joint: &mut Joint,
    gathered: &mut Gathered,
    most: u64,
) -> Result<(), RaceError>
    requires { (harts : ℕ) × (first : Joining) × IsOnTheWay harts most first joint.old gathered.old }
    ensures gathers { GathersRest most joint.old gathered.old result gathered.new }
    ensures memory { IfErr result (λ e. e ≡ OutOfMemory → IsUnrefused joint.new) }
{
    runs_go_by_steps();
    'steps: loop {
        match joint.next() {
            Next::AllDone => return Ok(()),
            Next::NoneReady => return Err(stuck(alloc, joint)),
            Next::Hart(hart) => match advance(joint, gathered, hart, most) {
                Ok(()) => (),
                Err(error) => return Err(error),
            },
        }
    }
}

// Takes all steps of the joint replay of a log, and takes in all rows.
fn gather_into(
    alloc: Global,
    image: &Image,
    log: &KeptLog,
    gathered: &mut Gathered,
    most: u64,
) -> Result<(), RaceError>
    requires { IsGathered log.now.head.settings.harts [] gathered.old }
    ensures { GathersInto log.now.head.settings.harts most (joint_of image.now log.now) result gathered.new }
{
    match Joint::begin(alloc, image, log) {
        Err(_) => Err(RaceError::OutOfMemory),
        Ok(mut joint) => gather_all(alloc, &mut joint, gathered, most),
    }
}

// Takes all steps, the lowest ready hart's first, and takes in all rows.
fn gather(alloc: Global, image: &Image, log: &KeptLog, most: u64) -> Result<Gathered, RaceError>
    ensures { Gathers log.now.head.settings.harts most (joint_of image.now log.now) result }
{
    let mut gathered = match Gathered::new(alloc, &log.head().settings) {
        Ok(gathered) => gathered,
        Err(_) => return Err(RaceError::OutOfMemory),
    };
    match gather_into(alloc, image, log, &mut gathered, most) {
        Ok(()) => Ok(gathered),
        Err(error) => Err(error),
    }
}

/// The races of a log: all pairs of conflicting points that no chain of program order and
/// synchronisation orders, each once, by hart and count of the first and then of the second.
///
/// If the joint replay stops, the error says why. Else, if there are more than `max` races, it is
/// TooMany. It keeps the rows that access words, at most 2^32 - 1 of them; more are treated as out of
/// memory. A step that the joint replay refuses is never told as out of memory, and stuck harts only if
/// the joint replay has no memory for their positions. Once memory runs out, later steps aren't tried.
pub fn report(
    alloc: Global,
    image: &Image,
    log: &KeptLog,
    max: u64,
) -> Result<List<Race>, RaceError>
    ensures { IsReport log.now.head.settings.harts max (joint_of image.now log.now) result }
{
    match gather(alloc, image, log, max) {
        Err(error) => Err(error),
        Ok(gathered) => {
            if gathered.count() > max {
                return Err(RaceError::TooMany { max });
            }
            match gathered.races(alloc) {
                Ok(races) => Ok(List::from_vec(races)),
                Err(_) => Err(RaceError::OutOfMemory),
            }
        }
    }
}
