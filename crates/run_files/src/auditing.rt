//! Audits: the run of a list of turns is made again, and its file compared with a log.
ghost use Rattle.std.specs.Prelude.{◌≡◌, ◌⊎◌, ◌≤◌, ◌+◌, ℕ, All, None, Some, true, false, length, take, IfOk, IfErr, OnOk};
ghost use Rattle.run_model.specs.declared.error.TurnError.TheVariants.{OutOfMemory};
ghost use Rattle.run_model.specs.Turn.{Run};
ghost use Rattle.run_model.specs.Runs.{start, run_from, run_of, live_harts};
ghost use Rattle.run_model.specs.Lists.{unfinished, error_from, list_error};
ghost use Rattle.log_order.specs.Content.{content};
ghost use Rattle.run_files.specs.Audits.{is_version2, bytes_in, audited_file, sealed, IsSealed, BeginsWithZeros, IsVerdict, StandsBefore, StandsWithin};
ghost use Rattle.run_model.specs.Represents.Plain.{IsRun};
ghost use Rattle.run_model.specs.Represents.Turning.{parts};

use crate::saved::{saved_file_in, unsealed_file};
use crate::verdict::Verdict;
use log_file::seal;
use log_ring::Ring;
use run_model::{Plain, Start, TurnError};
use rv_meaning::DecodedImage;
use std::alloc::{AllocError, Global};

// The greatest hart of a list, 0 if it has none. Many of its bytes are compared at once.
fn greatest(list: &[u8]) -> u8
    ensures { All (λ hart. hart ≤ result) list.now }
{
    let mut most = 0u8;
    for hart in list {
        most = most.max(*hart);
    }
    most
}

// How many turns of hart 0 a list begins with.
fn turns_of_zero(list: &[u8]) -> u64
    ensures { BeginsWithZeros list.now result }
{
    if greatest(list) == 0 {
        return list.len() as u64;
    }
    for at in 0..list.len() {
        if list[at] != 0 {
            return at as u64;
        }
    }
    list.len() as u64
}

// The turns of a list, up to the first whose hart isn't live then, of a machine with one hart.
fn follow_alone(code: &DecodedImage, plain: &mut Plain, list: &[u8]) -> Result<(), TurnError>
    requires code { code.now ≡ (parts plain.old).start.image }
    requires alone { (parts plain.old).start.settings.harts ≡ 1 }
    requires some { (run : Run) × IsRun (parts plain.old) run }
    ensures run { OnOk result ((run : Run) → IsRun (parts plain.old) run → IsRun (parts plain.new) (run_from (parts plain.old).start.settings (parts plain.old).start.image run list.now)) }
    ensures legal { OnOk result ((run : Run) → IsRun (parts plain.old) run → let c = (parts plain.old).start.settings in let i = (parts plain.old).start.image in
        error_from c i run 0 list.now ≡ unfinished (live_harts 0 c.harts (run_from c i run list.now).harts)) }
    ensures illegal { IfErr result (λ e. (e ≡ OutOfMemory) ⊎ ((run : Run) → IsRun (parts plain.old) run → error_from (parts plain.old).start.settings (parts plain.old).start.image run 0 list.now ≡ Some e)) }
    ensures memory { IfErr result (λ e. e ≡ OutOfMemory → (run : Run) → IsRun (parts plain.old) run → StandsBefore (parts plain.old).start.settings (parts plain.old).start.image run list.now (parts plain.new)) }
    ensures start { (parts plain.new).start ≡ (parts plain.old).start }
{
    let most = turns_of_zero(list);
    let before = plain.turns();
    let mut taken = 0;
    'taking: while taken < most && plain.live(0) {
        plain.turns_alone(code, most - taken)?;
        taken = plain.turns() - before;
    }
    if taken < list.len() as u64 {
        return Err(TurnError::IllegalTurn {
            at: taken,
            hart: list[taken as usize],
        });
    }
    Ok(())
}

// The turns of a list, up to the first whose hart isn't live then.
fn follow(code: &DecodedImage, plain: &mut Plain, list: &[u8]) -> Result<(), TurnError>
    requires code { code.now ≡ (parts plain.old).start.image }
    requires some { (run : Run) × IsRun (parts plain.old) run }
    ensures run { OnOk result ((run : Run) → IsRun (parts plain.old) run → IsRun (parts plain.new) (run_from (parts plain.old).start.settings (parts plain.old).start.image run list.now)) }
    ensures legal { OnOk result ((run : Run) → IsRun (parts plain.old) run → let c = (parts plain.old).start.settings in let i = (parts plain.old).start.image in
        error_from c i run 0 list.now ≡ unfinished (live_harts 0 c.harts (run_from c i run list.now).harts)) }
    ensures illegal { IfErr result (λ e. (e ≡ OutOfMemory) ⊎ ((run : Run) → IsRun (parts plain.old) run → error_from (parts plain.old).start.settings (parts plain.old).start.image run 0 list.now ≡ Some e)) }
    ensures memory { IfErr result (λ e. e ≡ OutOfMemory → (run : Run) → IsRun (parts plain.old) run → StandsBefore (parts plain.old).start.settings (parts plain.old).start.image run list.now (parts plain.new)) }
    ensures start { (parts plain.new).start ≡ (parts plain.old).start }
{
    if plain.start().settings.harts() == 1 {
        return follow_alone(code, plain, list);
    }
    for at in 0..list.len() {
        let hart = list[at];
        if !plain.live(hart) {
            return Err(TurnError::IllegalTurn {
                at: at as u64,
                hart,
            });
        }
        plain.turn_ahead(code, hart)?;
    }
    Ok(())
}

// What is wrong if some hart is live: the lowest such hart.
fn unfinished(plain: &Plain) -> Option<TurnError>
    ensures { (run : Run) → IsRun (parts plain.now) run → result ≡ unfinished (live_harts 0 (parts plain.now).start.settings.harts run.harts) }
{
    for live in 0..plain.start().settings.harts() {
        if plain.live(live) {
            return Some(TurnError::NotFinished { live });
        }
    }
    None
}

// The turns of a list that leaves no hart live, on a machine before its first turn.
fn follow_whole(
    alloc: Global,
    from: &Start,
    plain: &mut Plain,
    list: &[u8],
) -> Result<(), TurnError>
    requires run { IsRun (parts plain.old) (start from.now.settings from.now.image from.now.input.items) }
    requires image { (parts plain.old).start.image ≡ from.now.image }
    requires settings { (parts plain.old).start.settings ≡ from.now.settings }
    ensures run { OnOk result (IsRun (parts plain.new) (run_of from.now.settings from.now.image from.now.input.items list.now)) }
    ensures whole { OnOk result (list_error from.now.settings from.now.image from.now.input.items list.now ≡ None) }
    ensures refused { IfErr result (λ e. (e ≡ OutOfMemory) ⊎ (list_error from.now.settings from.now.image from.now.input.items list.now ≡ Some e)) }
    ensures memory { IfErr result (λ e. e ≡ OutOfMemory → (plain.new ≡ plain.old) ⊎ StandsWithin from.now.settings from.now.image from.now.input.items list.now (parts plain.new)) }
    ensures settings { (parts plain.new).start.settings ≡ from.now.settings }
{
    let code = DecodedImage::new(alloc, &from.image)?;
    follow(&code, plain, list)?;
    match unfinished(plain) {
        Some(error) => Err(error),
        None => Ok(()),
    }
}

// The machine after the turns of a list that leaves no hart live.
fn whole_run(alloc: Global, from: &Start, list: &[u8]) -> Result<Plain, TurnError>
    ensures run { IfOk result (λ p. IsRun (parts p) (run_of from.now.settings from.now.image from.now.input.items list.now)) }
    ensures whole { OnOk result (list_error from.now.settings from.now.image from.now.input.items list.now ≡ None) }
    ensures refused { IfErr result (λ e. (e ≡ OutOfMemory) ⊎ (list_error from.now.settings from.now.image from.now.input.items list.now ≡ Some e)) }
    ensures settings { IfOk result (λ p. (parts p).start.settings ≡ from.now.settings) }
{
    let mut plain = Plain::new(alloc, from)?;
    follow_whole(alloc, from, &mut plain, list)?;
    Ok(plain)
}

// Whether the number of a log's version, in its bytes 8 to 11, is 2.
fn is_version2(log: &[u8]) -> bool
    ensures { result ≡ is_version2 log.now }
{
    let rest = &log[8usize.min(log.len())..];
    let number = &rest[..4usize.min(rest.len())];
    number == &[2, 0, 0, 0][..]
}

// Whether a log is this file, or the first place at which they differ.
fn compare(file: &[u8], log: &[u8]) -> Verdict
    ensures { IsVerdict file.now log.now result }
{
    let least = file.len().min(log.len());
    for at in 0..least {
        if file[at] != log[at] {
            return Verdict::Differ { at_byte: at as u64 };
        }
    }
    if file.len() == log.len() {
        Verdict::Agree
    } else {
        Verdict::Differ {
            at_byte: least as u64,
        }
    }
}

// Whether a log begins with these bytes, and has 32 more.
fn begins_with(log: &[u8], bytes: &[u8]) -> bool
    ensures { result ≡ true → (length log.now ≡ length bytes.now + 32) × (take (length bytes.now) log.now ≡ bytes.now) }
{
    log.len() == bytes.len() + 32 && &log[..bytes.len()] == bytes
}

// The verdict on a log by a file up to its last digest. If the log is known to end with the digest of its bytes before, and the
// two are the same up to there, so are their digests, and none is made.
fn compare_unsealed(file: &mut Vec<u8>, log: &[u8], is_sealed: bool) -> Result<Verdict, AllocError>
    requires { is_sealed ≡ true → IsSealed log.now }
    ensures { IfOk result (IsVerdict (sealed file.old.items) log.now) }
{
    if is_sealed && begins_with(log, file) {
        return Ok(Verdict::Agree);
    }
    seal(file)?;
    Ok(compare(file, log))
}

// The verdict on a log, by what a recording's ring keeps.
fn verdict_on(
    alloc: Global,
    from: &Start,
    ring: &Ring,
    log: &[u8],
    is_sealed: bool,
) -> Result<Verdict, AllocError>
    requires size { ring.now.size ≡ from.now.settings.log_size }
    requires sealed { is_sealed ≡ true → is_version2 log.now ≡ false → IsSealed log.now }
    ensures { IfOk result (IsVerdict (bytes_in (is_version2 log.now) (content (record { settings = from.now.settings; digest = from.now.digest }) ring.now.dropped ring.now.records)) log.now) }
{
    let second = is_version2(log);
    if second || from.settings.format() == 2 {
        let file = saved_file_in(alloc, from, second, ring)?;
        return Ok(compare(&file, log));
    }
    let mut file = unsealed_file(alloc, from, ring)?;
    compare_unsealed(&mut file, log, is_sealed)
}

// The audit of a log that may be known to end with the digest of its bytes before, if it is of version 1.
fn audit_known(
    alloc: Global,
    from: &Start,
    list: &[u8],
    log: &[u8],
    is_sealed: bool,
) -> Result<Verdict, TurnError>
    requires { is_sealed ≡ true → is_version2 log.now ≡ false → IsSealed log.now }
    ensures verdict { IfOk result (λ v. IsVerdict (audited_file (is_version2 log.now) from.now.settings from.now.image from.now.digest from.now.input.items list.now) log.now v) }
    ensures whole { OnOk result (list_error from.now.settings from.now.image from.now.input.items list.now ≡ None) }
    ensures refused { IfErr result (λ e. (e ≡ OutOfMemory) ⊎ (list_error from.now.settings from.now.image from.now.input.items list.now ≡ Some e)) }
{
    match whole_run(alloc, from, list) {
        Err(error) => Err(error),
        Ok(plain) => {
            // All but what was recorded is dropped before the file is made.
            let recorded = plain.into_recorded();
            match verdict_on(alloc, from, &recorded.ring, log, is_sealed) {
                Err(_) => Err(TurnError::OutOfMemory),
                Ok(verdict) => Ok(verdict),
            }
        }
    }
}

/// Whether a log is the file of the run of a list of turns, which has one byte for each turn, the number
/// of its hart. If it isn't, the first place at which the two differ or one ends. A log whose bytes 8 to
/// 11 are 2, 0, 0, 0 is of version 2: it is compared with the run's file in that version, whatever the
/// format. Any other log is compared with the file that the recording saves. The run is made again, by
/// code that is decoded ahead.
///
/// The list is refused if and only if one of its harts isn't live at its turn, or some hart is live after
/// the last. The error names the first such turn, or the lowest such hart. Out of memory comes before the
/// first turn, at a turn whose hart is live, or once the list is found to be whole. Whether a later turn is
/// refused isn't known then.
pub fn audit(alloc: Global, from: &Start, list: &[u8], log: &[u8]) -> Result<Verdict, TurnError>
    ensures verdict { IfOk result (λ v. IsVerdict (audited_file (is_version2 log.now) from.now.settings from.now.image from.now.digest from.now.input.items list.now) log.now v) }
    ensures whole { OnOk result (list_error from.now.settings from.now.image from.now.input.items list.now ≡ None) }
    ensures refused { IfErr result (λ e. (e ≡ OutOfMemory) ⊎ (list_error from.now.settings from.now.image from.now.input.items list.now ≡ Some e)) }
{
    audit_known(alloc, from, list, log, false)
}

/// As [`audit`], of a log that, if it is of version 1, ends with the digest of its bytes before, as each one does that was read.
/// No other digest is made if it agrees.
pub fn audit_sealed(
    alloc: Global,
    from: &Start,
    list: &[u8],
    log: &[u8],
) -> Result<Verdict, TurnError>
    requires { is_version2 log.now ≡ false → IsSealed log.now }
    ensures verdict { IfOk result (λ v. IsVerdict (audited_file (is_version2 log.now) from.now.settings from.now.image from.now.digest from.now.input.items list.now) log.now v) }
    ensures whole { OnOk result (list_error from.now.settings from.now.image from.now.input.items list.now ≡ None) }
    ensures refused { IfErr result (λ e. (e ≡ OutOfMemory) ⊎ (list_error from.now.settings from.now.image from.now.input.items list.now ≡ Some e)) }
{
    audit_known(alloc, from, list, log, true)
}
