//! The place of a hart between two turns, as the hart knows it by itself.
ghost use Rattle.std.specs.Prelude.{◌≡◌, ◌-◌, min, IsTrue};
ghost use Rattle.whole_runs.specs.Common.{is_reply_to, ask_from, begins, begun_at, place_after};
ghost use Rattle.whole_runs.specs.HartTurns.{place_at, first_place};

use bn_base::{HartId, HartState, Ic, Image, Settings};
use run_model::start_state;
use rv_meaning::{Ask, DecodedImage, Reply, Want, absorb};

/// The place of a hart, as it knows it by itself: its state, and its count when its present interval began.
#[derive(Clone, Copy, Drop)]
pub struct HartPlace {
    pub state: HartState,
    pub begun: Ic,
}

impl HartPlace {
    /// The place of a hart before its first turn.
    pub fn first(settings: &Settings, image: &Image, hart: HartId) -> HartPlace
        ensures { place_at result ≡ first_place settings.now image.now hart }
    {
        HartPlace {
            state: start_state(settings, image, hart),
            begun: 0,
        }
    }

    // How many instructions it may do until its interval or its limit is full.
    pub(crate) fn budget(&self, settings: &Settings) -> u64
        ensures { result ≡ min (settings.now.interval - (self.now.state.ic - self.now.begun)) (settings.now.limit - self.now.state.ic) }
    {
        let done = self.state.ic.saturating_sub(self.begun);
        let interval = u64::from(settings.interval()).saturating_sub(done);
        let limit = settings.limit().saturating_sub(self.state.ic);
        interval.min(limit)
    }

    /// What it asks next.
    pub fn ask(&self, code: &DecodedImage, settings: &Settings) -> Ask
        ensures { result ≡ ask_from settings.now code.now (place_at self.now) }
    {
        let mut state = self.state;
        let want = code.quiet_run_in_place(&mut state, self.budget(settings));
        Ask { state, want }
    }

    /// Its place after a reply to an ask, which was guarded or not.
    pub fn after(&self, settings: &Settings, ask: &Ask, guarded: bool, reply: Reply) -> HartPlace
        requires { IsTrue (is_reply_to ask.now.want reply) }
        ensures { place_at result ≡ place_after settings.now (place_at self.now) ask.now guarded reply }
    {
        let state = absorb(ask, reply);
        let begun = self.begun_at(ask, guarded);
        let ic = state.ic;
        if begins(settings, begun, &ask.want, reply, ic) {
            return HartPlace { state, begun: ic };
        }
        HartPlace { state, begun }
    }

    // The count at which the interval of the asking instruction began.
    fn begun_at(&self, ask: &Ask, guarded: bool) -> Ic
        ensures { result ≡ begun_at guarded (place_at self.now) ask.now }
    {
        if guarded { ask.state.ic } else { self.begun }
    }
}

// Whether a reply that leaves the hart's count at `ic` begins its next interval.
fn begins(settings: &Settings, begun: Ic, want: &Want, reply: Reply, ic: Ic) -> bool
    ensures { result ≡ begins settings.now begun want.now reply ic }
{
    match want {
        Want::System { .. } => match reply {
            Reply::Answer(_) => true,
            _ => false,
        },
        Want::Faulted { .. } => false,
        _ => settings.limit() > ic && u64::from(settings.interval()) <= ic.saturating_sub(begun),
    }
}
