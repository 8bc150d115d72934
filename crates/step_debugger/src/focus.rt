//! What a session keeps beside its joint replay: the chosen hart and the breakpoints.
use bn_base::{Addr, HartId};

#[derive(Drop)]
pub(crate) struct Focus {
    pub(crate) hart: HartId,
    pub(crate) breaks: Vec<Addr>,
}
