//! The kept Edges into a hart, read off the log's records without a copy.
ghost use Rattle.std.specs.Prelude.{◌≡◌, ◌<◌, IfOk};
ghost use Rattle.joint_replay.specs.Sources.{source_in, edges_into, AscendFrom};

use crate::laws::edges_ascend;
use bn_base::{HartId, Ic};
use log_order::KeptLog;
use log_record::Record;
use std::alloc::{AllocError, Global};
use std::marker::Model;

/// An Edge into a hart: the count of its target, and its source.
#[derive(Clone, Copy, Drop)]
pub(crate) struct IncomingEdge {
    pub(crate) target: Ic,
    pub(crate) hart: HartId,
    pub(crate) ic: Ic,
}

/// The kept Edges into a hart of a log, in their order.
// Gathered once: whether a hart is ready takes no pass over the records, and ends at the first target beyond the
// hart's next instruction, since targets ascend in every log in order (`edges_ascend`).
#[derive(Drop)]
pub(crate) struct IncomingEdges<'a> {
    log: &'a KeptLog,
    hart: HartId,
    edges: Vec<IncomingEdge>,
}

impl<'a> Model for IncomingEdges<'a> {
    ghost use Rattle.std.specs.Prelude.{◌≡◌};
    ghost use Rattle.joint_replay.specs.Sources.{HartOf, edges_into, AscendFrom};

    ghost Value = { HartOf };

    ghost view = { λ s. record { log = s.log.now; hart = s.hart } };

    ghost invariant = { λ s. (s.edges.items ≡ edges_into s.hart s.log.now.records) × AscendFrom 0 s.edges.items };
}

// The Edge into a hart that a record is, if it is one.
fn source_in(hart: HartId, entry: &Record) -> Option<IncomingEdge>
    ensures { result ≡ source_in hart entry.now }
{
    match *entry {
        Record::Edge {
            hart: into,
            ic: target,
            from,
            from_ic,
        } => {
            if into == hart {
                Some(IncomingEdge {
                    target,
                    hart: from,
                    ic: from_ic,
                })
            } else {
                None
            }
        }
        Record::Header { .. } => None,
        Record::FirstLoad { .. } => None,
        Record::ScOk { .. } => None,
        Record::ScFailed { .. } => None,
        Record::End { .. } => None,
    }
}

impl<'a> IncomingEdges<'a> {
    /// Those of a hart.
    pub(crate) fn gather(
        alloc: Global,
        log: &'a KeptLog,
        hart: HartId,
    ) -> Result<IncomingEdges<'a>, AllocError>
        requires { hart < log.now.head.settings.harts }
        ensures { IfOk result (λ s. s ≡ record { log = log.now; hart = hart }) }
    {
        edges_ascend();
        let records = log.records();
        let mut edges = Vec::new(alloc);
        for place in 0..records.len() {
            if let Some(source) = source_in(hart, &records.get(place)) {
                edges.push(source)?;
            }
        }
        Ok(IncomingEdges { log, hart, edges })
    }

    /// The hart.
    pub(crate) fn hart(&self) -> HartId
        ensures { result ≡ self.now.hart }
    {
        self.hart
    }

    /// The log.
    pub(crate) fn log(&self) -> &'a KeptLog
        ensures { result.now ≡ self.now.log }
    {
        self.log
    }

    /// All of them, by ascending targets.
    pub(crate) fn all(&self) -> &[IncomingEdge]
        ensures all { result.now ≡ edges_into self.now.hart self.now.log.records }
        ensures order { AscendFrom 0 result.now }
    {
        &self.edges
    }

    /// The same ones.
    pub(crate) fn copy(&self) -> Result<IncomingEdges<'a>, AllocError>
        ensures { IfOk result (λ s. s ≡ self.now) }
    {
        Ok(IncomingEdges {
            log: self.log,
            hart: self.hart,
            edges: Vec::from_slice(*self.edges.allocator(), &self.edges)?,
        })
    }
}
