//! What a log says, as readers of files and replays pass it on: its type has the order of the records.
ghost use Rattle.std.specs.Prelude.{◌≡◌};
ghost use Rattle.log_order.specs.Content.{content, IsContent};

use log_record::{Head, RecordList};
use std::marker::Model;

/// What a log says: its head, how many records were given up before those that it keeps, and these.
/// The kept records are ones that its version has. They are in order, and have at most log-size bytes.
#[derive(Drop)]
pub struct KeptLog {
    head: Head,
    dropped: u64,
    records: RecordList,
}

impl Model for KeptLog {
    ghost use Rattle.log_order.specs.Content.{Content, content, IsContent};

    ghost Value = { Content };

    ghost view = { λ k. content k.head k.dropped k.records };

    ghost invariant = { λ k. IsContent (content k.head k.dropped k.records) };
}

impl KeptLog {
    /// The log with this head, so many dropped records and these kept ones.
    pub fn of(head: Head, dropped: u64, records: RecordList) -> KeptLog
        requires { IsContent (content head dropped records) }
        ensures { result ≡ content head dropped records }
    {
        KeptLog {
            head,
            dropped,
            records,
        }
    }

    /// The settings of the recording, and the digest of its program.
    pub fn head(&self) -> &Head
        ensures value { result.now ≡ self.now.head }
        ensures whole { IsContent self.now }
    {
        &self.head
    }

    /// How many records were given up before the kept ones.
    pub fn dropped(&self) -> u64
        ensures { result ≡ self.now.dropped }
    {
        self.dropped
    }

    /// The kept records, the oldest first.
    pub fn records(&self) -> &RecordList
        ensures value { result.now ≡ self.now.records }
        ensures whole { IsContent self.now }
    {
        &self.records
    }
}
