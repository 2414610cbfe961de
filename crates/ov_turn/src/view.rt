//! What a seat at the table knows. Proofs alone read these types: no value of them is made.
use std::collections::LinkedList;

/// An update that was accepted: the pass and the call that asked it, and its spelling.
pub struct Entry {
    /// The number of the pass, from 0.
    pub pass: u64,
    /// The number of the call among those of its pass, from 1.
    pub call: u64,
    pub spelling: LinkedList<u8>,
}

/// What a pass knows between two of its calls.
pub struct Knowledge {
    /// The number of the pass, from 0.
    pub number: u64,
    /// The accepted updates that it has seen, in order.
    pub seen: LinkedList<Entry>,
    /// The last epoch that it was told.
    pub told: u64,
    /// Whether an update of its own was answered by this, that the disk failed in it.
    pub failed: bool,
}

/// What a seat is about to do. Each number is its ticket.
pub enum Stage {
    /// It has no ticket.
    Idle,
    /// It waits until its ticket is served.
    Waiting(u64),
    /// It has the value, and the epoch isn't raised.
    Serving(u64),
    /// It has the value, and has raised the epoch.
    Raised(u64),
}

/// What a seat knows of the table.
pub struct View<A> {
    /// The value as it was when the table was made. A spent seat has none.
    pub start: Option<A>,
    /// How many passes the seat stands for. A spent seat stands for none.
    pub parts: u64,
    pub knowledge: Knowledge,
    /// The calls so far, the one in progress included.
    pub calls: u64,
    /// The calls of the seats that it took in.
    pub past: u64,
    pub stage: Stage,
    /// While it has the value: the updates that were accepted when it took it.
    pub base: LinkedList<Entry>,
    /// While it has the value: whether the disk had failed in an update of some pass when it took it.
    pub stuck: bool,
    /// What the seats that it took in knew.
    pub taken_in: LinkedList<Knowledge>,
}
