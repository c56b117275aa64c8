// Calls: events in lanes.

/// One input gets bits in some lanes. Lane k has bit k of each word; lane 0 has the lowest.
#[derive(Clone, Copy, Debug, PartialEq, Eq)]
pub struct Call {
    /// The index of the input among the inputs, in the order of the ports, from 0.
    pub pin: usize,
    /// 1 in each lane that gets an event.
    pub active: u64,
    pub bits: u64,
}
