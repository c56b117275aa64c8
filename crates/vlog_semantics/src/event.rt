// Events: changes of a module's inputs.

/// An input gets a bit.
#[derive(Clone, Copy, Debug, PartialEq, Eq)]
pub struct Event {
    /// The index of the input among the inputs, in the order of the ports, from 0.
    pub pin: usize,
    pub bit: bool,
}
