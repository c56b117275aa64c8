// What inputs read.
ghost use Rattle.std.specs.Prelude.{◌≡◌};
ghost use Rattle.fabric_model.specs.Signals.{net_or_0, net_or_1};

/// What an input reads: of a LUT, of a register or of an output.
#[derive(Clone, Copy, Debug, PartialEq, Eq)]
pub enum Signal {
    /// A net. The input has the value `otherwise` if there is no net, or if nothing drives the net.
    Net { net: Option<u32>, otherwise: bool },
    /// An input port, by its index among the input ports.
    Input(u32),
    /// A register, by its index among the registers.
    Register(u32),
}

/// The net, for an input that is 0 if there is no net, or if nothing drives it.
pub fn net_or_0(net: Option<u32>) -> Signal
    ensures { result ≡ net_or_0 net }
{
    Signal::Net {
        net,
        otherwise: false,
    }
}

/// The net, for an input that is 1 if there is no net, or if nothing drives it.
pub fn net_or_1(net: Option<u32>) -> Signal
    ensures { result ≡ net_or_1 net }
{
    Signal::Net {
        net,
        otherwise: true,
    }
}
