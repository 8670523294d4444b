//! The two nodes between which a flow goes.
ghost use Rattle.std.specs.Prelude.{◌≡◌};
ghost use Rattle.flow_net.specs.inside.NetView.{is_between};

#[derive(Clone, Copy, Debug, PartialEq, Eq)]
pub struct Ends {
    pub source: u16,
    pub sink: u16,
}

/// Whether these are the two nodes.
pub fn is_between(ends: Option<Ends>, source: u16, sink: u16) -> bool
    ensures { result ≡ is_between ends source sink }
{
    match ends {
        None => false,
        Some(ends) => ends.source == source && ends.sink == sink,
    }
}
