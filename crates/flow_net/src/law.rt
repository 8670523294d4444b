//! What holds of every network, whatever it is filled with.
ghost use Rattle.flow_net.specs.inside.Cut.{NoFlowExceedsACut};

/// No flow is greater than any cut.
pub fn no_flow_exceeds_a_cut()
    ensures { NoFlowExceedsACut }
{}
