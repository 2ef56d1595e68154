//! Why what many workers did was one list of events. These functions do nothing: their contracts are the laws.
ghost use Rattle.host_core.specs.Host.{Host};
ghost use Rattle.host_order.specs.Close.{OrdersClose};
ghost use Rattle.host_order.specs.Told.{OrdersPhase};

/// What the workers of a phase and its places tell, each in its own order, was one list of enabled events: the served
/// requests by the stamps of their evicts, and then the stops.
pub fn a_phase_has_one_order<C, R>()
    ensures order { (host : Host C R) → OrdersPhase host }
{}

/// What the workers of a close tell, each of its own shards, was one list of enabled events: all advance, and then each
/// moves its shards. Where no clock ended, the next phase may open behind it, or all may advance once more.
pub fn a_close_has_one_order<C, R>()
    ensures order { (host : Host C R) → OrdersClose host }
{}
