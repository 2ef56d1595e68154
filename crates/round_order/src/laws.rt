//! Why what many workers did in a round was one list of events. These functions do nothing: their contracts are the laws.
ghost use Rattle.host_core.specs.Host.{Host};
ghost use Rattle.round_order.specs.Phase.{PhasesAreRounds};
ghost use Rattle.round_order.specs.Told.{OrdersRound, EndsRounds};

/// What the workers of a round and its places tell, each in its own order, was one list of enabled events: the turns by the stamps
/// of their evicts, and between them the epochs that the workers go on by.
pub fn a_round_has_one_order<C, R>()
    ensures order { (host : Host C R) → OrdersRound host }
{}

/// Where each worker came to the epoch of the last phase and served all that it is asked, all may note that their shards are of it,
/// and then the round is over, so that its close may follow. Where clocks ended, the stops may stand behind the turns.
pub fn rounds_end_so<C, R>()
    ensures ends { (host : Host C R) → EndsRounds host }
{}

/// What is told of a phase is told of a round of one epoch in which nothing is scanned, whose events are the turns alone.
pub fn a_phase_is_a_round<C, R>()
    ensures round { (host : Host C R) → PhasesAreRounds host }
{}
