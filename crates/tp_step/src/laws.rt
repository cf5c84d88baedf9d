// The law of the item that settling names.
ghost use Rattle.tp_step.specs.Waiting.{FirstWaitingIsNamed, NoneNamedNoneWaits};

/// At rest, settling names an item exactly where this is the first that waits, of the live items in walk order; and where it names none,
/// no live item waits.
pub fn first_waiting_is_named()
    ensures named { FirstWaitingIsNamed }
    ensures none { NoneNamedNoneWaits }
{}
