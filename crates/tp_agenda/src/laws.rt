// Laws of a closure by an agenda: an item is tried when it is new, or when a cell that it waits for is decided.
ghost use Rattle.tp_agenda.specs.Laws.{BeginsHeld, HeldTellsReady, RestsKeepHeld, StepsKeepHeld, WaitsKeepHeld, WakingKeepsHeld};
ghost use Rattle.tp_agenda.specs.Leaves.{HeldComesToRest, StepsDecide, StepsLeaveOthers};

/// What a closure by an agenda holds between two tries tells the ready items, and is kept: by each answer that a try of one of them may
/// have but a failure, and where waits are over.
pub fn agendas_hold()
    // So it is where nothing was recorded, and exactly the items that may move are flagged.
    ensures begins { BeginsHeld }
    // Where nothing is due, exactly the ready items are flagged.
    ensures ready { HeldTellsReady }
    // After a step what it decides is due, and what is new is ready.
    ensures steps { StepsKeepHeld }
    // An item that waits has an open wait.
    ensures waits { WaitsKeepHeld }
    // An item that rests isn't ready any more.
    ensures rests { RestsKeepHeld }
    // Where the waits for some of what is due are over, the others are due.
    ensures woken { WakingKeepsHeld }
{}

/// What such a closure asks of steps each step does; and where no item is ready and nothing is due, the scene is at rest.
pub fn steps_leave_agendas()
    // A step leaves of the other items what is held of them.
    ensures others { StepsLeaveOthers }
    // What it decides is decided after it.
    ensures decides { StepsDecide }
    // Where none is ready, each live item waits or rests.
    ensures rest { HeldComesToRest }
{}
