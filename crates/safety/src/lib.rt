// What every run of the cluster promises, and runs that show it is no empty promise.
#![tactic(auto)]

ghost use Rattle.protocol.specs.Promises.{Safe};
ghost use Rattle.protocol.specs.Runs.{GoesOn};
ghost use Rattle.safety.specs.Story.{Story};
ghost use Rattle.safety.specs.SixCalls.{SixCalls};

// Every run keeps its promises, and goes on with any call, whatever the states of its machines are.
pub fn promises_hold<S>(_state: &S) -> bool
    ensures safe { Safe S }
    ensures on { GoesOn S }
{
    true
}

// A run in which a ticket is kept and another is gone, and an edit is applied openly and undone by a takeover.
pub fn story_stands() -> bool
    ensures { Story }
{
    true
}

// Six calls, and what stands at each server after each.
pub fn six_calls_stand() -> bool
    ensures { SixCalls }
{
    true
}
