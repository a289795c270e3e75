// What is proved of the rules themselves.
ghost use Rattle.protocol.specs.Starred.{Starred};

// The starred examples, whatever the states of the machines are.
pub fn rules_stand<S>(_state: &S) -> bool
    ensures { Starred S }
{
    true
}
