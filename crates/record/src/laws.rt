// What the format promises, as contracts.
ghost use Rattle.record.specs.Laws.{Unambiguous, NeverRefused, Determined};

// Bytes begin with one record at most; those that begin with one are never refused; and any bytes have one answer.
pub fn format_stands() -> bool
    ensures unambiguous { Unambiguous }
    ensures accepted { NeverRefused }
    ensures determined { Determined }
{
    true
}
