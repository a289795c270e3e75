// What is proved of the rules themselves.
ghost use Rattle.sheet.specs.Starred.{Starred};
ghost use Rattle.sheet.specs.Grading.{Floors, Grades};

// The starred examples; that the quotient of the rule is the floor; and what grading means.
pub fn rules_stand() -> bool
    ensures starred { Starred }
    ensures floors { Floors }
    ensures grades { Grades }
{
    true
}
