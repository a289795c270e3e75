// What is proved of images themselves.
ghost use Rattle.image.specs.Laws.{Determined, ReadsBack, WritesBack};
ghost use Rattle.image.specs.Stores.{EmptyIsCleared};
ghost use Rattle.image.specs.Starred.{Starred};

// Any bytes have one answer; an image reads back; accepted bytes are the image of what was read;
// an empty store means what clearing leaves; and the starred examples.
pub fn images_stand() -> bool
    ensures determined { Determined }
    ensures reads_back { ReadsBack }
    ensures writes_back { WritesBack }
    ensures empty { EmptyIsCleared }
    ensures starred { Starred }
{
    true
}
