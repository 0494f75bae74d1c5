// How much a rig holds.
ghost use Rattle.std.specs.Prelude.{◌≡◌};
ghost use Rattle.rig_saying.specs.Saying.{condition_count};

use rig_phrases::Words;

pub(crate) const TASKS: Words = Words {
    lead: b"right: ",
    one: b" task",
    more: b" tasks",
};

pub(crate) const FLAGS: Words = Words {
    lead: b", ",
    one: b" flag",
    more: b" flags",
};

pub(crate) const CONDITIONS: Words = Words {
    lead: b", ",
    one: b" condition",
    more: b" conditions",
};

pub(crate) const BUS_ROWS: Words = Words {
    lead: b", ",
    one: b" bus row\n",
    more: b" bus rows\n",
};

// How many conditions a rig has.
pub(crate) fn conditions_of(g: &rig::Rig) -> u64
    ensures { result ≡ condition_count g.now }
{
    let mut n: u64 = 0;
    for p in g.present {
        if p == 1 {
            n += 1;
        }
    }
    n
}
