// The kinds of a rig file's lines, and what a line of each kind has.
#![tactic(auto)]

ghost use Rattle.std.specs.Prelude.{◌≡◌, ℕ, ◌≤◌, ◌<◌, cond, get_or};
ghost use Rattle.rig_lines.specs.Kinds.{is_known, kind_of, count_of, sort_of};
ghost use Rattle.rig_lines.specs.Kind.{kind_number, kind_report, names_number};
ghost use Rattle.rig_lines.specs.declared.Names.TheVariants.{Task};

// The kinds, in the order of their records: RIG, T, C, A, M and B lines.
#[derive(Clone, Copy, Debug, PartialEq, Eq)]
pub enum Kind {
    Rig,
    Task,
    Condition,
    Line,
    Flag,
    Row,
}

// What a number of a line names.
#[derive(Clone, Copy, Debug, PartialEq, Eq)]
pub enum Names {
    Task,
    Flag,
    Other,
}

impl Names {
    // 1 for a task, 2 for a flag, 0 for something else.
    fn number(self) -> u8
        ensures { result ≡ names_number self }
    {
        match self {
            Names::Task => 1,
            Names::Flag => 2,
            Names::Other => 0,
        }
    }
}

impl Kind {
    // The kind of a number in the order of the records, for a number that comes from elsewhere.
    pub fn numbered(number: usize) -> Option<Kind>
        ensures { kind_report result ≡ cond (is_known number) number 0 }
    {
        match number {
            1 => Some(Kind::Rig),
            2 => Some(Kind::Task),
            3 => Some(Kind::Condition),
            4 => Some(Kind::Line),
            5 => Some(Kind::Flag),
            6 => Some(Kind::Row),
            _ => None,
        }
    }

    // Its number in the order of the records, from 1 on.
    pub fn number(self) -> u8
        ensures { result ≡ kind_number self }
    {
        match self {
            Kind::Rig => 1,
            Kind::Task => 2,
            Kind::Condition => 3,
            Kind::Line => 4,
            Kind::Flag => 5,
            Kind::Row => 6,
        }
    }

    // How many numbers a line of this kind has.
    #[tactic(auto, unfolding(crate::specs::Kinds::count_of, crate::specs::Kinds::counts))]
    pub fn count(self) -> usize
        ensures { (result ≡ count_of (kind_number self)) × (result ≤ 9) }
    {
        match self {
            Kind::Rig => 4,
            Kind::Task => 5,
            Kind::Condition => 4,
            Kind::Line => 3,
            Kind::Flag => 2,
            Kind::Row => 7,
        }
    }

    // What each number names.
    pub fn names(self) -> [Names; 9]
        ensures { (j : ℕ) → j < 9 → names_number (get_or result j Task) ≡ sort_of (kind_number self) j }
    {
        let o = Names::Other;
        let t = Names::Task;
        let f = Names::Flag;
        match self {
            Kind::Task => [t, t, o, o, f, o, o, o, o],
            Kind::Condition => [t, o, o, o, o, o, o, o, o],
            Kind::Line => [t, o, f, o, o, o, o, o, o],
            Kind::Flag => [o, f, o, o, o, o, o, o, o],
            Kind::Rig | Kind::Row => [o; 9],
        }
    }
}

// How many numbers a line has whose kind has the number `k`; 0 where no kind has it.
pub fn count(k: usize) -> usize
    ensures { (result ≡ count_of k) × (result ≤ 9) }
{
    match Kind::numbered(k) {
        Some(kind) => kind.count(),
        None => 0,
    }
}

// What each number of such a line names: 1 a task, 2 a flag, 0 something else, as where no kind has the number `k`.
pub fn sorts(k: usize) -> [u8; 9]
    ensures { (j : ℕ) → j < 9 → get_or result j 0 ≡ sort_of k j }
{
    let mut sorts = [0; 9];
    let Some(kind) = Kind::numbered(k) else {
        return sorts;
    };
    let names = kind.names();
    for j in 0..9 {
        sorts[j] = names[j].number();
    }
    sorts
}

// The kind of a name.
#[tactic(auto, unfolding(crate::specs::Kinds::kind_of, crate::specs::Kinds::kind_of_letter))]
pub fn kind_in(name: &[u8]) -> Option<Kind>
    ensures { kind_report result ≡ kind_of name.now }
{
    match name {
        b"RIG" => Some(Kind::Rig),
        b"T" => Some(Kind::Task),
        b"C" => Some(Kind::Condition),
        b"A" => Some(Kind::Line),
        b"M" => Some(Kind::Flag),
        b"B" => Some(Kind::Row),
        _ => None,
    }
}
