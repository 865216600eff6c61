// Why a call refuses, a variant for each rule, and the number that a caller is told: docs/use/RULES.md says when each is given.
ghost use Rattle.std.specs.Prelude.{◌≡◌, ◌≤◌};
ghost use Rattle.base.specs.common.Decide.{Says};
ghost use Rattle.base.specs.numbers.Numbers.{refused_triangle, refused_fan};
ghost use Rattle.base.specs.refusal.Number.{number_of, answer_number};

#[derive(Clone, Copy, Debug, PartialEq, Eq)]
pub enum Refusal {
    Count,
    Room,
    Box,
    Site,
    Destination,
    Coordinate,
    Triangle,
    Pairing,
    Hull,
    Fan,
    Circumcenter,
    Extension,
    NoCrossing,
    OneCrossing,
    Offsets,
    Form,
    Entry,
    Twice,
    Unclipped,
    Points,
    Grid,
    Flip,
    Corner,
    Border,
}

impl Refusal {
    // Whether it is the mesh's topology that is refused, by rules 7 to 10.
    pub fn of_mesh(self) -> bool
        ensures { Says result ((refused_triangle ≤ number_of self) × (number_of self ≤ refused_fan)) }
    {
        matches!(
            self,
            Refusal::Triangle | Refusal::Pairing | Refusal::Hull | Refusal::Fan
        )
    }
}

impl From<Refusal> for u32 {
    ghost from_gives = { λ r n. n ≡ number_of r };

    fn from(r: Refusal) -> u32 {
        match r {
            Refusal::Count => 1,
            Refusal::Room => 2,
            Refusal::Box => 3,
            Refusal::Site => 4,
            Refusal::Destination => 5,
            Refusal::Coordinate => 6,
            Refusal::Triangle => 7,
            Refusal::Pairing => 8,
            Refusal::Hull => 9,
            Refusal::Fan => 10,
            Refusal::Circumcenter => 11,
            Refusal::Extension => 12,
            Refusal::NoCrossing => 13,
            Refusal::OneCrossing => 14,
            Refusal::Offsets => 16,
            Refusal::Form => 17,
            Refusal::Entry => 18,
            Refusal::Twice => 19,
            Refusal::Unclipped => 20,
            Refusal::Points => 21,
            Refusal::Grid => 22,
            Refusal::Flip => 23,
            Refusal::Corner => 24,
            Refusal::Border => 25,
        }
    }
}

// The number of an answer: 0 where nothing is refused.
pub fn number(answer: Result<(), Refusal>) -> u32
    ensures { result ≡ answer_number answer }
{
    match answer {
        Ok(()) => 0,
        Err(r) => r.into(),
    }
}
