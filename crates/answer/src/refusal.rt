// The refusals and their numbers, in the order in which they win.
ghost use Rattle.std.specs.Prelude.{◌≡◌, map};
ghost use Rattle.meaning.specs.Refusal.{in_order, number};
ghost use Rattle.answer.specs.Refused.{meant};

#[derive(Clone, Copy, Debug, PartialEq, Eq)]
pub enum Refusal {
    Number = 1,
    Form = 2,
    Origin = 3,
    Rank = 4,
    Axis = 5,
    Length = 6,
    Domain = 7,
    Index = 8,
    Limit = 9,
    Space = 10,
}

impl Refusal {
    // Its number is that of the definitions; a cast is how an enum's is read.
    pub fn number(self) -> usize
        ensures { result ≡ number (meant self) }
    {
        self as usize
    }
}

// All of them, as the definitions have them. Written out: nothing lists the variants of an enum.
pub fn numbers() -> [usize; 10]
    ensures { result ≡ map number in_order }
{
    [
        Refusal::Number as usize,
        Refusal::Form as usize,
        Refusal::Origin as usize,
        Refusal::Rank as usize,
        Refusal::Axis as usize,
        Refusal::Length as usize,
        Refusal::Domain as usize,
        Refusal::Index as usize,
        Refusal::Limit as usize,
        Refusal::Space as usize,
    ]
}
