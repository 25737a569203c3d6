// Numbers for no (document 01): why a call is refused.
ghost use Rattle.std.specs.Prelude.{◌≡◌};
ghost use Rattle.names.specs.No.{number};

#[derive(Clone, Copy, PartialEq, Eq)]
pub enum No {
    Unsound,
    NoSuch,
    Value,
    Busy,
    Unaimed,
    Open,
    Hardware,
    Privileged,
    Narrow,
    Full,
    Empty,
    Trap,
}

impl No {
    // The paper's number.
    pub fn number(self) -> u8
        ensures { result ≡ number self }
    {
        match self {
            Self::Unsound => 1,
            Self::NoSuch => 2,
            Self::Value => 3,
            Self::Busy => 4,
            Self::Unaimed => 5,
            Self::Open => 6,
            Self::Hardware => 7,
            Self::Privileged => 8,
            Self::Narrow => 9,
            Self::Full => 10,
            Self::Empty => 11,
            Self::Trap => 12,
        }
    }
}
