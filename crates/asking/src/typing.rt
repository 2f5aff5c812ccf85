// What set_type looks at, and the modes.
ghost use Rattle.std.specs.Prelude.{◌≡◌};
ghost use Rattle.asking.specs.SetType.{with_declared, with_current, with_mode};

// Types and mode are bytes and no enums: they stand among the state words that a C caller owns, where any byte has to come back as it was.
#[derive(Clone, Copy, Debug, PartialEq, Eq)]
pub struct Typing {
    pub declared: u8,
    pub detect: bool,
    pub promote: bool,
    pub current: u8,
    pub mode: u8,
}

impl Typing {
    // The modes, the Rust's GeomState.
    pub const NORMAL: u8 = 0;

    pub const GEOMETRY_COLLECTION: u8 = 1;

    pub const FORCE_MULTI: u8 = 2;

    pub fn with_declared(self, declared: u8) -> Typing
        ensures { result ≡ with_declared self declared }
    {
        Typing { declared, ..self }
    }

    pub fn with_current(self, current: u8) -> Typing
        ensures { result ≡ with_current self current }
    {
        Typing { current, ..self }
    }

    pub fn with_mode(self, mode: u8) -> Typing
        ensures { result ≡ with_mode self mode }
    {
        Typing { mode, ..self }
    }
}
