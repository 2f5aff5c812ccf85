use std::fmt;

/// What differs in a case. All that does is named.
#[derive(Clone, Copy, PartialEq, Eq)]
pub struct Differences {
    /// The number that is answered.
    pub number: bool,
    /// How many records or bytes the call says, or a place in a text.
    pub count: bool,
    /// What is handed back beside that: a state, a record, a box, whether a reading stopped.
    pub answer: bool,
    /// What is left in the memory that was lent.
    pub memory: bool,
    /// The case cannot be run.
    pub case: bool,
}

impl Differences {
    pub const NONE: Differences = Differences {
        number: false,
        count: false,
        answer: false,
        memory: false,
        case: false,
    };

    pub const CASE: Differences = Differences {
        number: false,
        count: false,
        answer: false,
        memory: false,
        case: true,
    };
}

impl fmt::Display for Differences {
    fn fmt<W: fmt::Write>(&self, f: &mut fmt::Formatter<W>) -> fmt::Result {
        let named = [
            (self.number, " number"),
            (self.count, " count"),
            (self.answer, " answer"),
            (self.memory, " memory"),
            (self.case, " the case itself"),
        ];
        for (differs, name) in named {
            if differs {
                write!(f, "{name}")?;
            }
        }
        Ok(())
    }
}
