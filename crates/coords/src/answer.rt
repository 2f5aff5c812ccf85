// What a walk over a window answers, and so what may stand after the window's last pair: the answer of a reading, or a byte, of which only
// some are the number of an answer.
ghost use Rattle.std.specs.Prelude.{◌≡◌, ℕ, eqb};
ghost use Rattle.kinds.specs.Refusal.{answer_of};

use kinds::refusal::Refusal;

pub trait Answer: Copy {
    ghost number: { Self → ℕ };

    fn of(answer: Result<(), Refusal>) -> Self
        ensures { number result ≡ answer_of answer };

    fn is_done(self) -> bool
        ensures { result ≡ eqb (number self) 0 };
}

impl Answer for Result<(), Refusal> {
    ghost number = { λ answer. answer_of answer };

    fn of(answer: Result<(), Refusal>) -> Result<(), Refusal> {
        answer
    }

    fn is_done(self) -> bool {
        self.is_ok()
    }
}

impl Answer for u8 {
    ghost number = { λ byte. byte };

    fn of(answer: Result<(), Refusal>) -> u8 {
        match answer {
            Ok(()) => 0,
            Err(refusal) => refusal.number(),
        }
    }

    fn is_done(self) -> bool {
        self == 0
    }
}
