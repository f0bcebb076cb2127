//! Answers that are types, so that the compiler checks them.
ghost use Rattle.std.specs.Prelude.{Bool, true, false, IsTrue, ◌⊎◌};
ghost use Rattle.octseq_format.specs.Answer.{both_yes, both_no, either_first, either_second};

/// An answer that is a type: [`Yes`] or [`No`].
pub trait Answer {
    ghost yes: { Bool };
}

/// It is so.
#[derive(Debug)]
pub struct Yes;

/// It isn't so.
#[derive(Debug)]
pub struct No;

impl Answer for Yes {
    ghost yes = { true };
}

impl Answer for No {
    ghost yes = { false };
}

/// `Yes` if both answers are `Yes`, otherwise `No`.
pub trait And<B: Answer>: Answer {
    /// The answer.
    type Joined: Answer;

    ghost both: { IsTrue Self.Joined.yes → IsTrue Self.yes × IsTrue B.yes };
}

impl<B: Answer> And<B> for Yes {
    type Joined = B;

    ghost both = { both_yes };
}

impl<B: Answer> And<B> for No {
    type Joined = No;

    ghost both = { both_no };
}

/// `Yes` if one of both answers is `Yes`, otherwise `No`.
pub trait Or<B: Answer>: Answer {
    /// The answer.
    type Joined: Answer;

    ghost either: { IsTrue Self.Joined.yes → IsTrue Self.yes ⊎ IsTrue B.yes };
}

impl<B: Answer> Or<B> for Yes {
    type Joined = Yes;

    ghost either = { either_first };
}

impl<B: Answer> Or<B> for No {
    type Joined = B;

    ghost either = { either_second };
}
