// A parameter set beside the answer of the operation that gives it.
#![tactic(auto)]

ghost use Rattle.std.specs.Prelude.{Err, ◌≡◌};
ghost use Rattle.number.specs.Answer.{answer};
ghost use Rattle.mie_parameters.specs.Answer.{outcome, stored};

use number::Refusal;

// The parameters of a model.
pub trait Parameters: Copy + Drop {
    ghost empty_set: { Self };

    // The set beside a refusal: no component.
    fn empty() -> Self
        ensures { result ≡ empty_set };
}

// Whether a set is held, or the refusal; beside a refusal the empty set: a set stands beside its answer, as document 01's Forms ask.
#[derive(Clone, Copy)]
pub struct ParameterSet<S> {
    pub answer: Result<(), Refusal>,
    pub set: S,
}

pub fn refused_with<S: Parameters>(refusal: Refusal) -> ParameterSet<S>
    ensures { (result.answer ≡ Err refusal) × (result.set ≡ S.empty_set) }
{
    ParameterSet {
        answer: Err(refusal),
        set: S::empty(),
    }
}

// An operation's set beside its answer.
#[tactic(auto, unfolding(crate::specs::Answer::stored))]
pub fn beside_answer<S: Parameters>(given: Result<S, Refusal>) -> ParameterSet<S>
    ensures answer { outcome result.answer result.set ≡ answer given }
    ensures set { result.set ≡ stored S.empty_set (answer given) }
{
    match given {
        Ok(set) => ParameterSet {
            answer: Ok(()),
            set,
        },
        Err(refusal) => refused_with(refusal),
    }
}
