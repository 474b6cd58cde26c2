//! Two kinds of label as one kind, so that searches by both can stand in one list.
ghost use Rattle.label.specs.Eithers.{blank_either, raised_either, compared_either, StandsEither};
ghost use Rattle.label.specs.Paired.{either_lawful};

use crate::kind::Kind;
use plan::Place;
use std::cmp::Ordering;

/// One of two kinds, and a label of one of two kinds: the labels of the kind that is not chosen
/// stand for nothing.
#[derive(Clone, Copy)]
pub enum Either<A, B> {
    /// The first kind, or a label of it.
    First(A),
    /// The second kind, or a label of it.
    Second(B),
}

impl<A: Kind, B: Kind> Kind for Either<A, B> {
    type Label = Either<A::Label, B::Label>;

    ghost blank = { blank_either A.Kind.blank B.Kind.blank };

    ghost raised = { raised_either A.Kind.raised B.Kind.raised };

    ghost compared = { compared_either A.Kind.compared B.Kind.compared };

    ghost stands = { StandsEither A.Kind.stands B.Kind.stands };

    ghost lawful = { λ k. either_lawful A.Kind.blank B.Kind.blank A.Kind.raised B.Kind.raised A.Kind.compared B.Kind.compared A.Kind.stands B.Kind.stands A.Kind.lawful B.Kind.lawful k };

    fn empty(&self) -> Either<A::Label, B::Label> {
        match self {
            Either::First(a) => Either::First(a.empty()),
            Either::Second(b) => Either::Second(b.empty()),
        }
    }

    fn raise(&self, label: Either<A::Label, B::Label>, mark: Place) -> Either<A::Label, B::Label> {
        match (self, label) {
            (Either::First(a), Either::First(x)) => Either::First(a.raise(x, mark)),
            (Either::Second(b), Either::Second(y)) => Either::Second(b.raise(y, mark)),
            (_, other) => other,
        }
    }

    fn compare(&self, x: &Either<A::Label, B::Label>, y: &Either<A::Label, B::Label>) -> Ordering {
        match (x, y) {
            (Either::First(p), Either::First(q)) => match self {
                Either::First(a) => a.compare(p, q),
                Either::Second(_) => Ordering::Equal,
            },
            (Either::Second(p), Either::Second(q)) => match self {
                Either::First(_) => Ordering::Equal,
                Either::Second(b) => b.compare(p, q),
            },
            (Either::First(_), Either::Second(_)) => Ordering::Less,
            (Either::Second(_), Either::First(_)) => Ordering::Greater,
        }
    }
}
