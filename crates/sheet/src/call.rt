//! Calls of a sheet, one a line.
ghost use Rattle.std.specs.Prelude.{◌∷◌};
ghost use Rattle.sheet.specs.Calls.{Spelled};
ghost use Rattle.sheet.specs.Arguments.{Argument, OneArgument, TwoArguments, Alone};

use crate::field::{Field, number, read_field};
use plan::Junction;

/// A call of a sheet: a new set of n junctions, a change of it, or an order by a kind of label.
#[derive(Clone, Copy, PartialEq, Eq, Debug)]
pub enum Call {
    New(u16),
    Join(Junction, Junction),
    Cut(Junction, Junction),
    Shut(Junction),
    Open(Junction),
    OrderLexicographic,
    OrderCounting,
}

/// The call that a line spells, without its byte 10; `None` where it is no call.
pub fn read_call(line: &[u8]) -> Option<Call>
    ensures { Spelled line.now result }
{
    match read_field(line, 0) {
        (Field::Verb([letter], _), rest) => call_by(*letter, rest),
        _ => None,
    }
}

// The call of a verb and what follows it on the line.
fn call_by(letter: u8, rest: &[u8]) -> Option<Call>
    ensures { Spelled (letter ∷ rest.now) result }
{
    match letter as char {
        'N' => one_argument(rest).map(Call::New),
        'J' => two_arguments(rest).map(|(v, w)| Call::Join(Junction(v), Junction(w))),
        'C' => two_arguments(rest).map(|(v, w)| Call::Cut(Junction(v), Junction(w))),
        'S' => one_argument(rest).map(|v| Call::Shut(Junction(v))),
        'O' => one_argument(rest).map(|v| Call::Open(Junction(v))),
        'L' => alone(rest, Call::OrderLexicographic),
        'K' => alone(rest, Call::OrderCounting),
        _ => None,
    }
}

// The call, where nothing follows its verb.
fn alone(rest: &[u8], call: Call) -> Option<Call>
    ensures { Alone rest.now call result }
{
    rest.is_empty().then_some(call)
}

// One number after a blank, and what is left behind it.
fn argument(rest: &[u8]) -> Option<(u16, &[u8])>
    ensures { Argument rest.now result }
{
    if !rest.starts_with(b" ") {
        return None;
    }
    match read_field(rest, 1) {
        (Field::Number(text, _), end) => Some((number(text)?, end)),
        _ => None,
    }
}

// One number after a blank, and nothing behind it.
fn one_argument(rest: &[u8]) -> Option<u16>
    ensures { OneArgument rest.now result }
{
    let (n, end) = argument(rest)?;
    end.is_empty().then_some(n)
}

// Two numbers, each after a blank, and nothing behind them.
fn two_arguments(rest: &[u8]) -> Option<(u16, u16)>
    ensures { TwoArguments rest.now result }
{
    let (m, more) = argument(rest)?;
    one_argument(more).map(|n| (m, n))
}
