// The answers of an event call and their numbers, for `watch` and its callers. Apart from the calls, because an edit there need not prove
// these matches again.
#![tactic(auto)]

ghost use Rattle.std.specs.Prelude.{◌≡◌};
ghost use Rattle.calls.specs.Answers.{number_of, place_of};

use calls::EventAnswer;

// Document 01's number of an answer.
pub fn number_of(a: EventAnswer) -> usize
    ensures { result ≡ number_of a }
{
    match a {
        EventAnswer::Accepted => 0,
        EventAnswer::Unsound => 9,
        EventAnswer::OutOfForm => 10,
        EventAnswer::TooMany => 11,
        EventAnswer::NoRoom => 12,
        EventAnswer::NoSpace => 13,
    }
}

// The place beside it: answers 9 to 13 carry place 0.
pub fn place_of(a: EventAnswer) -> usize
    ensures { result ≡ place_of a }
{
    match a {
        EventAnswer::Accepted
        | EventAnswer::Unsound
        | EventAnswer::OutOfForm
        | EventAnswer::TooMany
        | EventAnswer::NoRoom
        | EventAnswer::NoSpace => 0,
    }
}
