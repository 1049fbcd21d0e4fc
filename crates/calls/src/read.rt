// Reading calls as they are written.
ghost use Rattle.std.specs.Prelude.{◌≡◌, ℕ, ◌↔◌, List, [], ◌∷◌, drop, Ok, IsOk, IfOk, OnErr, IsUtf8};
ghost use Rattle.std.specs.Str.Iter.{split_whitespace_rest};
ghost use Rattle.calls.specs.declared.call.Call.{Call};
ghost use Rattle.calls.specs.Written.{call_name, call_numbers};
ghost use Rattle.calls.specs.Reading.{words_of, SaysNumber, SayNumbers, Reads, ReadsBack, first, first_three};

use crate::call::Call;
use std::num::ParseIntError;
use std::str::{FromStr, SplitWhitespace};
use thiserror::Error;

/// The error of a text that is no call.
#[derive(Clone, Copy, PartialEq, Eq, Debug, Drop, Error)]
#[error("no call to an office")]
pub struct NotACall;

impl From<ParseIntError> for NotACall {
    fn from(_error: ParseIntError) -> NotACall {
        NotACall
    }
}

// Reads a call: its name and its numbers, with white space between them.
impl FromStr for Call {
    type Err = NotACall;

    ghost from_str_gives = { λ text answer. Reads text answer × ReadsBack text answer };

    fn from_str(text: &str) -> Result<Call, NotACall> {
        let mut words = text.split_whitespace();
        let Some(name) = words.next() else {
            return Err(NotACall);
        };
        let first = next_number(&mut words)?;
        let second = next_number(&mut words)?;
        let third = next_number(&mut words)?;
        no_word_left(&mut words)?;
        call_of(name, [first, second, third])
    }
}

// The next word as a number, if there is one. (With `map` and `transpose` its proof didn't close.)
fn next_number(words: &mut SplitWhitespace) -> Result<Option<u16>, NotACall>
    requires { IsUtf8 (split_whitespace_rest words.old) }
    ensures text { IsUtf8 (split_whitespace_rest words.new) }
    ensures number { (numbers : List ℕ) → SayNumbers (words_of (split_whitespace_rest words.old)) numbers
        ↔ ((result ≡ Ok (first numbers)) × SayNumbers (words_of (split_whitespace_rest words.new)) (drop 1 numbers)) }
{
    match words.next() {
        None => Ok(None),
        Some(word) => Ok(Some(number(word)?)),
    }
}

// The number that a word says.
#[tactic(auto, using(crate::proofs::Numbers::says, crate::proofs::Numbers::says_none))]
fn number(word: &str) -> Result<u16, NotACall>
    ensures says { IfOk result (λ n. SaysNumber word.now n) }
    ensures none { OnErr result ((n : ℕ) → ¬ (SaysNumber word.now n)) }
{
    Ok(word.parse()?)
}

// Refuses a word too many.
#[tactic(auto, using(crate::proofs::Words::some_left, crate::proofs::Words::none_off))]
fn no_word_left(words: &mut SplitWhitespace) -> Result<(), NotACall>
    requires { IsUtf8 (split_whitespace_rest words.old) }
    ensures { IsOk result ↔ (words_of (split_whitespace_rest words.old) ≡ []) }
{
    match words.next() {
        None => Ok(()),
        Some(_) => Err(NotACall),
    }
}

// The call with this name and these numbers.
fn call_of(name: &str, numbers: [Option<u16>; 3]) -> Result<Call, NotACall>
    ensures named { (call : Call) → name.now ≡ call_name call → numbers ≡ first_three (call_numbers call)
        → result ≡ Ok call }
    ensures only { IfOk result (λ call. (name.now ≡ call_name call) × (numbers ≡ first_three (call_numbers call))) }
{
    match numbers {
        [None, None, None] => bare_call(name),
        [Some(n), None, None] => call_of_one(name, n),
        [Some(a), Some(b), None] => call_of_two(name, a, b),
        [Some(a), Some(b), Some(c)] => call_of_three(name, a, b, c),
        _ => Err(NotACall),
    }
}

// The call with this name and no number.
fn bare_call(name: &str) -> Result<Call, NotACall>
    ensures named { (call : Call) → name.now ≡ call_name call → call_numbers call ≡ [] → result ≡ Ok call }
    ensures only { IfOk result (λ call. (name.now ≡ call_name call) × (call_numbers call ≡ [])) }
{
    Ok(match name {
        "count" => Call::Count,
        "issued" => Call::Issued,
        "today" => Call::Today,
        _ => return Err(NotACall),
    })
}

// The call with this name and one number.
fn call_of_one(name: &str, n: u16) -> Result<Call, NotACall>
    ensures named { (call : Call) → name.now ≡ call_name call → call_numbers call ≡ n ∷ [] → result ≡ Ok call }
    ensures only { IfOk result (λ call. (name.now ≡ call_name call) × (call_numbers call ≡ n ∷ [])) }
{
    Ok(match name {
        "yield" => Call::Yield { lease: n },
        "set_day" => Call::SetDay { day: n },
        "lease_at" => Call::LeaseAt { position: n },
        "lease" => Call::LeaseOf { number: n },
        "recall" => Call::Recall { lease: n },
        "day" => Call::Day { day: n },
        "hand_in" => Call::HandIn { lease: n },
        _ => return Err(NotACall),
    })
}

// The call with this name and two numbers.
fn call_of_two(name: &str, a: u16, b: u16) -> Result<Call, NotACall>
    ensures named { (call : Call) → name.now ≡ call_name call → call_numbers call ≡ a ∷ b ∷ [] → result ≡ Ok call }
    ensures only { IfOk result (λ call. (name.now ≡ call_name call) × (call_numbers call ≡ a ∷ b ∷ [])) }
{
    Ok(match name {
        "open" => Call::Open {
            resource: a,
            holder: b,
        },
        "merge" => Call::Merge { a, b },
        "assign" => Call::Assign {
            lease: a,
            holder: b,
        },
        "standing" => Call::Standing {
            resource: a,
            holder: b,
        },
        _ => return Err(NotACall),
    })
}

// The call with this name and three numbers.
fn call_of_three(name: &str, a: u16, b: u16, c: u16) -> Result<Call, NotACall>
    ensures named { (call : Call) → name.now ≡ call_name call → call_numbers call ≡ a ∷ b ∷ c ∷ [] → result ≡ Ok call }
    ensures only { IfOk result (λ call. (name.now ≡ call_name call) × (call_numbers call ≡ a ∷ b ∷ c ∷ [])) }
{
    Ok(match name {
        "delegate" => Call::Delegate {
            lender: a,
            holder: b,
            due: c,
        },
        _ => return Err(NotACall),
    })
}
