//! The fields of a record.

ghost use Rattle.std.specs.Prelude.{◌≡◌, ◌≢◌, ◌<◌, [], ◌∷◌, true, false, not, MatchOption};
ghost use Rattle.std.specs.Prelude.{MatchResult, IfOk};
ghost use Rattle.script.specs.Names.{is_name};
ghost use Rattle.script.specs.Numbers.{value};
ghost use Rattle.script.specs.Fields.{are_bytes, are_empty, are_hex_bytes, are_numbers};
ghost use Rattle.script.specs.Fields.{fits_arguments, hex_bytes, hex_digit, is_hex_digit};
ghost use Rattle.script.specs.Fields.{field_bytes, is_number_in, is_worker, operation_named};
ghost use Rattle.script.specs.Fields.{task_of};
ghost use Rattle.script.specs.Script.{first_word, task_refusal, RefusesWith};

use crate::numbers::number;
use crate::rows::{Operation, Refusal, Task, Word};
use book::Name;
use bytes::Bytes;
use lrc_code::Code;
use requests::Ask;
use std::alloc::{AllocError, Global};
use std::str;

/// The number that a text represents, or `None` if it is none from `low` to `high`.
pub(crate) fn number_in(text: &[u8], low: u32, high: u32) -> Option<u32>
    ensures { MatchOption result (is_number_in low high text.now ≡ false)
        (λ n. (is_number_in low high text.now ≡ true) × (n ≡ value text.now)) }
{
    match number(text) {
        Some(n) => {
            if n < u64::from(low) || u64::from(high) < n {
                return None;
            }
            Some(n as u32)
        }
        None => None,
    }
}

/// The operation with this word, or `None` if there is none.
#[tactic(auto, unfolding(crate::specs::Fields::operation_named))]
pub(crate) fn operation(text: &[u8]) -> Option<Operation>
    ensures { result ≡ operation_named text.now }
{
    match text {
        b"put" => Some(Operation::Put),
        b"put6" => Some(Operation::PutSmall),
        b"read" => Some(Operation::Read),
        b"lose" => Some(Operation::Lose),
        b"repair" => Some(Operation::Repair),
        b"delete" => Some(Operation::Delete),
        b"stat" => Some(Operation::Stat),
        b"trim" => Some(Operation::Trim),
        b"mend" => Some(Operation::Mend),
        _ => None,
    }
}

/// Whether a byte is a hexadecimal digit.
fn is_hex_digit(byte: u8) -> bool
    ensures { result ≡ is_hex_digit byte }
{
    byte.is_ascii_digit() || (b'a'..=b'f').contains(&byte)
}

/// The value of a hexadecimal digit.
fn hex_digit(byte: u8) -> u8
    requires { is_hex_digit byte ≡ true }
    ensures value { result ≡ hex_digit byte }
    ensures small { result < 16 }
{
    if byte.is_ascii_digit() {
        byte - b'0'
    } else {
        byte - b'a' + 10
    }
}

/// The bytes of a text with two hexadecimal digits for each byte, or `None` if it is not such a
/// text. `AllocError` if memory runs out.
fn hex_bytes(alloc: Global, text: &[u8]) -> Result<Option<Vec<u8>>, AllocError>
    ensures { IfOk result (λ o. MatchOption o (are_hex_bytes text.now ≡ false)
        (λ v. (are_hex_bytes text.now ≡ true) × (v.items ≡ hex_bytes text.now))) }
{
    let mut bytes = Vec::with_capacity(alloc, text.len() / 2)?;
    let mut rest = text;
    while let [high, low, more @ ..] = rest {
        if !is_hex_digit(*high) || !is_hex_digit(*low) {
            return Ok(None);
        }
        bytes.push(hex_digit(*high) * 16 + hex_digit(*low))?;
        rest = more;
    }
    if rest.is_empty() {
        Ok(Some(bytes))
    } else {
        Ok(None)
    }
}

/// The bytes of a put, by the two fields that can have them, or `None` if they have none.
/// `AllocError` if memory runs out.
fn put_bytes(alloc: Global, a: &[u8], b: &[u8]) -> Result<Option<Bytes>, AllocError>
    ensures { IfOk result (λ o. MatchOption o (are_bytes a.now b.now ≡ false)
        (λ v. (are_bytes a.now b.now ≡ true) × (v ≡ field_bytes a.now b.now))) }
{
    match a {
        b"text" => Ok(Some(Bytes::copy_from_slice(alloc, b)?)),
        b"hex" => match hex_bytes(alloc, b)? {
            Some(bytes) => Ok(Some(Bytes::from_vec(bytes)?)),
            None => Ok(None),
        },
        _ => Ok(None),
    }
}

/// The name in a field, or `None` if the field has none.
fn name_of(text: &[u8]) -> Option<Name>
    ensures { MatchOption result (is_name text.now ≡ false)
        (λ n. (is_name text.now ≡ true) × (n ≡ text.now)) }
{
    match str::from_utf8(text) {
        Ok(text) => match Name::new(text) {
            Ok(name) => Some(name),
            Err(_) => None,
        },
        Err(_) => None,
    }
}

/// The worker of a row: a number from 1 to `workers`, and 0 for a `mend`. `None` if the field has
/// another text.
pub(crate) fn worker(operation: Option<Operation>, text: &[u8], workers: u32) -> Option<u32>
    ensures { MatchOption result (is_worker workers operation text.now ≡ false)
        (λ n. (is_worker workers operation text.now ≡ true) × (n ≡ value text.now)) }
{
    if operation != Some(Operation::Mend) {
        return number_in(text, 1, workers);
    }
    match text {
        b"0" => Some(0),
        _ => None,
    }
}

/// The task of a record, by its operation, its name and its arguments.
pub(crate) fn task(
    alloc: Global,
    operation: Operation,
    name: &[u8],
    a: &[u8],
    b: &[u8],
) -> Result<Task, Refusal>
    ensures { MatchResult result
        (λ task. (task_refusal (Some operation) name.now a.now b.now ≡ None)
        × (task ≡ task_of (Some operation) name.now a.now b.now))
        (λ e. RefusesWith e (task_refusal (Some operation) name.now a.now b.now)) }
{
    if operation == Operation::Mend {
        return mend(name, a, b);
    }
    if operation == Operation::Trim {
        return trim(name, a, b);
    }
    let Some(name) = name_of(name) else {
        return Err(Refusal::Refused(Word::Name));
    };
    Ok(Task::Make(ask(alloc, operation, name, a, b)?))
}

/// A `mend`, which has no name and no arguments.
fn mend(name: &[u8], a: &[u8], b: &[u8]) -> Result<Task, Refusal>
    ensures { MatchResult result
        (λ task. (task_refusal (Some Operation.Mend) name.now a.now b.now ≡ None)
        × (task ≡ task_of (Some Operation.Mend) name.now a.now b.now))
        (λ e. RefusesWith e (task_refusal (Some Operation.Mend) name.now a.now b.now)) }
{
    if !name.is_empty() {
        return Err(Refusal::Refused(Word::Name));
    }
    if !a.is_empty() || !b.is_empty() {
        return Err(Refusal::Refused(Word::Argument));
    }
    Ok(Task::Mend)
}

/// A trim, which has no name and one number.
fn trim(name: &[u8], a: &[u8], b: &[u8]) -> Result<Task, Refusal>
    ensures { MatchResult result
        (λ task. (task_refusal (Some Operation.Trim) name.now a.now b.now ≡ None)
        × (task ≡ task_of (Some Operation.Trim) name.now a.now b.now))
        (λ e. RefusesWith e (task_refusal (Some Operation.Trim) name.now a.now b.now)) }
{
    if !name.is_empty() {
        return Err(Refusal::Refused(Word::Name));
    }
    match number(a) {
        Some(keep) if b.is_empty() => Ok(Task::Make(Ask::Trim { keep })),
        _ => Err(Refusal::Refused(Word::Argument)),
    }
}

/// A call on a name, by its operation and its arguments.
fn ask(alloc: Global, operation: Operation, name: Name, a: &[u8], b: &[u8]) -> Result<Ask, Refusal>
    requires mend { operation ≢ Operation.Mend }
    requires trim { operation ≢ Operation.Trim }
    ensures { MatchResult result
        (λ ask. (fits_arguments (Some operation) a.now b.now ≡ true)
        × (Task.Make ask ≡ task_of (Some operation) name a.now b.now))
        (λ e. RefusesWith e
        (first_word ((not (fits_arguments (Some operation) a.now b.now), Word.Argument) ∷ []))) }
{
    match operation {
        Operation::Put => put(alloc, name, Code::Wide, a, b),
        Operation::PutSmall => put(alloc, name, Code::Small, a, b),
        Operation::Read => {
            let (start, len) = numbers(a, b)?;
            Ok(Ask::Read { name, start, len })
        }
        Operation::Lose => {
            let (stripe, fragment) = numbers(a, b)?;
            Ok(Ask::Lose {
                name,
                stripe,
                fragment,
            })
        }
        Operation::Repair => {
            let (stripe, fragment) = numbers(a, b)?;
            Ok(Ask::Repair {
                name,
                stripe,
                fragment,
            })
        }
        Operation::Delete => {
            nothing(a, b)?;
            Ok(Ask::Delete { name })
        }
        Operation::Stat => {
            nothing(a, b)?;
            Ok(Ask::Stat { name })
        }
        Operation::Trim | Operation::Mend => unreachable!(),
    }
}

/// A put in this code.
fn put(alloc: Global, name: Name, code: Code, a: &[u8], b: &[u8]) -> Result<Ask, Refusal>
    ensures { MatchResult result
        (λ ask. (are_bytes a.now b.now ≡ true)
        × (ask ≡ Ask.Put name code (field_bytes a.now b.now)))
        (λ e. RefusesWith e (first_word ((not (are_bytes a.now b.now), Word.Argument) ∷ []))) }
{
    match put_bytes(alloc, a, b) {
        Ok(Some(bytes)) => Ok(Ask::Put { name, code, bytes }),
        Ok(None) => Err(Refusal::Refused(Word::Argument)),
        Err(_) => Err(Refusal::NoMemory),
    }
}

/// Two numbers.
fn numbers(a: &[u8], b: &[u8]) -> Result<(u64, u64), Refusal>
    ensures { MatchResult result
        (λ p. (are_numbers a.now b.now ≡ true) × (p.0 ≡ value a.now) × (p.1 ≡ value b.now))
        (λ e. (are_numbers a.now b.now ≡ false) × (e ≡ Refusal.Refused Word.Argument)) }
{
    match (number(a), number(b)) {
        (Some(a), Some(b)) => Ok((a, b)),
        _ => Err(Refusal::Refused(Word::Argument)),
    }
}

/// Checks that there are no arguments.
fn nothing(a: &[u8], b: &[u8]) -> Result<(), Refusal>
    ensures { MatchResult result
        (λ _. are_empty a.now b.now ≡ true)
        (λ e. (are_empty a.now b.now ≡ false) × (e ≡ Refusal.Refused Word.Argument)) }
{
    if a.is_empty() && b.is_empty() {
        Ok(())
    } else {
        Err(Refusal::Refused(Word::Argument))
    }
}
