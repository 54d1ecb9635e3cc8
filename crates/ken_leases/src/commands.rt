// What nodes are asked, and what they are answered, in words.
ghost use Rattle.std.specs.Prelude.{◌≡◌, ◌==◌, option_map, option_copied, IfSome};
ghost use Rattle.std.specs.List.{position};
ghost use Rattle.ken_model.specs.Bank.{name_of, named_amount};
ghost use Rattle.ken_model.specs.KeyValue.{at_space};
ghost use Rattle.ken_model.specs.Orders.{IsNameLong};
ghost use Rattle.ken_leases.specs.Found.{command_view, parts_view, named_view};
ghost use Rattle.ken_leases.specs.Leases.{named_term, command_of, is_answer};

use ken_model::MAX_NAME;
use ken_num::num;

/// What is asked about a name.
#[derive(Clone, Copy)]
pub(crate) enum Action {
    Acquire { term: u64 },
    Renew { term: u64 },
    Release,
}

/// A name, and what is asked about it. A name is 1 to `MAX_NAME` bytes without a space.
#[derive(Clone, Copy)]
pub(crate) struct Command<'a> {
    pub name: &'a [u8],
    pub action: Action,
}

/// What stands before the first space, and what after it.
#[derive(Clone, Copy)]
struct Parts<'a> {
    before: &'a [u8],
    after: &'a [u8],
}

/// A name and a term.
#[derive(Clone, Copy)]
struct Named<'a> {
    name: &'a [u8],
    term: u64,
}

/// The command that a text is.
pub(crate) fn command_of(text: &[u8]) -> Option<Command<'_>>
    ensures command { option_map command_view result ≡ command_of text.now }
    ensures name { IfSome result (λ command. IsNameLong command.name.now) }
{
    let Parts { before, after } = at_space(text)?;
    if before == b"acquire".as_slice() {
        let Named { name, term } = named_term(after)?;
        let action = Action::Acquire { term };
        Some(Command { name, action })
    } else if before == b"renew".as_slice() {
        let Named { name, term } = named_term(after)?;
        let action = Action::Renew { term };
        Some(Command { name, action })
    } else if before == b"release".as_slice() {
        let name = name_of(after)?;
        let action = Action::Release;
        Some(Command { name, action })
    } else {
        None
    }
}

/// Whether a text is a keeper's answer, by its first word.
pub(crate) fn is_answer(text: &[u8]) -> bool
    ensures { result ≡ is_answer (at_space text.now) }
{
    let Some(parts) = at_space(text) else {
        return false;
    };
    let word = parts.before;
    word == b"granted".as_slice()
        || word == b"held".as_slice()
        || word == b"lost".as_slice()
        || word == b"released".as_slice()
        || word == b"full".as_slice()
}

/// The bytes, where they are a name and a term that isn't 0.
fn named_term(bytes: &[u8]) -> Option<Named<'_>>
    ensures named { option_map named_view result ≡ named_term bytes.now }
    ensures long { IfSome result (λ named. IsNameLong named.name.now) }
{
    let named = named_amount(bytes)?;
    if named.term > 0 { Some(named) } else { None }
}

/// The bytes, where they are a name and a number.
fn named_amount(bytes: &[u8]) -> Option<Named<'_>>
    ensures named { option_map named_view result ≡ named_amount bytes.now }
    ensures long { IfSome result (λ named. IsNameLong named.name.now) }
{
    let Parts { before, after } = at_space(bytes)?;
    let name = name_of(before)?;
    let term = num(after)?;
    Some(Named { name, term })
}

/// The bytes, where they are a name.
fn name_of(bytes: &[u8]) -> Option<&[u8]>
    ensures name { option_copied result ≡ name_of bytes.now }
    ensures long { IfSome result (λ name. IsNameLong name.now) }
{
    match at_space(bytes) {
        Some(_) => None,
        None => (!bytes.is_empty() && bytes.len() <= MAX_NAME).then_some(bytes),
    }
}

/// The bytes before the first space and after it, where there is one.
fn at_space(bytes: &[u8]) -> Option<Parts<'_>>
    ensures { option_map parts_view result ≡ at_space bytes.now }
{
    let space = first_space(bytes)?;
    Some(Parts {
        before: &bytes[..space],
        after: &bytes[space + 1..],
    })
}

/// The place of the first space.
fn first_space(bytes: &[u8]) -> Option<usize>
    ensures { result ≡ position (λ b. b == 32) bytes.now }
{
    bytes.iter().position(|byte| *byte == b' ')
}
