// What the payloads of kind kv ask for.
ghost use Rattle.std.specs.Prelude.{◌≡◌, ◌==◌, option_map, option_copied};
ghost use Rattle.std.specs.List.{position};
ghost use Rattle.ken_model.specs.KeyValue.{at_space, key_of, command_of, is_key};
ghost use Rattle.ken_model.specs.Commands.{command_view, parts_view};

/// A payload of kind kv. A key is one or more bytes without a space.
#[derive(Clone, Copy, Debug, PartialEq, Eq)]
pub enum Command<'a> {
    /// Keeps a pair: its key, a space and the text.
    Put { key: &'a [u8], pair: &'a [u8] },
    Get { key: &'a [u8] },
    Delete { key: &'a [u8] },
}

/// What stands before the first space, and what after it.
#[derive(Clone, Copy)]
pub(crate) struct Parts<'a> {
    pub before: &'a [u8],
    pub after: &'a [u8],
}

impl<'a> Command<'a> {
    /// The command that a payload is.
    pub fn of(payload: &'a [u8]) -> Option<Command<'a>>
        ensures { option_map command_view result ≡ command_of payload.now }
    {
        let Parts { before, after } = at_space(payload)?;
        if before == b"put".as_slice() {
            let key = at_space(after)?.before;
            (!key.is_empty()).then_some(Command::Put { key, pair: after })
        } else if before == b"get".as_slice() {
            let key = whole_key(after)?;
            Some(Command::Get { key })
        } else if before == b"del".as_slice() {
            let key = whole_key(after)?;
            Some(Command::Delete { key })
        } else {
            None
        }
    }
}

/// Whether `key` is what stands before the first space of the bytes.
pub fn is_pair_of(bytes: &[u8], key: &[u8]) -> bool
    ensures { result ≡ is_key key.now (at_space bytes.now) }
{
    match at_space(bytes) {
        Some(parts) => parts.before == key,
        None => false,
    }
}

/// The bytes, where they are a key.
fn whole_key(bytes: &[u8]) -> Option<&[u8]>
    ensures { option_copied result ≡ key_of bytes.now (at_space bytes.now) }
{
    match at_space(bytes) {
        Some(_) => None,
        None => (!bytes.is_empty()).then_some(bytes),
    }
}

/// The bytes before the first space and after it, where there is one.
pub(crate) fn at_space(bytes: &[u8]) -> Option<Parts<'_>>
    ensures { option_map parts_view result ≡ at_space bytes.now }
{
    let space = first_space(bytes)?;
    Some(Parts {
        before: &bytes[..space],
        after: &bytes[space + 1..],
    })
}

/// The place of the first space.
fn first_space(bytes: &[u8]) -> Option<usize>
    ensures { result ≡ position (λ b. b == 32) bytes.now }
{
    bytes.iter().position(|byte| *byte == b' ')
}
