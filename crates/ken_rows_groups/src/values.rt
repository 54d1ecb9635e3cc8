// Words that are values behind their name, as `settled=1`, and nodes.
use ken_model::OUTSIDE;
use ken_rows::{RowFault, Words};

/// A word's name, and the value behind it.
#[derive(Drop)]
pub(crate) struct Named<'a> {
    pub name: &'a [u8],
    pub value: Words<'a>,
}

/// The next word, which is a value behind its name.
pub(crate) fn next_named<'a>(words: &mut Words<'a>) -> Result<Named<'a>, RowFault> {
    let word = words.word()?;
    let at = word
        .iter()
        .position(|byte| *byte == b'=')
        .ok_or(RowFault::Usage)?;
    Ok(Named {
        name: &word[..at],
        value: Words::new(&word[at + 1..]),
    })
}

/// The value of the next word, which has this name.
pub(crate) fn value_of<'a>(words: &mut Words<'a>, name: &[u8]) -> Result<Words<'a>, RowFault> {
    let next = next_named(words)?;
    if next.name == name {
        Ok(next.value)
    } else {
        Err(RowFault::Usage)
    }
}

/// A number of eight bits.
pub(crate) fn small(words: &mut Words<'_>) -> Result<u8, RowFault> {
    Ok(words.within(0, 255)? as u8)
}

/// A sender: a node, or `outside`.
pub(crate) fn sender(words: &mut Words<'_>) -> Result<u8, RowFault> {
    let word = words.word()?;
    if word == b"outside".as_slice() {
        Ok(OUTSIDE)
    } else {
        small(&mut Words::new(word))
    }
}
