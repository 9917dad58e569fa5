// The parts of a line: the spaces that it begins with, its word, and the remark that may end it.
use crate::faults::Fault;
use crate::fields::Field;
use crate::groups::Group;

// What a line's word names.
#[derive(Clone, Copy)]
pub(crate) enum Name {
    Group(Group),
    Field(Field),
}

// How many spaces a line begins with.
pub(crate) fn spaces(line: &[u8]) -> usize {
    line.iter()
        .position(|byte| *byte != b' ')
        .unwrap_or(line.len())
}

// A text without the remark that may end it, which begins with a space and a bracket.
pub(crate) fn without_remark(text: &[u8]) -> &[u8] {
    match text.windows(2).position(|pair| pair == b" (".as_slice()) {
        Some(end) => bench_bytes::front(text, end),
        None => text,
    }
}

// A text's first word, and what stands after the space that ends it.
pub(crate) fn first_word(text: &[u8]) -> (&[u8], Option<&[u8]>) {
    match text.iter().position(|byte| *byte == b' ') {
        Some(end) => (&text[..end], Some(&text[end + 1..])),
        None => (text, None),
    }
}

// What a word names.
pub(crate) fn name_of(word: &[u8]) -> Option<Name> {
    match word {
        b"house" => Some(Name::Group(Group::House)),
        b"floor" => Some(Name::Group(Group::Floor)),
        b"room" => Some(Name::Group(Group::Room)),
        b"reading" => Some(Name::Group(Group::Reading)),
        b"time" => Some(Name::Field(Field::Time)),
        b"temperature" => Some(Name::Field(Field::Temperature)),
        b"pressure" => Some(Name::Field(Field::Pressure)),
        b"humidity" => Some(Name::Field(Field::Humidity)),
        _ => None,
    }
}

// How deep a line stands that begins with so many spaces.
pub(crate) fn depth(spaces: usize) -> Result<usize, Fault> {
    match spaces {
        0 | 2 | 4 | 6 | 8 => Ok(spaces / 2),
        _ => Err(Fault::Indentation),
    }
}
