// The fields of a line: numbers after single spaces.
use rules::Tariff;
use std::str;

// The most words that a line may have: room for the 366 of the longest sheet and the 15,005 of the longest result,
// and for more than that.
pub(crate) const MOST: usize = 16384;

// The text of a field of digits and small letters. A sign or a large letter, which the library would read, is no part
// of a number here.
fn digits(field: &[u8]) -> Option<&str> {
    let is_digit = |byte: &u8| matches!(byte, b'0'..=b'9' | b'a'..=b'f');
    let text = str::from_utf8(field).ok()?;
    field.iter().all(is_digit).then_some(text)
}

// The decimal number that a field spells.
fn number(field: &[u8]) -> Option<u64> {
    u64::from_str_radix(digits(field)?, 10).ok()
}

// The word that a field spells, a hexadecimal number.
fn word(field: &[u8]) -> Option<u32> {
    u32::from_str_radix(digits(field)?, 16).ok()
}

// The text in front of the first space, and the text from there on.
pub(crate) fn cut(text: &[u8]) -> (&[u8], &[u8]) {
    let end = text.iter().position(|byte| *byte == b' ');
    text.split_at(end.unwrap_or(text.len()))
}

// The fields of a line that are not read yet. Where one doesn't spell what is asked for, there is none.
#[derive(Drop)]
pub(crate) struct Fields<'a> {
    rest: &'a [u8],
}

impl<'a> Fields<'a> {
    pub(crate) fn new(text: &'a [u8]) -> Fields<'a> {
        Fields { rest: text }
    }

    pub(crate) fn number(&mut self) -> Option<u64> {
        let (_, behind) = self.rest.split_first()?;
        let (field, rest) = cut(behind);
        self.rest = rest;
        number(field)
    }

    // The next number as an argument of 32 bits. A larger one becomes the largest, which every call refuses as it would
    // the number itself.
    pub(crate) fn argument(&mut self) -> Option<u32> {
        let number = self.number()?;
        Some(u32::try_from(number).unwrap_or(u32::MAX))
    }

    pub(crate) fn tariff(&mut self) -> Option<Tariff> {
        Some(Tariff {
            rate: self.argument()?,
            least: self.argument()?,
            greatest: self.argument()?,
        })
    }

    // All others as words; none also where the room is too small. They are counted by hand, since the library collects
    // only into memory that it takes.
    pub(crate) fn words<'r>(self, room: &'r mut [u32]) -> Option<&'r [u32]> {
        let mut count = 0;
        for field in self.rest.split(|byte| *byte == b' ').skip(1) {
            *room.get_mut(count)? = word(field)?;
            count += 1;
        }
        Some(&room[..count])
    }

    // There are no others.
    pub(crate) fn end(self) -> Option<()> {
        self.rest.is_empty().then_some(())
    }
}
