// The words of a text, and the numbers among them.

// The most numbers that a step has: those of a run of eight loads.
pub const MOST_NUMBERS: usize = 24;

// Words are parted by blanks.
pub(crate) fn is_blank(byte: &u8) -> bool {
    *byte == b' '
}

// The text up to its first blank, and what follows that. Where there is no blank, nothing follows.
pub(crate) fn split_at_blank(text: &[u8]) -> (&[u8], &[u8]) {
    let mut parts = text.splitn(2, is_blank);
    let first = parts.next().unwrap_or(&[]);
    (first, parts.next().unwrap_or(&[]))
}

// The number with one more digit, if the byte is a digit and the number has room for it.
fn with_digit(number: u32, byte: u8) -> Option<u32> {
    let digit = char::from(byte).to_digit(10)?;
    number.checked_mul(10)?.checked_add(digit)
}

// The number that the digits at the start of a word give, of as many of them as fit.
pub(crate) fn number(word: &[u8]) -> Option<u32> {
    word.iter()
        .scan(0, |number, &byte| {
            *number = with_digit(*number, byte)?;
            Some(*number)
        })
        .last()
}

// The number of each word that begins with a digit, in order, as many as there is room for.
pub(crate) fn numbers<'a>(text: &[u8], room: &'a mut [u32]) -> &'a [u32] {
    let mut count: usize = 0;
    for found in text.split(is_blank).filter_map(number) {
        if count == room.len() {
            return room;
        }
        room[count] = found;
        count += 1;
    }
    &room[..count]
}
