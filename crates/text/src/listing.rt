// The words of a stored result, out of its text: lines of eight hexadecimal digits, as the opening
// program prints them.
ghost use Rattle.std.specs.Prelude.{◌*◌, true, ◌≡◌, length, ltb, IfSome};
ghost use Rattle.std.specs.Option.{is_some};
ghost use Rattle.rules.specs.Pages.{digit_value, line_fits, listing_fits, word_on, result_in};

// The bytes of the longest result, 15,005 lines.
pub const MOST_LISTED: usize = 135045;

// The value of a digit; no other byte has one. (`to_digit` takes the letters A to F too.)
fn digit(byte: u8) -> Option<u32>
    ensures is_digit { is_some result ≡ ltb (digit_value byte) 16 }
    ensures value { IfSome result (λ d. d ≡ digit_value byte) }
{
    match byte {
        b'0'..=b'9' => Some(u32::from(byte - b'0')),
        b'a'..=b'f' => Some(u32::from(byte - b'a' + 10)),
        _ => None,
    }
}

// Whether a byte is a digit. Here and in `line_fits` nothing branches, so that the digits of a line are tested at once: by
// `digit`, or with `all`, which ends at the first that is none, it takes three times as long.
fn is_digit(byte: u8) -> bool
    ensures { result ≡ ltb (digit_value byte) 16 }
{
    ((b'0' <= byte) & (byte <= b'9')) | ((b'a' <= byte) & (byte <= b'f'))
}

// Whether a line is eight digits and a newline.
fn line_fits(line: &[u8; 9]) -> bool
    ensures { result ≡ line_fits line.now 0 }
{
    let mut fits = true;
    for byte in &line[..8] {
        fits = fits & is_digit(*byte);
    }
    fits & (line[8] == b'\n')
}

// Whether a text is the lines of some words, and no more than a result has.
pub fn listing_fits(text: &[u8]) -> bool
    ensures { result ≡ listing_fits text.now }
{
    let (lines, rest) = text.as_chunks::<9>();
    // The length first, so that of a text that is too long no line is read.
    if !rest.is_empty() | (MOST_LISTED < text.len()) {
        return false;
    }
    lines.iter().all(line_fits)
}

// The word of a line: eight digits have no more than 32 bits.
fn word_on(line: &[u8; 9]) -> u32
    requires { line_fits line.now 0 ≡ true }
    ensures { result ≡ word_on line.now 0 }
{
    let mut word = 0;
    for byte in &line[..8] {
        word = 16 * word + digit(*byte).unwrap();
    }
    word
}

// The words of all lines, into a space of just as many.
pub fn read_result(text: &[u8], words: &mut [u32])
    requires { (9 * length words.old ≡ length text.now) × (listing_fits text.now ≡ true) }
    ensures { words.new ≡ result_in text.now }
{
    let (lines, _) = text.as_chunks::<9>();
    for (i, word) in words.iter_mut().enumerate() {
        *word = word_on(&lines[i]);
    }
}
