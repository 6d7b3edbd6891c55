// The words of a sheet, out of the bytes that the program reads.
ghost use Rattle.std.specs.Prelude.{◌*◌, ◌≡◌, length};
ghost use Rattle.rules.specs.Listing.{input_fits, sheet_in};

use crate::MOST_BYTES;

// Refusal 12, by clause 11.1.
pub fn input_fits(bytes: &[u8]) -> bool
    ensures { result ≡ input_fits bytes.now }
{
    (bytes.len() % 4 == 0) & (bytes.len() <= MOST_BYTES)
}

// All words, high byte first, into a space of just as many.
pub fn read_words(bytes: &[u8], words: &mut [u32])
    requires { 4 * length words.old ≡ length bytes.now }
    ensures { words.new ≡ sheet_in bytes.now }
{
    let (fours, _) = bytes.as_chunks::<4>();
    // By place: after a `zip` nothing is known of the words. `read_result` has another chunk and another test, so one function
    // for both would take both from its caller.
    for (i, word) in words.iter_mut().enumerate() {
        *word = u32::from_be_bytes(fours[i]);
    }
}
