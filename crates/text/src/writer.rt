// What puts a text into a lent space, one part behind the other.
ghost use Rattle.std.specs.Prelude.{◌≡◌, length};
ghost use Rattle.rules.specs.Listing.{figures};
ghost use Rattle.text.specs.Writing.{HasRoom, Puts};

// A lent space, and how many of its first bytes are the text so far. It is no `fmt::Write`: what the library promises of
// `write!` it promises on `Ok` alone, and `opening_text` and `archive_text` promise their texts on every input.
#[derive(Drop)]
pub struct Writer<'a> {
    pub space: &'a mut [u8],
    pub count: usize,
}

impl<'a> Writer<'a> {
    // A writer that has put nothing yet.
    pub fn new(space: &'a mut [u8]) -> Writer<'a>
        ensures lent { result.space ≡ space.entry }
        ensures nothing { result.count ≡ 0 }
    {
        Writer { space, count: 0 }
    }

    // Some bytes.
    pub fn put(&mut self, bytes: &[u8])
        requires { HasRoom (length bytes.now) self.old }
        ensures { Puts (length bytes.now) bytes.now self.old self.new }
    {
        let end = self.count + bytes.len();
        self.space[self.count..end].copy_from_slice(bytes);
        self.count = end;
    }

    // A number in decimal. No number of 64 bits has more than 20 figures.
    pub fn number(&mut self, n: u64)
        requires { HasRoom 20 self.old }
        ensures { Puts 20 (figures n) self.old self.new }
    {
        let mut digits = [0u8; 20];
        let count = io::decimal(n, &mut digits);
        self.put(&digits[..count]);
    }
}
