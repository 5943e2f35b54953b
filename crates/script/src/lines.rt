// A file of lines and, between them, texts of any bytes.
ghost use Rattle.std.specs.Prelude.{◌≡◌, ◌-◌, ◌≤◌, ◌<◌, length, IfSome};
ghost use Rattle.std.specs.Iterator.{at_most};

// What is left of such a file.
#[derive(Drop)]
pub struct Lines<'a> {
    pub rest: &'a [u8],
}

impl<'a> Lines<'a> {
    // The next bytes, so many of them. Where there are fewer it is none, and nothing is left.
    pub fn bytes(&mut self, count: usize) -> &'a [u8]
        ensures { length self.new.rest.now ≡ length self.old.rest.now - count }
    {
        let (text, rest) = self.rest.split_at_checked(count).unwrap_or_default();
        self.rest = rest;
        text
    }
}

impl<'a> Iterator for Lines<'a> {
    type Item = &'a [u8];

    ghost next_gives = { λ s line t. IfSome line (λ _. length t.rest.now < length s.rest.now) × (length t.rest.now ≤ length s.rest.now) };

    ghost remaining = { λ s. at_most (length s.rest.now) };

    // The next line, without its end.
    fn next(&mut self) -> Option<&'a [u8]> {
        if self.rest.is_empty() {
            return None;
        }
        let end = self.rest.iter().position(|b| *b == b'\n');
        let line = self.bytes(end.unwrap_or(self.rest.len()));
        self.bytes(1);
        Some(line)
    }
}
