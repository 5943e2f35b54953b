// A writer over a lent buffer: what it has written stands at the buffer's start, and the bytes behind are left as they were.
ghost use Rattle.std.specs.Prelude.{◌≡◌, ◌+◌, ◌≤◌, ◌<◌, [], ◌∷◌, ◌++◌, length};
ghost use Rattle.printer.specs.Decimal.{digit, digits};
ghost use Rattle.writing.specs.Row.{field, numbers, Short};

#[derive(Drop)]
pub struct Writer<'a> {
    out: &'a mut [u8],
    at: usize,
    pub ghost within: { at ≤ length out.now },
}

impl<'a> Writer<'a> {
    ghost use Rattle.writing.specs.Writer.{Adds, rest, room, written};

    pub fn new(out: &'a mut [u8]) -> Writer<'a>
        ensures same_buffer { result.out.ghost_name ≡ out.entry.ghost_name }
        ensures nothing_written { (written result ≡ []) × (rest result ≡ out.old) }
    {
        Writer { out, at: 0 }
    }

    // How many bytes are written.
    pub fn len(&self) -> usize
        ensures { result ≡ length (written self.now) }
    {
        self.at
    }

    pub fn put_byte(&mut self, b: u8)
        requires { 1 ≤ room self.old }
        ensures { Adds self.old (b ∷ []) self.new }
    {
        self.out[self.at] = b;
        self.at += 1;
    }

    pub fn put_word(&mut self, word: &[u8])
        requires { length word.now ≤ room self.old }
        ensures { Adds self.old word.now self.new }
    {
        let end = self.at + word.len();
        let out = &mut *self.out;
        out[self.at..end].copy_from_slice(word);
        self.at = end;
    }

    // The first digits are those of the tenth part. By hand: std's own writes into a buffer of its own, and its law would be one more (d).
    fn put_number(&mut self, n: u32)
        requires { (n < 100000) × (length (digits n) ≤ room self.old) }
        ensures { Adds self.old (digits n) self.new }
    {
        if 9 < n {
            self.put_number(n / 10);
        }
        self.put_byte(b'0' + (n % 10) as u8);
    }

    // A number after a tab.
    pub fn put_field(&mut self, n: u32)
        requires { (n < 100000) × (length (field n) ≤ room self.old) }
        ensures { Adds self.old (field n) self.new }
    {
        self.put_byte(b'\t');
        self.put_number(n);
    }

    // A row: its word, its numbers, each after a tab, and the line's end.
    pub fn put_row(&mut self, word: &[u8], row: &[u32])
        requires { Short row.now × (length word.now + length (numbers row.now) ≤ room self.old) }
        ensures { Adds self.old (word.now ++ numbers row.now) self.new }
    {
        self.put_word(word);
        for n in row {
            self.put_field(*n);
        }
        self.put_byte(b'\n');
    }
}
