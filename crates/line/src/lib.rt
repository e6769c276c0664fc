// Text in a lent buffer, put byte by byte.
#![tactic(auto)]

ghost use Rattle.std.specs.Prelude.{◌≡◌, List, ℕ};
ghost use Rattle.line.specs.Text.{out_of, put, put_one, put_field, put_line, digits, decimal, outcome_fields};
ghost use Rattle.line.specs.Writing.{out_in, Leaves};

pub const BLANK: u8 = b' ';

pub const MINUS: u8 = b'-';

pub const LINE_FEED: u8 = b'\n';

// A lent buffer, and the place where its next byte goes.
#[derive(Drop)]
pub struct Writer<'a> {
    pub bytes: &'a mut [u8],
    pub at: usize,
}

impl<'a> Writer<'a> {
    pub fn new(bytes: &'a mut [u8]) -> Writer<'a>
        ensures same { result.bytes.ghost_name ≡ bytes.entry.ghost_name }
        ensures start { out_of result.bytes.now result.at ≡ out_of bytes.old 0 }
    {
        Writer { bytes, at: 0 }
    }

    // Past the buffer's end nothing is written, and the places are counted on: so an empty buffer measures a text.
    #[tactic(auto, using(std::proofs::lemmas::List::set_past), unfolding(crate::specs::Text::put_one))]
    pub fn put_byte(&mut self, b: u8)
        ensures { Leaves self.old self.new (put_one (out_in self.old) b) }
    {
        let at = self.at;
        if at < self.bytes.len() {
            self.bytes[at] = b;
        }
        self.at = at.saturating_add(1);
    }

    #[tactic(auto, using(crate::proofs::Puts::put_next, crate::proofs::Puts::put_done))]
    pub fn put_bytes(&mut self, text: &[u8])
        ensures { Leaves self.old self.new (put (out_in self.old) text.now) }
    {
        for b in text {
            self.put_byte(*b);
        }
    }

    // The digits of x, the first ones by a call of its own, so that none is moved. By hand, since std's `fmt` says nothing of the text that it writes.
    #[tactic(auto, using(crate::proofs::Puts::put_then, crate::proofs::Digits::digits_few, crate::proofs::Digits::digits_more), unfolding(crate::specs::Text::put))]
    pub fn put_digits(&mut self, x: u64)
        ensures { Leaves self.old self.new (put (out_in self.old) (digits x)) }
    {
        if x < 10 {
            self.put_byte(b'0' + x as u8);
            return;
        }
        self.put_digits(x / 10);
        self.put_byte(b'0' + (x % 10) as u8);
    }

    // A number of either sign.
    pub fn put_decimal(&mut self, z: i64)
        ensures { Leaves self.old self.new (put (out_in self.old) (decimal z)) }
    {
        if z < 0 {
            self.put_byte(MINUS);
        }
        self.put_digits(whole::magnitude(z));
    }

    // A blank and a text.
    pub fn put_field<T: Text>(&mut self, t: T)
        ensures { Leaves self.old self.new (put_field (out_in self.old) (T.text t)) }
    {
        self.put_byte(BLANK);
        t.put(self);
    }

    // A word, a number, "at" and a place.
    pub fn put_outcome(&mut self, word: &[u8], number: u64, place: u64)
        ensures { Leaves self.old self.new (put_line (out_in self.old) word.now (outcome_fields number place)) }
    {
        self.put_bytes(word);
        self.put_field(number);
        self.put_field(b"at".as_slice());
        self.put_field(place);
        self.put_byte(LINE_FEED);
    }
}

// What stands in a field: a word, or a number in decimal.
pub trait Text {
    ghost text: { Self → List ℕ };

    fn put(self, out: &mut Writer<'_>)
        ensures { Leaves out.old out.new (put (out_in out.old) (text self)) };
}

impl Text for u64 {
    ghost text = { digits };

    fn put(self, out: &mut Writer<'_>) {
        out.put_digits(self);
    }
}

impl Text for i64 {
    ghost text = { decimal };

    fn put(self, out: &mut Writer<'_>) {
        out.put_decimal(self);
    }
}

impl Text for &[u8] {
    ghost text = { λ word. word.now };

    fn put(self, out: &mut Writer<'_>) {
        out.put_bytes(self);
    }
}
