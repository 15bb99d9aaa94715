// Text written from its end to its start, so that a digit is written as soon as it is known. By hand, and not by Display and `write!`: a formatter writes
// from the front, so it puts a number's digits, of which the last comes first, into a buffer of its own and copies them, and each call may fail.
ghost use Rattle.std.specs.Prelude.{◌≡◌, suc, ◌+◌, ◌*◌, ◌/◌, ◌%◌, ◌^◌, ◌≤◌, ◌<◌, ℕ, List, [], ◌∷◌, map, length};
ghost use Rattle.sheet_line.specs.Text.{blank, digit, digits, decimal, following};

// The two digits of each number below 100.
static DIGIT_PAIRS: [[u8; 2]; 100] = [
    *b"00", *b"01", *b"02", *b"03", *b"04", *b"05", *b"06", *b"07", *b"08", *b"09", *b"10", *b"11",
    *b"12", *b"13", *b"14", *b"15", *b"16", *b"17", *b"18", *b"19", *b"20", *b"21", *b"22", *b"23",
    *b"24", *b"25", *b"26", *b"27", *b"28", *b"29", *b"30", *b"31", *b"32", *b"33", *b"34", *b"35",
    *b"36", *b"37", *b"38", *b"39", *b"40", *b"41", *b"42", *b"43", *b"44", *b"45", *b"46", *b"47",
    *b"48", *b"49", *b"50", *b"51", *b"52", *b"53", *b"54", *b"55", *b"56", *b"57", *b"58", *b"59",
    *b"60", *b"61", *b"62", *b"63", *b"64", *b"65", *b"66", *b"67", *b"68", *b"69", *b"70", *b"71",
    *b"72", *b"73", *b"74", *b"75", *b"76", *b"77", *b"78", *b"79", *b"80", *b"81", *b"82", *b"83",
    *b"84", *b"85", *b"86", *b"87", *b"88", *b"89", *b"90", *b"91", *b"92", *b"93", *b"94", *b"95",
    *b"96", *b"97", *b"98", *b"99",
];

// How many digits a number has.
pub fn width(n: usize) -> usize
    ensures digits { result ≡ length (digits n) }
    ensures bound { result ≤ 20 }
{
    n.max(1).ilog10() as usize + 1 // usize has no From<u32>.
}

// Writes into a text, before `at`. Its functions are inlined, so that the place stays in a register; a sheet's line takes 0.9 of the time then.
// `new` gives no Option where the text is too short: that was tried, and no clause could say of the text that it stays as it was then, since the result
// may have borrowed it. So each caller tests the room.
#[derive(Drop)]
pub struct Writer<'a> {
    text: &'a mut [u8],
    at: usize,
    ghost within: { at ≤ length text.now },
}

impl<'a> Writer<'a> {
    ghost use Rattle.sheet_answer.specs.Steps.{Puts};

    #[inline(always)]
    pub fn new(text: &'a mut [u8], at: usize) -> Writer<'a>
        requires { at ≤ length text.old }
        ensures same { result.text.ghost_name ≡ text.entry.ghost_name }
        ensures text { result.text.now ≡ text.old }
        ensures at { result.at ≡ at }
    {
        Writer { text, at }
    }

    #[inline(always)]
    pub fn put_byte(&mut self, b: u8)
        requires { 0 < self.old.at }
        ensures { Puts self.old self.new (b ∷ []) }
    {
        self.at -= 1;
        self.text[self.at] = b;
    }

    #[inline(always)]
    pub fn put_word(&mut self, word: &[u8])
        requires { length word.now ≤ self.old.at }
        ensures { Puts self.old self.new word.now }
    {
        let end = self.at;
        self.at -= word.len();
        self.text[self.at..end].copy_from_slice(word);
    }

    // Both digits of a number below 100.
    #[inline(always)]
    fn put_pair(&mut self, n: usize)
        requires { (n < 100) × (1 < self.old.at) }
        ensures { Puts self.old self.new (digit (n / 10) ∷ digit (n % 10) ∷ []) }
    {
        let [tens, ones] = DIGIT_PAIRS[n];
        self.put_byte(ones);
        self.put_byte(tens);
    }

    // The digits of a number, two at a time, with half the divisions. A while: a turn leaves a hundredth of the number, and no index is counted.
    #[inline(always)]
    pub fn put_digits(&mut self, n: usize)
        requires { length (digits n) ≤ self.old.at }
        ensures { Puts self.old self.new (digits n) }
    {
        let mut rest = n;
        while 100 <= rest {
            self.put_pair(rest % 100);
            rest /= 100;
        }
        if 10 <= rest {
            return self.put_pair(rest);
        }
        let d = rest as u8; // u8 has no From<usize>.
        self.put_byte(b'0' + d);
    }

    // A blank and a number from 0 up.
    #[inline(always)]
    pub fn put_part(&mut self, n: usize)
        requires { suc (length (digits n)) ≤ self.old.at }
        ensures { Puts self.old self.new (blank ∷ digits n) }
    {
        self.put_digits(n);
        self.put_byte(b' ');
    }

    // A blank and an element.
    #[inline(always)]
    fn put_element(&mut self, z: i32)
        requires { suc (length (decimal z)) ≤ self.old.at }
        ensures { Puts self.old self.new (blank ∷ decimal z) }
    {
        self.put_digits(signed::magnitude(z));
        if signed::negative(z) {
            self.put_byte(b'-');
        }
        self.put_byte(b' ');
    }

    // The parts of a list, each after a blank.
    #[inline(always)]
    pub fn put_parts<T: Part>(&mut self, parts: &[T])
        requires { length (following (map T.text parts.now)) ≤ self.old.at }
        ensures { Puts self.old self.new (following (map T.text parts.now)) }
    {
        for part in parts.iter().rev() {
            part.put(self);
        }
    }
}

// What a line lists: the lengths of a shape, and elements.
pub trait Part: Copy {
    ghost use Rattle.sheet_answer.specs.Steps.{Puts};

    ghost text: { Self → List ℕ };

    // A blank and a part take no more bytes.
    ghost most: { ℕ };

    // The bytes of a blank and the part.
    fn width(self) -> usize
        ensures digits { result ≡ suc (length (text self)) }
        ensures bound { result ≤ most };

    fn put(self, answer: &mut Writer)
        requires { suc (length (text self)) ≤ answer.old.at }
        ensures { Puts answer.old answer.new (blank ∷ text self) };
}

impl Part for usize {
    ghost text = { digits };

    ghost most = { 21 };

    fn width(self) -> usize {
        width(self) + 1
    }

    fn put(self, answer: &mut Writer) {
        answer.put_part(self);
    }
}

impl Part for i32 {
    ghost text = { decimal };

    ghost most = { 12 };

    fn width(self) -> usize {
        let n = width(signed::magnitude(self));
        if signed::negative(self) { n + 2 } else { n + 1 }
    }

    fn put(self, answer: &mut Writer) {
        answer.put_element(self);
    }
}

// The bytes of a list's parts, each after a blank.
pub fn parts_width<T: Part>(parts: &[T]) -> usize
    requires { T.most * length parts.now < 2 ^ 64 }
    ensures digits { result ≡ length (following (map T.text parts.now)) }
    ensures bound { result ≤ T.most * length parts.now }
{
    let mut sum = 0;
    for part in parts {
        sum += part.width();
    }
    sum
}
