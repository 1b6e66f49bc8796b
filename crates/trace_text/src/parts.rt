//! The parts of a line: blanks, marks, numbers and differences.
ghost use Rattle.std.specs.Prelude.{◌≡◌, ◌==◌, ◌≤◌, ◌∷◌, ◌++◌, length, List, [], IsTrue, IsFalse, IfSome, cond, drop, false, neg_ℤ, pos, take_while, unsigned_abs};
ghost use Rattle.std.specs.List.{position_or_len, prefix_len};
ghost use Rattle.nano_spec.specs.LineForm.{Part, Blanks, Mark, Number, difference_parts, is_blank as is_blank_byte, is_digit, is_letter, readings};
ghost use Rattle.trace_text.specs.Parts.{TakesDigit, after_difference, after_number, begins_with, is_free, is_sharp, longest, number_read};

use vox_geom::Diff;

/// The rest of a line.
#[derive(Drop)]
pub(crate) struct Rest<'a> {
    pub(crate) bytes: &'a [u8],
}

/// Returns whether the byte is a space or a tab.
fn is_blank(byte: u8) -> bool
    ensures { result ≡ is_blank_byte byte }
{
    byte == b' ' || byte == b'\t'
}

/// Returns the number of blanks at the front.
#[tactic(auto, using(crate::proofs::Runs::none_yet, crate::proofs::Runs::passes_on, crate::proofs::Runs::stops_at, crate::proofs::Runs::ends_at))]
fn blanks(bytes: &[u8]) -> usize
    ensures value { result ≡ prefix_len is_blank_byte bytes.now }
    ensures bound { result ≤ length bytes.now }
{
    let mut len = 0;
    while len < bytes.len() {
        if !is_blank(bytes[len]) {
            return len;
        }
        len += 1;
    }
    len
}

/// Returns the number of letters at the front.
#[tactic(auto, using(crate::proofs::Runs::none_yet, crate::proofs::Runs::passes_on, crate::proofs::Runs::stops_at, crate::proofs::Runs::ends_at))]
fn letters(bytes: &[u8]) -> usize
    ensures value { result ≡ prefix_len is_letter bytes.now }
    ensures bound { result ≤ length bytes.now }
{
    let mut len = 0;
    while len < bytes.len() {
        if !is_letter_byte(bytes[len]) {
            return len;
        }
        len += 1;
    }
    len
}

/// Returns whether the byte is an ASCII letter.
fn is_letter_byte(byte: u8) -> bool
    ensures { result ≡ is_letter byte }
{
    byte.is_ascii_alphabetic()
}

/// Returns the first index of the byte, or the number of bytes.
#[tactic(auto, using(crate::proofs::Runs::none_yet, crate::proofs::Runs::passes_on, crate::proofs::Runs::stops_at, crate::proofs::Runs::ends_at))]
pub fn find_byte(byte: u8, bytes: &[u8]) -> usize
    ensures value { result ≡ position_or_len (λ b. b == byte) bytes.now }
    ensures bound { result ≤ length bytes.now }
{
    let mut len = 0;
    while len < bytes.len() {
        if bytes[len] == byte {
            return len;
        }
        len += 1;
    }
    len
}

/// Returns the number, which has at most three digits, as a signed one.
fn to_signed(number: u16) -> i16
    requires { number ≤ 999 }
    ensures { result ≡ pos number }
{
    number as i16
}

/// Returns the negation of the number, which has at most three digits.
fn negative(number: u16) -> i16
    requires { number ≤ 999 }
    ensures { result ≡ neg_ℤ (pos number) }
{
    -to_signed(number)
}

impl<'a> Rest<'a> {
    /// Takes the blanks at the front.
    #[tactic(auto, using(crate::proofs::Readings::without_blanks))]
    pub(crate) fn skip_blanks(&mut self)
        ensures bytes { self.new.bytes.now ≡ drop (prefix_len is_blank_byte self.old.bytes.now) self.old.bytes.now }
        ensures readings { (parts : List Part) → IsTrue (is_sharp parts)
            → readings (Blanks ∷ parts) self.old.bytes.now ≡ readings parts self.new.bytes.now }
    {
        let (_, more) = self.bytes.split_at(blanks(self.bytes));
        self.bytes = more;
    }

    /// Takes the letters at the front.
    pub(crate) fn letters(&mut self) -> &'a [u8]
        ensures value { result.now ≡ take_while is_letter self.old.bytes.now }
        ensures after { self.new.bytes.now ≡ drop (prefix_len is_letter self.old.bytes.now) self.old.bytes.now }
    {
        let (letters, more) = self.bytes.split_at(letters(self.bytes));
        self.bytes = more;
        letters
    }

    /// Takes the mark, if it is at the front.
    fn mark(&mut self, mark: u8) -> bool
        ensures readings { (parts : List Part)
            → readings (Mark mark ∷ parts) self.old.bytes.now ≡ cond result (readings parts self.new.bytes.now) [] }
        ensures yes { IsTrue result → self.old.bytes.now ≡ mark ∷ self.new.bytes.now }
        ensures no { IsFalse result
            → (self.new.bytes.now ≡ self.old.bytes.now) × (begins_with mark self.old.bytes.now ≡ false) }
    {
        let [first, more @ ..] = self.bytes else {
            return false;
        };
        if *first != mark {
            return false;
        }
        self.bytes = more;
        true
    }

    /// Takes the digit at the front, if there is one.
    fn digit(&mut self) -> Option<u16>
        ensures { TakesDigit self.old.bytes.now result self.new.bytes.now }
    {
        let [first, more @ ..] = self.bytes else {
            return None;
        };
        if !first.is_ascii_digit() {
            return None;
        }
        self.bytes = more;
        Some(u16::from(*first - b'0'))
    }

    /// Takes one to three digits, as many as there are.
    fn digits(&mut self) -> Option<u16>
        ensures value { number_read result self.new.bytes.now ≡ longest 3 0 self.old.bytes.now }
        ensures bound { IfSome result (λ n. n ≤ 999) }
    {
        let first = self.digit()?;
        let Some(second) = self.digit() else {
            return Some(first);
        };
        let Some(third) = self.digit() else {
            return Some(10 * first + second);
        };
        Some(100 * first + 10 * second + third)
    }

    /// Takes a number: an optional minus sign, and one to three digits, as many as there are.
    pub(crate) fn number(&mut self) -> Option<i16>
        ensures { (parts : List Part) → IsTrue (is_free parts)
            → readings (Number ∷ parts) self.old.bytes.now ≡ after_number result parts self.new.bytes.now }
    {
        if self.mark(b'-') {
            let number = self.digits()?;
            return Some(negative(number));
        }
        let number = self.digits()?;
        Some(to_signed(number))
    }

    /// Takes a number and the mark after it, with blanks around the number.
    #[tactic(auto, using(crate::proofs::Readings::no_number_there, crate::proofs::Readings::number_there))]
    fn number_and(&mut self, mark: u8) -> Option<i16>
        requires no_blank { IsFalse (is_blank_byte mark) }
        requires no_digit { IsFalse (is_digit mark) }
        ensures { (parts : List Part)
            → readings (Blanks ∷ Number ∷ Blanks ∷ Mark mark ∷ parts) self.old.bytes.now
            ≡ after_number result parts self.new.bytes.now }
    {
        self.skip_blanks();
        let number = self.number()?;
        self.skip_blanks();
        if !self.mark(mark) {
            return None;
        }
        Some(number)
    }

    /// Takes blanks and a difference.
    pub(crate) fn difference(&mut self) -> Option<Diff>
        ensures { (parts : List Part)
            → readings (difference_parts ++ parts) self.old.bytes.now
            ≡ after_difference result parts self.new.bytes.now }
    {
        self.skip_blanks();
        if !self.mark(b'<') {
            return None;
        }
        let dx = self.number_and(b',')?;
        let dy = self.number_and(b',')?;
        let dz = self.number_and(b'>')?;
        Some(Diff { dx, dy, dz })
    }

    /// Returns whether only blanks are left.
    #[tactic(auto, using(crate::proofs::Readings::nothing_left))]
    pub(crate) fn ends(&mut self) -> bool
        ensures { readings (Blanks ∷ []) self.old.bytes.now ≡ cond result ([] ∷ []) [] }
    {
        self.skip_blanks();
        self.bytes.is_empty()
    }
}
