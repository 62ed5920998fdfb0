// The text of the program's A and R lines, written into a lent buffer: exactly the bytes of `paper`'s `printed`, `tabbed` and `decimal`.
#![tactic(auto)]

ghost use Rattle.std.specs.Prelude.{◌≡◌, [], ◌∷◌, ◌+◌, ◌-◌, ◌*◌, ◌≤◌, ◌<◌, pos, length, take};
ghost use Rattle.lists.specs.Plain.{to_nat};
ghost use Rattle.paper.specs.Lines.{tab, letter_R, decimal, tabbed, printed};
ghost use Rattle.texts.specs.Digits.{digits_of};
ghost use Rattle.texts.specs.Written.{Room, Wrote};

use paper::Reply;

fn digit(x: usize) -> u8
    requires { x < 10 }
    ensures { result ≡ 48 + x }
{
    b'0' + x as u8
}

/// How many digits n has.
// Kept: it counts by dividing, since std's `ilog10` speaks of powers and not of digits: no plainer, with a law between them.
pub fn width(n: usize) -> usize
    ensures { result ≡ length (digits_of n) }
{
    let mut v = n;
    let mut k = 1;
    while 10 <= v {
        v /= 10;
        k += 1;
    }
    k
}

// The digits of n into as many bytes, the last one first.
// Kept: no `write!`, whose text is not stated in the words of `paper`'s `decimal`, and whose Result would have to be passed up though nothing can fail: no plainer.
fn put_digits(bytes: &mut [u8], n: usize)
    requires { length bytes.old ≡ length (digits_of n) }
    ensures { bytes.new ≡ digits_of n }
{
    let mut v = n;
    for i in (0..bytes.len()).rev() {
        bytes[i] = digit(v % 10);
        v /= 10;
    }
}

/// As many as a number says; a negative one says none.
pub fn size(z: i64) -> usize
    ensures { result ≡ to_nat z }
{
    z.max(0) as usize
}

/// Bytes lent for a text, and how many of them hold it so far.
#[derive(Drop)]
pub struct Output<'a> {
    pub bytes: &'a mut [u8],
    pub len: usize,
}

impl Output<'_> {
    /// How many bytes more there is room for.
    pub fn room(&self) -> usize
        ensures { result ≡ length self.now.bytes.now - self.now.len }
    {
        self.bytes.len().saturating_sub(self.len)
    }

    /// The text so far.
    pub fn text(&self) -> &[u8]
        requires { Room 0 self.now }
        ensures { result.now ≡ take self.now.len self.now.bytes.now }
    {
        &self.bytes[..self.len]
    }

    /// No text again, in the same bytes.
    pub fn clear(&mut self)
        ensures { self.new ≡ record self.old { len = 0 } }
    {
        self.len = 0;
    }

    /// One byte more.
    pub fn push(&mut self, byte: u8)
        requires { Room 1 self.old }
        ensures { Wrote (byte ∷ []) self.old self.new }
    {
        self.bytes[self.len] = byte;
        self.len += 1;
    }

    pub fn push_all(&mut self, bytes: &[u8])
        requires { Room (length bytes.now) self.old }
        ensures { Wrote bytes.now self.old self.new }
    {
        let end = self.len + bytes.len();
        self.bytes[self.len..end].copy_from_slice(bytes);
        self.len = end;
    }

    fn push_digits(&mut self, n: usize)
        requires { Room (length (digits_of n)) self.old }
        ensures { Wrote (digits_of n) self.old self.new }
    {
        let end = self.len + width(n);
        put_digits(&mut self.bytes[self.len..end], n);
        self.len = end;
    }

    /// A number, with its minus.
    pub fn push_number(&mut self, z: i64)
        requires { Room (length (decimal z)) self.old }
        ensures { Wrote (decimal z) self.old self.new }
    {
        // the least number has a size too, where 0 - z would have none
        let size = z.unsigned_abs() as usize;
        if z < 0 {
            self.push(b'-');
        }
        self.push_digits(size);
    }

    // A tab and a number.
    fn push_field(&mut self, z: i64)
        requires { Room (length (tab ∷ decimal z)) self.old }
        ensures { Wrote (tab ∷ decimal z) self.old self.new }
    {
        self.push(b'\t');
        self.push_number(z);
    }

    // A tab and a count.
    // Kept: a twin of `push_field`, since a count of 64 bits has no i64; a trait over the two types would be longer than these two lines: no plainer.
    fn push_count(&mut self, n: usize)
        requires { Room (length (tab ∷ digits_of n)) self.old }
        ensures { Wrote (tab ∷ digits_of n) self.old self.new }
    {
        self.push(b'\t');
        self.push_digits(n);
    }

    /// The first of some numbers, each after a tab, and a line feed.
    pub fn push_tabbed(&mut self, numbers: &[i32], count: usize)
        requires { Room (21 * length numbers.now + 1) self.old }
        ensures { Wrote (tabbed (take count numbers.now)) self.old self.new }
    {
        let n = count.min(numbers.len());
        for &number in &numbers[..n] {
            self.push_field(i64::from(number));
        }
        self.push(b'\n');
    }

    /// A, count, visits, numbers.
    pub fn push_answer(&mut self, reply: Reply, numbers: &[i32])
        requires { Room (21 * length numbers.now + 44) self.old }
        ensures { Wrote (printed (reply, numbers.now)) self.old self.new }
    {
        let count = size(reply.count);
        self.push(b'A');
        self.push_field(reply.count);
        self.push_field(reply.visits);
        self.push_tabbed(numbers, count);
    }

    // Kept: the number is what is printed: a `lines::Fault` and the reply of a C call both end in one.
    /// R, answer number, line number.
    pub fn push_fault(&mut self, number: usize, line: usize)
        requires { Room 44 self.old }
        ensures { Wrote (letter_R ∷ tabbed (pos number ∷ pos line ∷ [])) self.old self.new }
    {
        self.push(b'R');
        self.push_count(number);
        self.push_count(line);
        self.push(b'\n');
    }
}
