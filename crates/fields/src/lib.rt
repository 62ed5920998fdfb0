// A line of the program as bytes: its fields, their numbers, and the line as an enum, said in the words of `paper`'s Lines.
// `line_of` takes any bytes; `end_of` finds the next tab or line feed.
#![tactic(auto)]

ghost use Rattle.std.specs.Prelude.{◌≡◌, ◌==◌, cond, ◌≤◌, length, get_or, position, IfSome};
ghost use Rattle.paper.specs.Lines.{is_digit, is_decimal, value_from, number_in, line_of, form_of};
ghost use Rattle.fields.specs.Marks.{Ends};
ghost use Rattle.fields.specs.Numbers.{shown, all_digits};
ghost use Rattle.fields.specs.Forms.{numbers_from, is_field, shown_numbers, exactly, shown_line, shown_form};

use paper::{Segment, Window};

// ---- the numbers of a line

fn is_digit(b: u8) -> bool
    ensures { result ≡ is_digit b }
{
    (b'0'..=b'9').contains(&b)
}

fn all_digits(bytes: &[u8]) -> bool
    ensures { result ≡ all_digits bytes.now }
{
    bytes.iter().all(|&b| is_digit(b))
}

// The value of at most ten digits. The bound holds for any bytes, so that the sum is never asked what they are.
fn value(digits: &[u8]) -> u64
    requires { length digits.now ≤ 10 }
    ensures { (result ≡ value_from 0 digits.now) × (result ≤ 230000000000) }
{
    let mut v = 0;
    for &b in digits {
        v = 10 * v + u64::from(b.saturating_sub(b'0'));
    }
    v
}

// A number without its sign.
fn decimal(f: &[u8]) -> Option<u64>
    ensures value { result ≡ cond (is_decimal f.now) (Some (value_from 0 f.now)) None }
    ensures small { IfSome result (λ v. v ≤ 230000000000) }
{
    let (&first, rest) = f.split_first()?;
    let short = f.len() <= 10;
    let alone = rest.is_empty();
    if all_digits(f) && short && (first != b'0' || alone) {
        Some(value(f))
    } else {
        None
    }
}

/// The number that a field says.
pub fn number_in(f: &[u8]) -> Option<i64>
    ensures { shown result ≡ number_in f.now }
{
    if let [b'-', digits @ ..] = f {
        let v = decimal(digits)?;
        if v == 0 {
            return None;
        }
        return Some(-(v as i64));
    }
    let v = decimal(f)?;
    Some(v as i64)
}

// The first place where a mark stands.
fn first_mark(bytes: &[u8], mark: u8) -> Option<usize>
    ensures { result ≡ position (λ b. b == mark) bytes.now }
{
    bytes.iter().position(|&b| b == mark)
}

/// Where the part that starts at a ends: at the next mark (a tab, a line feed), or at the end of the text.
pub fn end_of(text: &[u8], a: usize, mark: u8) -> usize
    requires { a ≤ length text.now }
    ensures { Ends mark text.now a result }
{
    match first_mark(&text[a..], mark) {
        Some(k) => a + k,
        None => text.len(),
    }
}

// A number that starts at a place of a line, and the place where the next would start: past the line's end where this one is the last.
fn field_at(f: &[u8], a: usize) -> Option<(i64, usize)>
    ensures { is_field f.now a result }
{
    if f.len() < a {
        return None;
    }
    let e = end_of(f, a, b'\t');
    let z = number_in(&f[a..e])?;
    Some((z, e + 1))
}

// The numbers of a line after its letter: as many as N, no more and no fewer.
fn numbers<const N: usize>(f: &[u8]) -> Option<[i64; N]>
    ensures { shown_numbers result ≡ exactly N (numbers_from f.now 2) }
{
    let mut numbers = [0; N];
    let mut at = 2;
    for number in &mut numbers {
        let (z, next) = field_at(f, at)?;
        *number = z;
        at = next;
    }
    if at <= f.len() {
        return None;
    }
    Some(numbers)
}

// ---- the forms of a line

// Kept: `Other` is no None: paper's line has it as a form of its own, which has its place in the order of faults as the others have.
/// A line by its form.
#[derive(Clone, Copy)]
pub enum Line {
    /// T kind, lower bound
    Table(i64, i64),
    /// S x1 y1 x2 y2
    Segment(Segment),
    /// W a b c d
    Window(Window),
    Other,
}

// A line by its letter, or none of another form.
fn by_letter(f: &[u8]) -> Option<Line>
    requires { 1 ≤ length f.now }
    ensures { shown_form result ≡ form_of (get_or f.now 0 0) (numbers_from f.now 2) }
{
    match f[0] {
        b'T' => {
            let [kind, lower] = numbers::<2>(f)?;
            Some(Line::Table(kind, lower))
        }
        b'S' => {
            let [x1, y1, x2, y2] = numbers::<4>(f)?;
            Some(Line::Segment(Segment { x1, y1, x2, y2 }))
        }
        b'W' => {
            let [a, b, c, d] = numbers::<4>(f)?;
            Some(Line::Window(Window { a, b, c, d }))
        }
        _ => None,
    }
}

/// What the bytes of a line mean.
pub fn line_of(f: &[u8]) -> Line
    ensures { shown_line result ≡ line_of f.now }
{
    let long = 80 < f.len();
    if long || end_of(f, 0, b'\t') != 1 {
        return Line::Other;
    }
    by_letter(f).unwrap_or(Line::Other)
}
