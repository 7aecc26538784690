// Reading a text from a place on: blanks, a number, a line of two or three numbers.
#![tactic(auto)]

ghost use Rattle.std.specs.Prelude.{◌≡◌, true, false, ◌+◌, ◌-◌, ◌*◌, ◌≤◌, length, drop, MatchOption, MatchResult, IfSome};
ghost use Rattle.matrix_market.specs.Text.{is_blank, is_digit};
ghost use Rattle.file_lines.specs.Scan.{cut as Scan·cut, field_there};
ghost use Rattle.file_lines.specs.Places.{Skipped, NumberAt, FieldAt, EndAt, FewAt, PairAt, PlainAt, TripleAt};

// A number, cut off at 4294967295, and the place behind its digits.
#[derive(Clone, Copy)]
pub struct Number {
    pub value: usize,
    pub next: usize,
}

// The two numbers of a line, and the place behind it.
#[derive(Clone, Copy)]
pub struct PairLine {
    pub first: usize,
    pub second: usize,
    pub next: usize,
}

// The same with three.
#[derive(Clone, Copy)]
pub struct TripleLine {
    pub first: usize,
    pub second: usize,
    pub third: usize,
    pub next: usize,
}

fn wide(b: u8) -> usize
    ensures { result ≡ b }
{
    b as usize
}

// A space or a tab.
#[tactic(auto, unfolding(matrix_market::specs::Text::is_blank))]
pub fn blank(b: u8) -> bool
    ensures { result ≡ is_blank b }
{
    b == 32 || b == 9
}

#[tactic(auto, unfolding(matrix_market::specs::Text::is_digit))]
fn digit(b: u8) -> bool
    ensures { result ≡ is_digit b }
{
    b >= 48 && b <= 57
}

// The first place from p on with no blank.
pub fn skip_blanks(text: &[u8], p: usize) -> usize
    requires { p ≤ length text.now }
    ensures { Skipped is_blank text.now p result }
{
    for i in p..text.len() {
        if !blank(text[i]) {
            return i;
        }
    }
    text.len()
}

// One more digit after x, cut off.
fn digit_more(x: usize, b: u8) -> usize
    requires { x ≤ 4294967295 }
    ensures { result ≡ Scan·cut (x * 10 + (b - 48)) }
{
    if b < 48 {
        return cut(x * 10);
    }
    cut(x * 10 + wide(b - 48))
}

fn cut(x: usize) -> usize
    ensures { result ≡ Scan·cut x }
{
    x.min(4294967295)
}

// The number whose digits stand from p on.
pub fn read_number(text: &[u8], p: usize) -> Number
    requires { p ≤ length text.now }
    ensures { NumberAt text.now p result.value result.next }
{
    let mut value = 0;
    for i in p..text.len() {
        let b = text[i];
        if !digit(b) {
            return Number { value, next: i };
        }
        value = digit_more(value, b);
    }
    Number {
        value,
        next: text.len(),
    }
}

// The number behind the blanks from p on, if one stands there.
fn read_field(text: &[u8], p: usize) -> Option<Number>
    requires { p ≤ length text.now }
    ensures { MatchOption result (field_there (drop p text.now) ≡ false) (λ f. FieldAt text.now p true f.value f.next) }
{
    let at = skip_blanks(text, p);
    let number = read_number(text, at);
    if number.next == at {
        return None;
    }
    Some(number)
}

// The place behind the line if only blanks are left of it, else the place of the first other byte.
pub fn line_end(text: &[u8], p: usize) -> Result<usize, usize>
    requires { p ≤ length text.now }
    ensures { MatchResult result (EndAt text.now p true) (EndAt text.now p false) }
{
    let at = skip_blanks(text, p);
    if at >= text.len() {
        return Ok(at);
    }
    if text[at] == 10 {
        return Ok(at + 1);
    }
    Err(at)
}

// The line of two numbers from p on.
pub fn read_pair(text: &[u8], p: usize) -> Option<PairLine>
    requires { p ≤ length text.now }
    ensures { MatchOption result (PairAt text.now p false 0 0 0) (λ l. PairAt text.now p true l.first l.second l.next) }
{
    let a = read_field(text, p)?;
    let b = read_field(text, a.next)?;
    let Ok(next) = line_end(text, b.next) else {
        return None;
    };
    Some(PairLine {
        first: a.value,
        second: b.value,
        next,
    })
}

// The digits from p on, at most four of them.
fn few_digits(text: &[u8], p: usize) -> Number
    requires { p + 4 ≤ length text.now }
    ensures { FewAt text.now p result.value result.next }
{
    let mut value = 0;
    for k in 0..4 {
        let byte = text[p + k];
        if !digit(byte) {
            return Number { value, next: p + k };
        }
        value = digit_more(value, byte);
    }
    Number { value, next: p + 4 }
}

// Two numbers of at most four digits at p, one space between them and a line end right behind: how most files are written. None: read_pair has to
// look.
pub fn plain_pair(text: &[u8], p: usize) -> Option<PairLine>
    requires { p ≤ length text.now }
    ensures { IfSome result (λ l. PlainAt text.now p true l.first l.second l.next) }
{
    if text.len() - p < 10 {
        return None;
    }
    let a = few_digits(text, p);
    if a.next == p || text[a.next] != 32 {
        return None;
    }
    let from = a.next + 1;
    let b = few_digits(text, from);
    if b.next == from || text[b.next] != 10 {
        return None;
    }
    Some(PairLine {
        first: a.value,
        second: b.value,
        next: b.next + 1,
    })
}

// The line of three numbers from p on.
pub fn read_triple(text: &[u8], p: usize) -> Option<TripleLine>
    requires { p ≤ length text.now }
    ensures { MatchOption result (TripleAt text.now p false 0 0 0 0) (λ l. TripleAt text.now p true l.first l.second l.third l.next) }
{
    let a = read_field(text, p)?;
    let rest = read_pair(text, a.next)?;
    Some(TripleLine {
        first: a.value,
        second: rest.first,
        third: rest.second,
        next: rest.next,
    })
}
