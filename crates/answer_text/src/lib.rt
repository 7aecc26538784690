// Writing an answer: lines of a label and numbers, words, values or whole numbers.
#![tactic(auto)]

pub mod answers;

use std::fmt::Display;
use std::io::Write;
use std::{fmt, io};

// A value, printed by its 16 hexadecimal digits, any NaN as nan.
#[derive(Clone, Copy)]
pub struct Value(pub f64);

impl Display for Value {
    fn fmt<W: fmt::Write>(&self, f: &mut fmt::Formatter<W>) -> fmt::Result {
        let x = self.0;
        if x.is_nan() {
            return f.write_str("nan");
        }
        let bits = x.to_bits();
        write!(f, "{bits:016x}")
    }
}

// A byte, printed by its two hexadecimal digits.
#[derive(Clone, Copy)]
struct HexByte(u8);

impl Display for HexByte {
    fn fmt<W: fmt::Write>(&self, f: &mut fmt::Formatter<W>) -> fmt::Result {
        let x = self.0;
        write!(f, "{x:02x}")
    }
}

pub fn put(out: &mut impl Write, text: &[u8]) -> io::Result<()> {
    out.write_all(text)
}

pub fn put_value(out: &mut impl Write, x: f64) -> io::Result<()> {
    let value = Value(x);
    write!(out, "{value}")
}

// A line of a label, a list's length and its items, each as it is shown; an item that stands k times in a row is written once, as item*k.
fn put_list<T, D: Display + Drop, A: Fn(&T, &T) -> bool, S: Fn(&T) -> D>(
    out: &mut impl Write,
    label: &[u8],
    list: &[T],
    alike: A,
    shown: S,
) -> io::Result<()>
    requires alike_callable { (f : _) (a : _) → A.FnMut.pre f a }
    requires shown_callable { S.IsAlwaysCallable shown }
{
    let count = list.len();
    put(out, label)?;
    write!(out, "{count}")?;
    for run in list.chunk_by(alike) {
        if let Some(item) = run.first() {
            let item = shown(item);
            write!(out, " {item}")?;
        }
        let times = run.len();
        if times > 1 {
            write!(out, "*{times}")?;
        }
    }
    writeln!(out)
}

pub fn put_words(out: &mut impl Write, label: &[u8], list: &[u32]) -> io::Result<()> {
    put_list(out, label, list, |x, y| x == y, |x| *x)
}

pub fn put_bytes(out: &mut impl Write, label: &[u8], list: &[u8]) -> io::Result<()> {
    put_list(out, label, list, |x, y| x == y, |x| *x)
}

pub fn put_hex_bytes(out: &mut impl Write, label: &[u8], list: &[u8]) -> io::Result<()> {
    put_list(out, label, list, |x, y| x == y, |x| HexByte(*x))
}

// Zeros, whose signs differ, are taken one by one, and so are NaNs.
pub fn put_values(out: &mut impl Write, label: &[u8], list: &[f64]) -> io::Result<()> {
    put_list(out, label, list, |x, y| *x != 0.0 && x == y, |x| Value(*x))
}

pub fn put_wholes(out: &mut impl Write, label: &[u8], list: &[i64]) -> io::Result<()> {
    put_list(out, label, list, |x, y| x == y, |x| *x)
}
