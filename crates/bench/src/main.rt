// Runs 01's bench list over its table. Each line of the input is a case: its name, a call, two quantities and what must be answered. It is written again with whether that is so.
//
// Columns: 0 the name; 52 the call; 54 and 76 the quantities; 98 the number of a refusal, a word, or 0; 100 the quantity answered.
// Calls: c convert_to (the second's list), r reduce, + - * / ^, a abs, x no_simplify, o compare, e equal, l equal lists; n negate, N the same with 128 rows, M with 129;
// f full_simplify, F with the second's list as the one candidate.
// Words: y yes, q no, < = >.
// A quantity: its value's bits; its list; m marked or u unmarked. A list: a row, then how it is taken. `.` to 1, `h` to 1/2, `d` to 2, `t` to 3, `w` times hour;
// `B` with Binary(0), `K` Binary(10), `P` Metric(1100), `Q` Metric(1101); `*` so many factors metre; and whatever the row is,
// `_` no factor, `g` gram·metre·second^-2, `G` the same of kilogram, `s` gram^(1/2)·metre^(1/2)·second^-1. `cases.py` writes the lines.
#![tactic(auto)]

use exponents::Exponent;
use exponents::refusals::Refusal;
use std::cmp::Ordering;
use std::io;
use std::io::Read;
use units::{Candidate, Candidates, Factor, Factors, Kind, Prefix, Quantity, Row, Rows};

// ---- the table: gram, metre, second, bit; minute, hour, byte, newton

fn factor(row: u32, prefix: Prefix, exponent: Exponent) -> Factor {
    Factor {
        row,
        prefix,
        exponent,
    }
}

fn plain(row: u32, num: i32, den: u32) -> Factor {
    factor(row, Prefix::Metric(0), Exponent { num, den })
}

fn base_row(rank: u16) -> Row {
    let f = units::lists::no_factor();
    Row {
        def: [f; 8],
        len: 0,
        rank,
        kind: Kind::Base,
    }
}

// So many of another row.
fn derived_row(rank: u16, conversion: f64, row: u32) -> Row {
    let f = plain(row, 1, 1);
    Row {
        def: [f; 8],
        len: 1,
        rank,
        kind: Kind::Derived(conversion),
    }
}

// 1 kilogram·metre·second^-2
fn newton_row() -> Row {
    let f = factor(0, Prefix::Metric(3), Exponent { num: 1, den: 1 });
    let mut def = [f; 8];
    def[1] = plain(1, 1, 1);
    def[2] = plain(2, -2, 1);
    Row {
        def,
        len: 3,
        rank: 6,
        kind: Kind::Derived(1.0),
    }
}

// Past the bench rows: 1 metre.
fn row(i: u16) -> Row {
    match i {
        0 => base_row(2),
        1 => base_row(5),
        2 => base_row(7),
        3 => base_row(0),
        4 => derived_row(3, 60.0, 2),
        5 => derived_row(4, 60.0, 4),
        6 => derived_row(1, 8.0, 3),
        7 => newton_row(),
        _ => derived_row(i, 1.0, 1),
    }
}

fn table(n: usize) -> Rows {
    let mut t = Rows {
        at: [base_row(0); 128],
        len: n,
    };
    for i in 0..128 {
        t.at[i] = row(i as u16);
    }
    t
}

// ---- what a line says

fn byte_at(line: &[u8], i: usize) -> u8 {
    line.get(i).copied().unwrap_or(0)
}

// A digit's value; of another character, the character.
fn digit(c: u8) -> u64 {
    let value = match c {
        b'0'..=b'9' => c - b'0',
        b'a'..=b'f' => c - b'a' + 10,
        _ => c,
    };
    value as u64
}

fn hex(line: &[u8], from: usize, n: usize) -> u64 {
    let mut r: u64 = 0;
    for i in 0..n {
        let c = byte_at(line, std::num::wrapping_add_usize(from, i));
        r = (r << 4) | digit(c);
    }
    r
}

fn prefix_of(how: u8) -> Prefix {
    match how {
        b'B' => Prefix::Binary(0),
        b'K' => Prefix::Binary(10),
        b'P' => Prefix::Metric(1100),
        b'Q' => Prefix::Metric(1101),
        b'D' => Prefix::Metric(-1),
        b'V' => Prefix::Metric(3),
        _ => Prefix::Metric(0),
    }
}

fn exponent_of(how: u8) -> Exponent {
    match how {
        b'h' => Exponent { num: 1, den: 2 },
        b'd' => Exponent { num: 2, den: 1 },
        b't' => Exponent { num: 3, den: 1 },
        _ => Exponent { num: 1, den: 1 },
    }
}

fn one(f: Factor) -> Factors {
    let mut l = units::lists::empty();
    l.at[0] = f;
    l.len = 1;
    l
}

// A factor twice, and once below.
fn again(f: Factor, g: Factor) -> Factors {
    let mut l = one(f);
    l.at[1] = f;
    l.at[2] = g;
    l.len = 3;
    l
}

// A factor and hour to n.
fn with_hour(f: Factor, n: i32) -> Factors {
    let mut l = one(f);
    l.at[1] = plain(5, n, 1);
    l.len = 2;
    l
}

// Gram and metre to 1/den, second to n.
fn three(den: u32, n: i32) -> Factors {
    let mut l = one(plain(0, 1, den));
    l.at[1] = plain(1, 1, den);
    l.at[2] = plain(2, n, 1);
    l.len = 3;
    l
}

fn of_kilogram(l: Factors) -> Factors {
    let mut m = l;
    m.at[0] = factor(0, Prefix::Metric(3), Exponent { num: 1, den: 1 });
    m
}

fn metres(n: u32) -> Factors {
    let f = plain(1, 1, 1);
    Factors {
        at: [f; 16],
        len: n as usize,
    }
}

fn list(n: u32, how: u8) -> Factors {
    match how {
        b'_' => units::lists::empty(),
        b'*' => metres(n),
        b'g' => three(1, -2),
        b'G' => of_kilogram(three(1, -2)),
        b's' => three(2, -1),
        b'D' => again(
            factor(n, prefix_of(how), Exponent { num: 1, den: 1 }),
            factor(n, prefix_of(how), Exponent { num: -1, den: 1 }),
        ),
        b'V' | b'v' => with_hour(factor(n, prefix_of(how), exponent_of(how)), -1),
        b'w' => with_hour(plain(n, 1, 1), 1),
        _ => one(factor(n, prefix_of(how), exponent_of(how))),
    }
}

// Two digits.
fn small(n: u64) -> u32 {
    if n < 256 { n as u32 } else { 0 }
}

fn quantity_at(line: &[u8], from: usize) -> Quantity {
    let how = byte_at(line, std::num::wrapping_add_usize(from, 19));
    let row = hex(line, std::num::wrapping_add_usize(from, 17), 2);
    let unit = list(small(row), how);
    Quantity {
        unit,
        value: floats::of_bits(hex(line, from, 16)),
        mark: byte_at(line, std::num::wrapping_add_usize(from, 20)) == b'm',
    }
}

// ---- what a call answers

// A quantity; whether two are equal; which of two is the greater.
#[derive(Clone, Copy, Drop)]
enum Answer {
    Quantity(Quantity),
    Equal(bool),
    Ordered(Ordering),
}

fn combined(call: u8, q: Quantity, p: Quantity) -> Result<Quantity, Refusal> {
    let t = table(8);
    match call {
        b'+' => sums::add(t, q, p),
        b'-' => sums::subtract(t, q, p),
        b'*' => values::pairs::multiply(t, q, p),
        b'/' => values::pairs::checked_div(t, q, p),
        _ => powers::checked_power(t, q, p),
    }
}

fn rows_for(call: u8) -> usize {
    match call {
        b'N' => 128,
        b'M' => 129,
        _ => 8,
    }
}

fn candidate(l: Factors) -> Candidates {
    let c = Candidate { unit: l, rank: 0 };
    Candidates {
        at: [c; 32],
        len: 1,
    }
}

fn changed(call: u8, q: Quantity, l: Factors) -> Result<Quantity, Refusal> {
    let t = table(rows_for(call));
    match call {
        b'c' => quantities::conversions::convert_to(t, q, l),
        b'r' => values::single::reduce(t, q),
        b'a' => values::single::abs(t, q),
        b'x' => values::single::no_simplify(t, q),
        b'f' => simplification::full_simplify(t, q),
        b'F' => registry::full_simplify_with(t, q, candidate(l)),
        _ => values::single::negate(t, q),
    }
}

fn judged(call: u8, q: Quantity, p: Quantity) -> Result<Answer, Refusal> {
    let t = table(8);
    match call {
        b'o' => Ok(Answer::Ordered(quantities::comparisons::compare(t, q, p)?)),
        b'e' => Ok(Answer::Equal(quantities::comparisons::equal(t, q, p)?)),
        _ => Ok(Answer::Equal(lists::forms::same_list(t, q.unit, p.unit)?)),
    }
}

// A function pays at its entry for what it holds, so each sort of call has the table in a function of its own.
fn asked(call: u8, q: Quantity, p: Quantity) -> Result<Answer, Refusal> {
    match call {
        b'o' | b'e' | b'l' => judged(call, q, p),
        b'+' | b'-' | b'*' | b'/' | b'^' => Ok(Answer::Quantity(combined(call, q, p)?)),
        _ => Ok(Answer::Quantity(changed(call, q, p.unit)?)),
    }
}

// ---- whether it is what it must be

fn same_factor(f: Factor, g: Factor) -> bool {
    canonical::form::compared(f.row, f.prefix, g.row, g.prefix).is_eq() && f.exponent == g.exponent
}

// What stands past the end counts too.
fn same_list(a: Factors, b: Factors) -> bool {
    for i in 0..16 {
        if !same_factor(a.at[i], b.at[i]) {
            return false;
        }
    }
    a.len == b.len
}

// Kept: floats are the same by their bits.
fn same_quantity(q: Quantity, p: Quantity) -> bool {
    q.mark == p.mark
        && floats::bits_of(q.value) == floats::bits_of(p.value)
        && same_list(q.unit, p.unit)
}

fn text(rt: &impl Print, s: &[u8]) -> io::Result<()> {
    rt.write_all(s)
}

// What a line has for a quantity where none is answered.
fn nothing() -> Quantity {
    Quantity {
        unit: units::lists::empty(),
        value: 0.0,
        mark: false,
    }
}

// The character by which a line says what is answered.
fn word(answer: Answer) -> u8 {
    match answer {
        Answer::Quantity(_) => b'0',
        Answer::Equal(true) => b'y',
        Answer::Equal(false) => b'q',
        Answer::Ordered(Ordering::Less) => b'<',
        Answer::Ordered(Ordering::Equal) => b'=',
        Answer::Ordered(Ordering::Greater) => b'>',
    }
}

fn is_right(line: &[u8], got: Result<Answer, Refusal>) -> bool {
    let code = byte_at(line, 98);
    let want = quantity_at(line, 100);
    match got {
        Ok(Answer::Quantity(q)) => digit(code) == 0 && same_quantity(q, want),
        Ok(answer) => code == word(answer) && same_quantity(nothing(), want),
        Err(refusal) => digit(code) == u32::from(refusal) as u64 && same_quantity(nothing(), want),
    }
}

// What was answered: 0 for a quantity, a word's character or a refusal's number; and the value's bits.
fn show_other(rt: &impl Print, got: Result<Answer, Refusal>) -> io::Result<()> {
    let (number, bits) = match got {
        Ok(Answer::Quantity(q)) => (0, floats::bits_of(q.value)),
        Ok(answer) => (word(answer) as u32, 0),
        Err(refusal) => (u32::from(refusal), 0),
    };
    println!(rt; " DIFFERS {number} {bits:016x}")
}

fn tried(rt: &impl Print, line: &[u8]) -> io::Result<bool> {
    let got = asked(
        byte_at(line, 52),
        quantity_at(line, 54),
        quantity_at(line, 76),
    );
    let right = is_right(line, got);
    text(rt, line)?;
    if right {
        text(rt, b" ok\n")?;
    } else {
        show_other(rt, got)?;
    }
    Ok(right)
}

// How many cases there were, and how many of them differed.
#[derive(Clone, Copy, Drop)]
struct Tally {
    cases: u64,
    wrong: u64,
}

#[derive(Clone, Copy, Drop)]
enum Outcome {
    Right,
    Wrong,
    NoMore,
}

// The next line.
fn next<R: Read>(rt: &impl Print, input: &mut R) -> io::Result<Outcome> {
    let mut line = [0; 122];
    if input.read_exact(&mut line).is_err() {
        return Ok(Outcome::NoMore);
    }
    if tried(rt, &line[0..121])? {
        Ok(Outcome::Right)
    } else {
        Ok(Outcome::Wrong)
    }
}

fn run<R: Read>(rt: &impl Print, input: &mut R) -> io::Result<Tally> {
    let mut wrong: u64 = 0;
    for cases in 0..1000 {
        match next(rt, input)? {
            Outcome::Right => {}
            Outcome::Wrong => {
                wrong = std::num::wrapping_add_u64(wrong, 1);
            }
            Outcome::NoMore => {
                return Ok(Tally { cases, wrong });
            }
        }
    }
    Ok(Tally { cases: 1000, wrong })
}

fn main(rt: HostRuntime) -> io::Result<()> {
    let t = run(&rt, &mut rt.stdin())?;
    let cases = t.cases;
    let wrong = t.wrong;
    println!(rt; "{cases} cases, {wrong} differ")
}
