// What a call answers besides what it writes: its number of the table of outcomes, an f64, and f32; those that a call doesn't have are 0.
use crate::lists::{Places, ROOM, same_number};
use crate::{lists, read};
use answers::Refusal;
use crossing::measured::Figure;

#[derive(Clone, Copy)]
pub struct Said {
    pub code: u32,
    pub wide: f64,
    pub floats: [f32; ROOM],
}

pub fn code(code: u32) -> Said {
    Said {
        code,
        wide: 0.0,
        floats: [0.0; ROOM],
    }
}

// What is said of a call that has no number: never right.
pub fn nothing() -> Said {
    code(255)
}

pub fn ended(outcome: Result<(), Refusal>) -> Said {
    code(u32::from(answers::code_of(outcome)))
}

// What is said, where all else is right.
pub fn where_right(right: bool, said: Said) -> Said {
    if !right {
        return nothing();
    }
    said
}

// The number and these f32.
pub fn with_floats(number: u8, xs: &[f32]) -> Said {
    let mut floats = [0.0; ROOM];
    for (float, x) in floats.iter_mut().zip(xs) {
        *float = *x;
    }
    Said {
        floats,
        ..code(u32::from(number))
    }
}

pub fn floats(xs: &[f32]) -> Said {
    with_floats(0, xs)
}

pub fn float(x: f32) -> Said {
    floats(&[x])
}

// Answers are compared as they cross the C boundary, where what a refused call shows is made.
pub fn measured(m: Result<f32, Refusal>) -> Said {
    let figure = Figure::from(m);
    with_floats(figure.code, &[figure.value])
}

pub fn double(wide: f64) -> Said {
    Said { wide, ..code(0) }
}

// ---- the comparison

// Whether the line says the same: the number, the f64, how many f32 there are, these, and the slice that may be written to afterwards.
pub fn same(line: &[u8], at: Places, said: Said, after: &[f32]) -> bool {
    let wide = read::double(line, read::behind(at.said, 1));
    let floats = lists::listed(line, read::behind(at.said, 3));
    let out = lists::List {
        at: read::behind(floats.at, floats.places),
        ..at.out
    };
    read::word(line, at.said) == said.code
        && same_number(wide, said.wide)
        && floats.stands_in(line, &said.floats)
        && out.stands_in(line, after)
}

// The same for a call that is given no slice to write to, whatever the line has of one.
pub fn agrees(line: &[u8], said: Said) -> bool {
    let mut at = lists::placed(line);
    at.out.places = 0;
    same(line, at, said, &[])
}
