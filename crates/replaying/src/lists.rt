// The lists of a line: where they stand, and how they are stored and compared. One of more than ROOM places stands there as one word: that of the number
// in all its places, from LEVEL places on, and else the one that it is made from (made.rt) and afterwards its sum.
use crate::read::behind;
use crate::{made, read};

// The most places of a list whose numbers stand in the line one by one.
pub const ROOM: usize = 32;

// One place more than a call takes.
pub const MOST: usize = 65537;

// The fewest places of a list that has one number in all of them.
const LEVEL: usize = 65536;

// The first word of a list, and how many places it has.
#[derive(Clone, Copy)]
pub struct List {
    pub at: usize,
    pub places: usize,
}

// The two slices, the slice that may be written to, and the first word of what was answered.
#[derive(Clone, Copy)]
pub struct Places {
    pub a: List,
    pub b: List,
    pub out: List,
    pub said: usize,
}

// The list whose count is word i.
pub fn listed(line: &[u8], i: usize) -> List {
    List {
        at: behind(i, 1),
        places: read::size(line, i),
    }
}

// The most numbers that a call is given.
const MOST_GIVEN: usize = 256;

// The numbers that the call is given stand before them, one by one however many they are.
pub fn placed(line: &[u8]) -> Places {
    let given = listed(line, 3);
    let a = listed(line, behind(given.at, given.places.min(MOST_GIVEN)));
    let b = listed(line, a.end());
    let out = listed(line, b.end());
    Places {
        a,
        b,
        out,
        said: out.end(),
    }
}

impl Places {
    // Whether one of the lists has more places than a line has words for.
    pub fn is_long(self) -> bool {
        self.a.is_long() || self.b.is_long() || self.out.is_long()
    }
}

// The first n places, or all where there are fewer.
pub fn first<T>(xs: &[T], n: usize) -> &[T] {
    &xs[..n.min(xs.len())]
}

// The same of places to be written to.
pub fn first_mut<T>(xs: &mut [T], n: usize) -> &mut [T] {
    let n = n.min(xs.len());
    &mut xs[..n]
}

// 'The same number': equal as floats, with zeros of either sign alike and any NaN equal to any other.
pub fn same_number(a: f64, b: f64) -> bool {
    a == b || a.is_nan() && b.is_nan()
}

impl List {
    fn is_long(self) -> bool {
        ROOM < self.places
    }

    // The word behind it.
    pub fn end(self) -> usize {
        behind(self.at, if self.is_long() { 1 } else { self.places })
    }

    // Stores it; what is behind its places doesn't matter.
    pub fn fill(self, line: &[u8], out: &mut [f32]) {
        if self.places <= ROOM {
            for (k, x) in out.iter_mut().enumerate() {
                *x = read::float(line, behind(self.at, k));
            }
        } else if self.places < LEVEL {
            made::fill(read::word(line, self.at), out);
        } else {
            out.fill(read::float(line, self.at));
        }
    }

    // Whether it stands in the first of these; of a list that is made, the sum of as many as there are decides.
    pub fn stands_in(self, line: &[u8], xs: &[f32]) -> bool {
        if ROOM < self.places && self.places < LEVEL {
            return made::sum(first(xs, self.places)) == read::word(line, self.at);
        }
        let Some(xs) = xs.get(..self.places) else {
            return false;
        };
        if self.places <= ROOM {
            let here = |k: usize| f64::from(read::float(line, behind(self.at, k)));
            xs.iter()
                .enumerate()
                .all(|(k, x)| same_number(here(k), f64::from(*x)))
        } else {
            let all = f64::from(read::float(line, self.at));
            xs.iter().all(|x| same_number(all, f64::from(*x)))
        }
    }
}
