// Schemes as text.
use crate::text::{write_digits, write_words};
use cards::CardScheme;
use cumulative::Cumulative;
use schemes::{Colour, KeyholderSet, Levels, MOST_KEYHOLDERS, Scheme, levels_of};
use std::fmt;

// What kind of scheme it is, in words.
pub fn name(scheme: &CardScheme) -> &'static str {
    match scheme {
        CardScheme::All(_) => "all of",
        CardScheme::Two(_) => "two of",
        CardScheme::Sets(_) => "sets of",
    }
}

// A keyholder's cells for a colour, column by column.
#[derive(Clone, Copy)]
struct Cells<'a> {
    scheme: &'a CardScheme,
    colour: Colour,
    keyholder: u8,
}

impl fmt::Display for Cells<'_> {
    fn fmt<W: fmt::Write>(&self, f: &mut fmt::Formatter<W>) -> fmt::Result {
        let columns = 0..self.scheme.columns();
        write_digits(
            f,
            columns.map(|column| self.scheme.cell(self.colour, self.keyholder, column)),
        )
    }
}

// Each keyholder's film: the cells for white and for black.
fn write_films<W: fmt::Write>(f: &mut fmt::Formatter<W>, scheme: &CardScheme) -> fmt::Result {
    for keyholder in 1..=scheme.keyholders() {
        let cells = |colour| Cells {
            scheme,
            colour,
            keyholder,
        };
        let white = cells(Colour::White);
        let black = cells(Colour::Black);
        writeln!(f, "film {keyholder}: white {white} black {black}")?;
    }
    Ok(())
}

// The maximal forbidden sets with their numbers, and each keyholder's record: the numbers of those that he is not in.
fn write_records<W: fmt::Write>(f: &mut fmt::Formatter<W>, scheme: &Cumulative) -> fmt::Result {
    for (q, set) in scheme.forbidden_sets().iter().enumerate() {
        writeln!(f, "forbidden {q}: {set}")?;
    }
    for keyholder in 1..=scheme.keyholders() {
        let record = scheme.record(keyholder);
        write!(f, "record {keyholder}:")?;
        write_words(f, (0..MOST_KEYHOLDERS).filter(|q| record.has(*q)))?;
        writeln!(f)?;
    }
    Ok(())
}

// The levels of every qualified set.
fn write_levels<W: fmt::Write>(f: &mut fmt::Formatter<W>, scheme: &CardScheme) -> fmt::Result {
    for set in (0..=u8::MAX).map(KeyholderSet::from_bits) {
        if scheme.qualified(set) {
            let Levels { light, dark } = levels_of(scheme, set);
            writeln!(f, "set {set}: light {light} dark {dark}")?;
        }
    }
    Ok(())
}

// A scheme: its sizes, its films, for sets the forbidden sets and the records, and the levels of every qualified set.
#[derive(Clone, Copy)]
pub struct Report<'a>(pub &'a CardScheme);

impl fmt::Display for Report<'_> {
    fn fmt<W: fmt::Write>(&self, f: &mut fmt::Formatter<W>) -> fmt::Result {
        let name = name(self.0);
        let n = self.0.keyholders();
        let m = self.0.columns();
        write!(f, "{name} {n}\nkeyholders {n}\ncolumns {m}\n")?;
        write_films(f, self.0)?;
        if let CardScheme::Sets(sets) = self.0 {
            write_records(f, sets)?;
        }
        write_levels(f, self.0)
    }
}
