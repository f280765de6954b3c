// What an answer prints.
use book::{Counts, Refuses};
use sheet::{Alternatives, Suggestion};
use std::{fmt, io};

// An answer of any call, as its line says it.
#[derive(Clone, Copy)]
pub(crate) enum Line {
    Book(Counts),
    Loaded,
    Listed(Alternatives),
    Row(Option<usize>),
    Reading(Option<Suggestion>),
    Questions(Option<usize>),
    Written(usize),
    Refused { number: u64, place: usize },
    TooShort,
}

impl fmt::Display for Line {
    fn fmt<W: fmt::Write>(&self, f: &mut fmt::Formatter<W>) -> fmt::Result {
        match *self {
            Line::Book(
                Counts {
                    fields,
                    tables,
                    rows,
                    different,
                },
            ) => write!(f, "book {fields} {tables} {rows} {different}"),
            Line::Loaded => write!(f, "loaded"),
            Line::Listed(Alternatives { total, struck }) => write!(f, "listed {total} {struck}"),
            Line::Row(None) => write!(f, "none"),
            Line::Row(Some(row)) => write!(f, "row {row}"),
            Line::Reading(None) => write!(f, "no reading"),
            Line::Reading(Some(Suggestion { differing, written })) => {
                write!(f, "reading {differing} {written}")
            }
            Line::Questions(None) => write!(f, "no plan"),
            Line::Questions(Some(number)) => write!(f, "questions {number}"),
            Line::Written(size) => write!(f, "written {size}"),
            Line::Refused { number, place } => write!(f, "refused {number} {place}"),
            Line::TooShort => write!(f, "too short"),
        }
    }
}

impl From<Counts> for Line {
    fn from(counts: Counts) -> Line {
        Line::Book(counts)
    }
}

impl From<()> for Line {
    fn from(_: ()) -> Line {
        Line::Loaded
    }
}

impl From<Alternatives> for Line {
    fn from(listed: Alternatives) -> Line {
        Line::Listed(listed)
    }
}

impl From<Option<usize>> for Line {
    fn from(row: Option<usize>) -> Line {
        Line::Row(row)
    }
}

impl From<Option<Suggestion>> for Line {
    fn from(reading: Option<Suggestion>) -> Line {
        Line::Reading(reading)
    }
}

impl From<usize> for Line {
    fn from(size: usize) -> Line {
        Line::Written(size)
    }
}

// A line: the name of what is tried, the number tried, and the answer.
// (d) Runtime, name and number apart, here, in `show` and in `try_book`: a type of the three would be made for one call, and taken apart to print.
pub(crate) fn say<T, E: Refuses + Copy>(
    rt: &HostRuntime,
    name: &str,
    tried: usize,
    answer: Result<T, E>,
) -> io::Result<()>
where
    Line: From<T>,
{
    let line = match answer {
        Ok(told) => Line::from(told),
        Err(refused) => Line::Refused {
            number: refused.number(),
            place: refused.place(),
        },
    };
    show(rt, name, tried, line)
}

pub(crate) fn show(rt: &HostRuntime, name: &str, tried: usize, line: Line) -> io::Result<()> {
    println!(rt; "{name} {tried}: {line}")
}
