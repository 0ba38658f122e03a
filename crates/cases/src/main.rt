// cases: runs many small cases from standard input, and prints what each comes to.
//
// A line that begins `== ` begins a case, and is printed as it is; lines before the first are passed over.
// What a case is goes by its first line that is not passed over (blank, or begun by `#`).
//
// A line `unit U factors G G G` (perhaps with no G) makes a setting and prints
//   setting unit 10 range 600 moduli 30 40 50
// or its refusal; each line `remainder N K` after it prints the remainder of position N in channel K, as
//   remainder 17
// or the refusal. Any other line there prints `bad case`.
//
// Any other case is a table, as `unfold` reads it: each row prints its result line or its refusal,
// a refused setting prints its refusal and ends the case, and so does bad text, as
//   bad text at line 3: word 2 is no number
// with the lines of the case counted from 1; at its end the line is the one after the last.
//
// A refusal is printed with both figures:
//   refused 16 channel 0 depth 0 figures 3 1
#![tactic(auto)]

use records::Fault;
use settings::Setting;
use std::alloc::Global;
use std::io::{BufRead, BufReader};
use std::str::FromStr;
use std::{fmt, io, str};
use tables::{
    BadText, Desk, Part, RefusalRecord, Reply, Spaced, UnfoldingLine, Words, first_word, number,
    part_of,
};
use unfolding::Unfolding;

/// How far a case is.
#[derive(Clone, Copy)]
enum Stage {
    Fresh,
    Table,
    Unit(Setting),
    Done,
}

/// What a line of a case tells.
#[derive(Clone, Copy)]
enum Told {
    Setting(Setting),
    Remainder(u32),
    Row(Unfolding),
    Refused(Fault),
}

/// What ends a case before its last line, or at its end.
#[derive(Clone, Copy)]
enum End {
    BadCase,
    BadText { line: u64, bad: BadText },
    Refused(Fault),
}

impl fmt::Display for Told {
    fn fmt<W: fmt::Write>(&self, f: &mut fmt::Formatter<W>) -> fmt::Result {
        match self {
            Told::Setting(setting) => {
                let unit = setting.unit();
                let range = setting.range();
                let moduli = Spaced(setting.moduli());
                write!(f, "setting unit {unit} range {range} moduli{moduli}")
            }
            Told::Remainder(rest) => write!(f, "remainder {rest}"),
            Told::Row(found) => UnfoldingLine(found).fmt(f),
            Told::Refused(fault) => RefusalRecord(*fault).fmt(f),
        }
    }
}

impl fmt::Display for End {
    fn fmt<W: fmt::Write>(&self, f: &mut fmt::Formatter<W>) -> fmt::Result {
        match self {
            End::BadCase => f.write_str("bad case"),
            End::BadText { line, bad } => write!(f, "bad text at line {line}: {bad}"),
            End::Refused(fault) => RefusalRecord(*fault).fmt(f),
        }
    }
}

/// A line of a table.
fn table_line(desk: &mut Desk, line: u64, text: &[u8]) -> Result<Option<Told>, End> {
    match desk.line(text).map_err(|bad| End::BadText { line, bad })? {
        Reply::Nothing => Ok(None),
        Reply::Refused(refusal) => Err(End::Refused(refusal.into())),
        Reply::Row(Ok(found)) => Ok(Some(Told::Row(found))),
        Reply::Row(Err(refusal)) => Ok(Some(Told::Refused(refusal.into()))),
    }
}

/// The unit of a line `unit U factors ..`, with its factors in `factors`.
fn read_unit(text: &[u8], factors: &mut Vec<u32>) -> Option<u32> {
    let mut words = Words::new(text).skip(1);
    let unit = number(words.next()?).ok()?;
    let Some(b"factors") = words.next() else {
        return None;
    };
    for word in words {
        factors.push(number(word).ok()?).ok()?;
    }
    Some(unit)
}

/// What a word writes.
fn parsed<T: FromStr>(word: &[u8]) -> Option<T>
where
    T::Err: Drop,
{
    str::from_utf8(word).ok()?.parse().ok()
}

/// The position and channel of a line `remainder N K`.
fn read_remainder(text: &[u8]) -> Option<(u64, usize)> {
    let mut words = Words::new(text);
    let Some(b"remainder") = words.next() else {
        return None;
    };
    let position = parsed(words.next()?)?;
    let channel = parsed(words.next()?)?;
    words.next().is_none().then_some((position, channel))
}

/// Whether a line begins a unit case.
fn begins_unit(text: &[u8]) -> bool {
    matches!(first_word(text), Some((b"unit", _)))
}

/// The setting that the line which begins a unit case makes.
fn unit_line(heap: Global, text: &[u8]) -> Result<Setting, End> {
    let mut factors = Vec::new(heap);
    let unit = read_unit(text, &mut factors).ok_or(End::BadCase)?;
    Setting::new(unit, &factors).map_err(|refusal| End::Refused(refusal.into()))
}

/// A line `remainder N K`.
fn remainder_line(setting: &Setting, text: &[u8]) -> Result<Told, End> {
    let (position, channel) = read_remainder(text).ok_or(End::BadCase)?;
    Ok(match setting.remainder(position, channel) {
        Ok(rest) => Told::Remainder(rest),
        Err(refusal) => Told::Refused(refusal.into()),
    })
}

/// A case as it is read.
#[derive(Drop)]
struct Case {
    stage: Stage,
    desk: Desk,
    // Counted here, and not by the iterator: a case begins in the middle of the input, and the line after its last is told too.
    lines: u64,
}

impl Case {
    fn new(heap: Global) -> Case {
        Case {
            stage: Stage::Fresh,
            desk: Desk::new(heap),
            lines: 0,
        }
    }

    /// Whether nothing more is told of the case.
    fn is_done(&self) -> bool {
        matches!(self.stage, Stage::Done)
    }

    /// What the next line of the case tells, if anything.
    fn line(&mut self, heap: Global, text: &[u8]) -> Result<Option<Told>, End> {
        self.lines = self.lines.saturating_add(1);
        if part_of(text) == Part::Passed {
            return Ok(None);
        }
        match self.stage {
            Stage::Done => Ok(None),
            Stage::Unit(setting) => remainder_line(&setting, text).map(Some),
            Stage::Fresh if begins_unit(text) => {
                let setting = unit_line(heap, text)?;
                self.stage = Stage::Unit(setting);
                Ok(Some(Told::Setting(setting)))
            }
            Stage::Fresh | Stage::Table => {
                self.stage = Stage::Table;
                table_line(&mut self.desk, self.lines, text)
            }
        }
    }

    /// Whether the case may end here.
    fn end(&self) -> Result<(), End> {
        match self.stage {
            Stage::Fresh | Stage::Table => self.desk.end().map_err(|bad| End::BadText {
                line: self.lines.saturating_add(1),
                bad,
            }),
            Stage::Unit(_) | Stage::Done => Ok(()),
        }
    }
}

fn main(rt: HostRuntime) -> io::Result<()> {
    let heap = rt.alloc();
    let mut case = Case::new(heap);
    case.stage = Stage::Done;
    for line in BufReader::new(heap, rt.stdin())?.split(heap, b'\n') {
        let line = line?;
        let text = line.as_slice();
        if text.starts_with(b"== ") {
            case.end().or_else(|end| rt.println(end))?;
            case = Case::new(heap);
            rt.println(str::from_utf8(text).unwrap_or("== ?"))?;
            continue;
        }
        if case.is_done() {
            continue;
        }
        match case.line(heap, text) {
            Ok(told) => {
                if let Some(told) = told {
                    rt.println(told)?;
                }
            }
            Err(end) => {
                rt.println(end)?;
                case.stage = Stage::Done;
            }
        }
    }
    case.end().or_else(|end| rt.println(end))
}
