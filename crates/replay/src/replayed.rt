// A file of records, asked again one after another to its end.
use crate::kinds::RecordKind;
use crate::records::{Found, asked_again, is_read};
use std::io;
use std::io::{Read, Write};

// How many records of a kind were answered, were refused and differ. No file is so long that a count comes round to 0.
#[derive(Clone, Copy)]
struct Counts {
    answered: u64,
    refused: u64,
    different: u64,
}

impl Counts {
    // No record yet.
    const NONE: Counts = Counts {
        answered: 0,
        refused: 0,
        different: 0,
    };

    fn records(self) -> u64 {
        self.answered
            .wrapping_add(self.refused)
            .wrapping_add(self.different)
    }
}

// kept: one line, as in `slots`.
fn count(n: &mut u64) {
    *n = n.wrapping_add(1);
}

// Where the replaying stands: the next record's place in the file, the counts of each kind, and whether no record differs yet.
#[derive(Clone, Copy)]
struct Progress {
    place: u64,
    counts: [Counts; 9],
    is_same: bool,
}

impl Progress {
    fn new(place: u64) -> Progress {
        Progress {
            place,
            counts: [Counts::NONE; 9],
            is_same: true,
        }
    }

    // What became of the record at this place. Says whether the file goes on behind it.
    fn found<W: Write>(&mut self, out: &mut W, kind: RecordKind, found: Found) -> io::Result<bool> {
        let place = self.place;
        let counts = &mut self.counts[kind as usize];
        match found {
            Found::Answered => count(&mut counts.answered),
            Found::Refused => count(&mut counts.refused),
            Found::Different => {
                count(&mut counts.different);
                if self.is_same {
                    writeln!(out, "first difference: {kind}, at byte {place}")?;
                }
                self.is_same = false;
            }
            Found::Cut => {
                writeln!(out, "cut short: {kind}, at byte {place}")?;
                return Ok(false);
            }
        }
        self.place = place.wrapping_add(kind.size());
        Ok(true)
    }

    // Asks about the next record. Says whether there was one, and whole.
    fn turn<R: Read, W: Write>(&mut self, answers: &mut R, out: &mut W) -> io::Result<bool> {
        let mut first = [0u8; 1];
        if !is_read(answers, &mut first)? {
            return Ok(false);
        }
        let Ok(kind) = RecordKind::try_from(first[0]) else {
            writeln!(out, "no kind of record, at byte {}", self.place)?;
            return Ok(false);
        };
        let found = asked_again(answers, kind)?;
        self.found(out, kind, found)
    }

    // A line for each kind.
    fn lines<W: Write>(self, out: &mut W) -> io::Result<()> {
        for (kind, counts) in RecordKind::ALL.iter().zip(self.counts.iter()) {
            let records = counts.records();
            let Counts {
                answered,
                refused,
                different,
            } = *counts;
            write!(out, "{kind}: records {records}, answered {answered}")?;
            writeln!(out, ", refused {refused}, differences {different}")?;
        }
        Ok(())
    }
}

// The length of the line at the head. kept: byte by byte, since it may have no end: a thousand bytes are read at most.
fn head<R: Read>(answers: &mut R) -> io::Result<u64> {
    let mut one = [0u8; 1];
    for n in 0..1000 {
        if !is_read(answers, &mut one)? {
            return Ok(n);
        }
        if one[0] == b'\n' {
            return Ok(n + 1);
        }
    }
    Ok(1000)
}

// kept: a proved loop has to end, and nothing says that a file does: no run uses up the turns.
pub fn replay<R: Read, W: Write>(answers: &mut R, out: &mut W) -> io::Result<()> {
    let mut progress = Progress::new(head(answers)?);
    for _ in 0..u64::MAX {
        if !progress.turn(answers, out)? {
            break;
        }
    }
    progress.lines(out)
}
