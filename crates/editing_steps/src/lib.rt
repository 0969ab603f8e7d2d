// One step of a scenario: the editor's call that stands packed in the input, and what is said of its answer.
//
// A step: a byte that says which it is, 16 bytes (usage, number, type, length of the data; or L and U; or usage, number, new
// usage, new number), the data. Steps 0 to 4 and 6 are blank, add, replace, remove, undo, link, each given the L and U of the
// last answer; step 5 gives the next one others.
// tests/make_editing_samples.py writes them.
#![tactic(auto)]

use editor::Answer;
use sampling::{Packed, Stop, checksum, refused};
use std::io;

#[derive(Clone, Copy)]
enum Step<'a> {
    Blank,
    Add {
        usage: [u8; 4],
        number: u32,
        kind: [u8; 4],
        data: &'a [u8],
    },
    Replace {
        usage: [u8; 4],
        number: u32,
        kind: [u8; 4],
        data: &'a [u8],
    },
    Remove {
        usage: [u8; 4],
        number: u32,
    },
    Undo,
    Given {
        len: usize,
        used: usize,
    },
    Link {
        usage: [u8; 4],
        number: u32,
        new_usage: [u8; 4],
        new_number: u32,
    },
}

impl<'a> Step<'a> {
    fn unpack(packed: &mut Packed<'a>) -> Result<Step<'a>, Stop> {
        let [which] = packed.bytes::<1>()?;
        if which == 5 {
            let len = packed.wide()? as usize;
            let used = packed.wide()? as usize;
            return Ok(Step::Given { len, used });
        }
        let usage = packed.bytes()?;
        let number = packed.number()?;
        let kind = packed.bytes()?;
        let last = packed.number()?;
        if which == 6 {
            return Ok(Step::Link {
                usage,
                number,
                new_usage: kind,
                new_number: last,
            });
        }
        let data = packed.take(last as usize)?;
        Ok(match which {
            0 => Step::Blank,
            1 => Step::Add {
                usage,
                number,
                kind,
                data,
            },
            2 => Step::Replace {
                usage,
                number,
                kind,
                data,
            },
            3 => Step::Remove { usage, number },
            _ => Step::Undo,
        })
    }

    fn name(&self) -> &'static str {
        match self {
            Step::Blank => "blank",
            Step::Add { .. } => "add",
            Step::Replace { .. } => "replace",
            Step::Remove { .. } => "remove",
            Step::Undo => "undo",
            Step::Given { .. } => "given",
            Step::Link { .. } => "link",
        }
    }
}

// Both buffers, and what else the next call is given.
#[derive(Drop)]
pub struct Stage<'a> {
    pub file: &'a mut [u8],
    pub jrn: &'a mut [u8],
    pub len: usize,
    pub used: usize,
    pub profile: u32,
}

// The borrow check covers no field lent as `&` beside one lent as `&mut`, so that the journal is lent to this as `&mut`.
fn undo(file: &mut [u8], len: usize, jrn: &mut [u8], used: usize, profile: u32) -> Answer {
    editor::undo(file, len, jrn, used, profile)
}

impl Stage<'_> {
    fn call(&mut self, step: Step) -> Answer {
        let len = self.len;
        let used = self.used;
        let profile = self.profile;
        match step {
            Step::Blank => editor::blank(self.file),
            Step::Add {
                usage,
                number,
                kind,
                data,
            } => editor::add(
                self.file, len, self.jrn, used, profile, usage, number, kind, data,
            ),
            Step::Replace {
                usage,
                number,
                kind,
                data,
            } => editor::replace(
                self.file, len, self.jrn, used, profile, usage, number, kind, data,
            ),
            Step::Remove { usage, number } => {
                editor::remove(self.file, len, self.jrn, used, profile, usage, number)
            }
            Step::Undo => undo(self.file, len, self.jrn, used, profile),
            Step::Given { len, used } => Answer {
                outcome: Ok(()),
                len,
                used,
            },
            Step::Link {
                usage,
                number,
                new_usage,
                new_number,
            } => editor::link(
                self.file, len, self.jrn, used, profile, usage, number, new_usage, new_number,
            ),
        }
    }

    pub fn say_lengths(&self, rt: &impl Print) -> io::Result<()> {
        print!(rt; " L {} U {}", self.len, self.used)
    }

    // The next step: says what it answers, and the sums of both buffers after it.
    pub fn step(&mut self, rt: &impl Print, packed: &mut Packed) -> Result<(), Stop> {
        let step = Step::unpack(packed)?;
        print!(rt; " {} ", step.name())?;
        let answer = self.call(step);
        match answer.outcome {
            Ok(()) => print!(rt; "done")?,
            Err(r) => refused(rt, r.number(), r.place)?,
        }
        self.len = answer.len;
        self.used = answer.used;
        self.say_lengths(rt)?;
        println!(rt; " sums {} {}", checksum(self.file), checksum(self.jrn))?;
        Ok(())
    }
}
