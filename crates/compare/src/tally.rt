// What the trials come to: how often each answer came, how often each clause of 17, how many numbers were compared and how many of them
// differed. The first difference of a trial is written out with the trial's number.
ghost use Rattle.std.specs.Prelude.{◌≡◌, ◌<◌, ◌≤◌, IsSome, None};

use answers::{Refusal, Refused};
use draws::dice::Dice;
use second_plan::answers::Answer;
use second_plan::named::{Names, numbered};
use std::convert::AsSlice;
use std::io;
use std::io::{Print, Stdout};

// The clauses of 17, in document 01's order.
#[derive(Clone, Copy, Debug, PartialEq, Eq)]
pub enum Clause {
    Limits,
    Ends,
    Rising,
    Derived,
    Counts,
    Queues,
    Messages,
    Past,
}

impl Clause {
    // By number, from 1 on.
    pub const ALL: [Clause; 8] = [
        Clause::Limits,
        Clause::Ends,
        Clause::Rising,
        Clause::Derived,
        Clause::Counts,
        Clause::Queues,
        Clause::Messages,
        Clause::Past,
    ];
}

impl Names<Clause> for usize {
    fn named(self) -> Option<Clause>
        ensures there { 1 ≤ self → self < 9 → IsSome result }
        ensures none_below { self < 1 → result ≡ None }
        ensures none { 9 ≤ self → result ≡ None }
    {
        numbered(&Clause::ALL, 1, self)
    }
}

// The bench program's own answer, which is never one of these.
const OF_THE_PROGRAM: usize = Refusal::TooLong as usize;

// The answers from this one on are of layouts alone.
const OF_LAYOUTS: usize = Refusal::TooDeep as usize;

// What is written goes to standard output; why that failed, where it did, is answered in place of the report.
#[derive(Clone, Copy)]
pub struct Tally {
    answers: [usize; 24],
    clauses: [usize; 8],
    trials: usize,
    compared: usize,
    different: usize,
    // The last trial of which a difference was written out; 0 before any, since trials count from 1.
    told: usize,
    out: Stdout,
    written: io::Result<()>,
}

// What every trial draws from, and what it adds to.
#[derive(Drop)]
pub struct Trials {
    pub dice: Dice,
    pub tally: Tally,
}

impl Trials {
    pub fn new(seed: u64, out: Stdout) -> Trials {
        Trials {
            dice: Dice::new(seed),
            tally: Tally::new(out),
        }
    }
}

// What the bench answers, in the second simulator's form. A function and no `From`: both types are other crates'.
pub fn answer_of(outcome: Result<usize, Refused>) -> Answer {
    match outcome {
        Ok(place) => Answer {
            number: 0,
            place,
            taken: 0,
        },
        Err(refused) => Answer {
            number: refused.refusal.number(),
            place: refused.place,
            taken: 0,
        },
    }
}

fn raise(count: &mut usize, by: usize) {
    *count = count.saturating_add(by);
}

impl Tally {
    // Nothing is counted yet.
    pub fn new(out: Stdout) -> Tally {
        Tally {
            answers: [0; 24],
            clauses: [0; 8],
            trials: 0,
            compared: 0,
            different: 0,
            told: 0,
            out,
            written: Ok(()),
        }
    }

    pub fn begin(&mut self) {
        raise(&mut self.trials, 1);
    }

    // The line of a difference. The name of what differs goes out as it is, whether its bytes are text or not.
    fn write_difference<W: AsSlice<u8> + Copy>(
        &self,
        what: W,
        place: usize,
        bench: usize,
        second: usize,
    ) -> io::Result<()> {
        let trial = self.trials;
        print!(self.out; "trial {trial}, ")?;
        self.out.write_all(what.as_slice())?;
        println!(self.out; " {place}: the bench has {bench}, the second simulator {second}")
    }

    fn differ<W: AsSlice<u8> + Copy>(
        &mut self,
        what: W,
        place: usize,
        bench: usize,
        second: usize,
    ) {
        raise(&mut self.different, 1);
        if self.told == self.trials {
            return;
        }
        self.told = self.trials;
        let line = self.write_difference(what, place, bench, second);
        if line.is_err() {
            self.written = line;
        }
    }

    // Two lists of one length that have to be the same. Past the end of a shorter second list stand zeros.
    pub fn same_list<W: AsSlice<u8> + Copy, T: Copy + Into<usize>>(
        &mut self,
        what: W,
        bench: &[T],
        second: &[T],
    ) {
        raise(&mut self.compared, bench.len());
        for (place, x) in bench.iter().enumerate() {
            let x = (*x).into();
            let y = second.get(place).map_or(0, |y| (*y).into());
            if x != y {
                self.differ(what, place, x, y);
                return;
            }
        }
    }

    pub fn same<W: AsSlice<u8> + Copy>(&mut self, what: W, bench: usize, second: usize) {
        self.same_list(what, &[bench], &[second]);
    }

    // Two answers that have to be one; the bench's is counted.
    pub fn same_answer<W: AsSlice<u8> + Copy>(&mut self, what: W, bench: u8, second: u8) {
        if let Some(times) = self.answers.get_mut(usize::from(bench)) {
            raise(times, 1);
        }
        self.same(what, usize::from(bench), usize::from(second));
    }

    // A network or a state that a clause of 17 keeps out; what names no clause counts nothing.
    pub fn count_clause<C: Names<Clause>>(&mut self, clause: C) {
        if let Some(clause) = clause.named() {
            raise(&mut self.clauses[clause as usize], 1);
        }
    }

    // The last lines of a report.
    fn report_compared(&self) -> io::Result<()> {
        let Tally {
            compared,
            different,
            ..
        } = self;
        println!(self.out; "numbers compared: {compared}")?;
        println!(self.out; "differences: {different}")
    }

    // A report that begins after a difference was lost would look whole.
    pub fn report(&self) -> io::Result<()> {
        self.written?;
        let trials = self.trials;
        println!(self.out; "trials: {trials}")?;
        for (number, times) in self.answers[..OF_LAYOUTS].iter().enumerate() {
            if number != OF_THE_PROGRAM {
                println!(self.out; "answer {number}: {times}")?;
            }
        }
        for (i, times) in self.clauses.iter().enumerate() {
            let clause = i + 1;
            println!(self.out; "17 by clause {clause}: {times}")?;
        }
        self.report_compared()
    }

    // The same of layouts, which have few of the answers.
    pub fn report_layouts(&self) -> io::Result<()> {
        self.written?;
        let trials = self.trials;
        println!(self.out; "plans laid out: {trials}")?;
        for (number, times) in self.answers.iter().enumerate() {
            if *times > 0 {
                println!(self.out; "layout's answer {number}: {times}")?;
            }
        }
        self.report_compared()
    }

    // How many trials had a difference planted, and how many differences were found in them.
    pub fn report_planted(&self) -> io::Result<()> {
        self.written?;
        let (trials, different) = (self.trials, self.different);
        println!(self.out; "planted: {trials}, found: {different}")
    }
}
