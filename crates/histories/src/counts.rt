// What happened in all histories, so that a reader sees that every answer occurs.
use std::io;
use std::io::Print;

// Refusals and faults have numbers below this.
const NUMBERS: usize = 64;

#[derive(Clone, Copy)]
pub enum Act {
    Post,
    Put,
    Clear,
    Fresh,
    Check,
    Question,
}

// How often a call was done, and how often it was refused.
#[derive(Clone, Copy)]
struct Calls {
    done: usize,
    refused: usize,
}

const NONE: Calls = Calls {
    done: 0,
    refused: 0,
};

#[derive(Drop)]
pub struct Counts {
    posts: Calls,
    puts: Calls,
    clears: Calls,
    freshes: Calls,
    checks: Calls,
    questions: Calls,
    stores: Calls,
    refusals: [usize; NUMBERS],
    faults: [usize; NUMBERS],
    pub valid: usize,
    pub walked: usize,
    pub unwalked: usize,
    pub alterations: usize,
    pub with_fresh: usize,
    pub with_kept: usize,
    pub types: usize,
}

// One more.
pub fn more(count: &mut usize) {
    *count = count.saturating_add(1);
}

// One more of that number.
fn tally(numbers: &mut [usize], number: usize) {
    if let Some(count) = numbers.get_mut(number) {
        more(count);
    }
}

impl Counts {
    // Nothing happened yet.
    pub fn new() -> Counts {
        Counts {
            posts: NONE,
            puts: NONE,
            clears: NONE,
            freshes: NONE,
            checks: NONE,
            questions: NONE,
            stores: NONE,
            refusals: [0; NUMBERS],
            faults: [0; NUMBERS],
            valid: 0,
            walked: 0,
            unwalked: 0,
            alterations: 0,
            with_fresh: 0,
            with_kept: 0,
            types: 0,
        }
    }

    // A call was done, or refused with a number.
    pub fn count(&mut self, act: Act, number: usize) {
        let calls = match act {
            Act::Post => &mut self.posts,
            Act::Put => &mut self.puts,
            Act::Clear => &mut self.clears,
            Act::Fresh => &mut self.freshes,
            Act::Check => &mut self.checks,
            Act::Question => &mut self.questions,
        };
        if number == 0 {
            more(&mut calls.done);
        } else {
            more(&mut calls.refused);
            tally(&mut self.refusals, number);
        }
    }

    // A store was called.
    pub fn count_store(&mut self, number: Option<u8>) {
        match number {
            None => more(&mut self.stores.done),
            Some(n) => {
                more(&mut self.stores.refused);
                tally(&mut self.refusals, usize::from(n));
            }
        }
    }

    // A check answered.
    pub fn count_check(&mut self, answer: [usize; 5]) {
        let [walked, number, _, _, _] = answer;
        if walked == 99 {
            return self.count(Act::Check, number);
        }
        self.count(Act::Check, 0);
        self.walked = self.walked.saturating_add(walked);
        if walked == 0 {
            more(&mut self.unwalked);
        }
        if number == 0 {
            more(&mut self.valid);
        } else {
            tally(&mut self.faults, number);
        }
    }

    // Prints the numbers that occurred.
    fn print_numbers<P: Print>(rt: &P, what: &str, numbers: &[usize]) -> io::Result<()> {
        for (number, count) in numbers.iter().enumerate() {
            if *count > 0 {
                println!(rt; "{what} {number}: {count}")?;
            }
        }
        Ok(())
    }

    // Prints how often a call was done and refused.
    fn print_calls<P: Print>(rt: &P, what: &str, calls: Calls) -> io::Result<()> {
        let Calls { done, refused } = calls;
        println!(rt; "{what}: {done} done, {refused} refused")
    }

    // Prints everything.
    pub fn print<P: Print>(&self, rt: &P) -> io::Result<()> {
        Counts::print_calls(rt, "post", self.posts)?;
        Counts::print_calls(rt, "put", self.puts)?;
        Counts::print_calls(rt, "clear", self.clears)?;
        Counts::print_calls(rt, "fresh", self.freshes)?;
        Counts::print_calls(rt, "check", self.checks)?;
        Counts::print_calls(rt, "question to a reader", self.questions)?;
        Counts::print_calls(rt, "call on a store", self.stores)?;
        Counts::print_numbers(rt, "refused", &self.refusals)?;
        self.print_checks(rt)?;
        Counts::print_numbers(rt, "fault", &self.faults)
    }

    // Prints what checks came to.
    fn print_checks<P: Print>(&self, rt: &P) -> io::Result<()> {
        let Counts {
            valid,
            walked,
            unwalked,
            ..
        } = self;
        println!(rt;
            "valid books: {valid}; sheets walked: {walked}; checks with none due: {unwalked}"
        )?;
        let Counts {
            alterations,
            with_fresh,
            with_kept,
            types,
            ..
        } = self;
        println!(rt; "alterations from outside: {alterations}")?;
        println!(rt;
            "checks compared with a fresh book: {with_fresh}, with kept verdicts: {with_kept}; places asked: {types}"
        )
    }
}
