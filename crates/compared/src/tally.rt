// How many answers are as they have to be.
ghost use Rattle.std.specs.Prelude.{◌≡◌, true, None, Some};
ghost use Rattle.std.specs.Option.{is_some};
ghost use Rattle.compared.specs.Tallies.{counted, first_wrong, Same, Different, count_told, wrong_told, tally_told};

use std::fmt;
use std::process::ExitCode;

/// So many of all.
#[derive(Clone, Copy, Default, PartialEq, Eq, Debug)]
pub struct Count {
    right: usize,
    all: usize,
}

impl Count {
    fn add(&mut self, right: bool)
        ensures value { self.new ≡ counted right self.old }
    {
        self.all = self.all.saturating_add(1);
        if right {
            self.right = self.right.saturating_add(1);
        }
    }
}

/// As in `3 of 4`.
impl fmt::Display for Count {
    ghost output = { λ c. Some (count_told c) };

    fn fmt<W: fmt::Write>(&self, f: &mut fmt::Formatter<W>) -> fmt::Result {
        write!(f, "{} of {}", self.right, self.all)
    }
}

#[derive(Clone, Copy, Default, PartialEq, Eq, Debug)]
pub struct Tally {
    records: Count,
    refusals: Count,
    differences: Count,
    // The first line, counted from 0, whose answer is not as it has to be.
    wrong: Option<usize>,
}

impl Tally {
    // A wrong answer is kept, unless one was wrong before.
    fn judge(&mut self, number: usize, right: bool)
        ensures value { self.new ≡ record self.old { wrong = first_wrong number right self.old.wrong } }
    {
        if !right && self.wrong.is_none() {
            self.wrong = Some(number);
        }
    }

    /// An answer that has to be the crate's.
    pub fn same(&mut self, number: usize, crates: &str, ours: &str)
        ensures counted { Same number crates.now ours.now self.old self.new }
    {
        let right = crates == ours;
        if crates.as_bytes().starts_with(b"bytes ") {
            self.records.add(right);
        } else {
            self.refusals.add(right);
        }
        self.judge(number, right);
    }

    /// An answer that has to differ from the crate's.
    pub fn different(&mut self, number: usize, crates: &str, ours: &str)
        ensures counted { Different number crates.now ours.now self.old self.new }
    {
        let right = crates != ours;
        self.differences.add(right);
        self.judge(number, right);
    }

    /// Success where no answer is wrong.
    pub fn status(&self) -> ExitCode
        ensures success { self.now.wrong ≡ None → result ≡ ExitCode.SUCCESS }
        ensures failure { is_some self.now.wrong ≡ true → result ≡ ExitCode.FAILURE }
    {
        match self.wrong {
            None => ExitCode::SUCCESS,
            Some(_) => ExitCode::FAILURE,
        }
    }
}

// The line of the first wrong answer, on a line of its own, if one is wrong.
#[derive(Clone, Copy, PartialEq, Eq, Debug)]
struct FirstWrong(Option<usize>);

impl fmt::Display for FirstWrong {
    ghost output = { λ w. Some (wrong_told w.0) };

    fn fmt<W: fmt::Write>(&self, f: &mut fmt::Formatter<W>) -> fmt::Result {
        match self.0 {
            None => Ok(()),
            Some(number) => {
                let line = number.saturating_add(1);
                write!(f, "\nthe first that is wrong: line {line}")
            }
        }
    }
}

impl fmt::Display for Tally {
    ghost output = { λ t. Some (tally_told t) };

    fn fmt<W: fmt::Write>(&self, f: &mut fmt::Formatter<W>) -> fmt::Result {
        write!(
            f,
            "records with the bytes of quick-xml 0.42.0: {}\n\
             calls refused where it answers Unsupported: {}\n\
             known differences that still differ: {}{}",
            self.records,
            self.refusals,
            self.differences,
            FirstWrong(self.wrong)
        )
    }
}
