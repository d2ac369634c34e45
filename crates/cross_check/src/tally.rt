// What was seen.
use session::faults::QuestionFault;
use session::verdict::Verdict;
use std::fmt;

/// The answers over one oracle.
#[derive(Clone, Copy, Default)]
pub(crate) struct Answers {
    open: u32,
    closed: u32,
    given_up: u32,
}

impl Answers {
    pub(crate) fn count(&mut self, answer: &Result<Verdict, QuestionFault>) {
        let counter = match *answer {
            Ok(Verdict::Open(_)) => &mut self.open,
            Ok(Verdict::Closed(_)) => &mut self.closed,
            Err(_) => &mut self.given_up,
        };
        *counter = counter.saturating_add(1);
    }
}

impl fmt::Display for Answers {
    fn fmt<W: fmt::Write>(&self, f: &mut fmt::Formatter<W>) -> fmt::Result {
        let Answers {
            open,
            closed,
            given_up,
        } = *self;
        write!(
            f,
            "{open} open, {closed} closed, {given_up} given up with 22"
        )
    }
}

#[derive(Clone, Copy, Default)]
pub(crate) struct Tally {
    pub(crate) rules: usize,
    pub(crate) questions: u32,
    pub(crate) met: u32,
    pub(crate) search: Answers,
    pub(crate) plain: Answers,
    pub(crate) differences: u32,
}

impl fmt::Display for Tally {
    fn fmt<W: fmt::Write>(&self, f: &mut fmt::Formatter<W>) -> fmt::Result {
        let unmet = self.questions.saturating_sub(self.met);
        writeln!(f, "{} rules, {} questions", self.rules, self.questions)?;
        writeln!(f, "second solver: {} open, {unmet} closed", self.met)?;
        writeln!(f, "search oracle: {}", self.search)?;
        writeln!(f, "plain oracle: {}", self.plain)?;
        write!(f, "differences: {}", self.differences)
    }
}
