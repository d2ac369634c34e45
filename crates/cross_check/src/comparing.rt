// One set of rules after another, asked of two sessions and of the second solver.
use crate::tally::Tally;
use plain::Plain;
use random::Random;
use rule_sets::RuleSet;
use search::Searcher;
use session::faults::QuestionFault;
use session::session::Session;
use session::verdict::Verdict;
use sheet::row::SheetRow;
use sheet::truth::truth;
use std::alloc::{AllocError, Global};
use tableau::satisfiable::satisfiable;

// As many rows as most trees have here; larger ones are not drawn.
const ROOM: usize = 64;

/// The rules of a set that are asked, and whether they can be met.
#[derive(Drop)]
struct Question<'a> {
    set: &'a RuleSet,
    asked: u16,
    met: bool,
    heap: Global,
}

fn drawn(sheet: &[SheetRow]) -> usize {
    sheet.iter().filter(|row| !row.is_blank()).count()
}

impl Question<'_> {
    // Whether the sheet shows a tree of so many worlds whose root meets the rules asked, or is too small for it.
    fn is_drawn(&self, count: u64, sheet: &[SheetRow]) -> anyhow::Result<bool> {
        if count > sheet.len() as u64 {
            return Ok(drawn(sheet) == 0);
        }
        for rule in self.set.asked(self.asked, self.heap)? {
            if truth(sheet, &rule) != Ok(true) {
                return Ok(false);
            }
        }
        Ok(drawn(sheet) as u64 == count)
    }

    // Whether the rules of the core are some of those asked, and cannot be met.
    fn is_core(&self, core: u16) -> anyhow::Result<bool> {
        Ok(core & !self.asked == 0 && !satisfiable(&self.set.asked(core, self.heap)?))
    }

    fn is_right(
        &self,
        answer: &Result<Verdict, QuestionFault>,
        sheet: &[SheetRow],
    ) -> anyhow::Result<bool> {
        match *answer {
            Ok(Verdict::Open(count)) => Ok(self.met && self.is_drawn(count, sheet)?),
            Ok(Verdict::Closed(core)) => Ok(!self.met && self.is_core(core)? && drawn(sheet) == 0),
            Err(QuestionFault::LevelFull(_)) => Ok(drawn(sheet) == 0),
            Err(QuestionFault::UnknownRule(_)) => Ok(false),
        }
    }
}

/// What was seen, and the sheet for the trees.
#[derive(Drop)]
pub(crate) struct Comparison {
    tally: Tally,
    sheet: Vec<SheetRow>,
    heap: Global,
}

impl Comparison {
    pub(crate) fn new(heap: Global) -> Result<Comparison, AllocError> {
        Ok(Comparison {
            tally: Tally::default(),
            sheet: vec![in heap; SheetRow::BLANK; ROOM]?,
            heap,
        })
    }

    pub(crate) fn tally(&self) -> Tally {
        self.tally
    }

    fn expect(&mut self, right: bool) {
        self.tally.differences = self.tally.differences.saturating_add(u32::from(!right));
    }

    // Asks both sessions and the second solver, and compares.
    fn ask(
        &mut self,
        set: &RuleSet,
        asked: u16,
        search: &mut Session<Searcher>,
        plain: &mut Session<Plain>,
    ) -> anyhow::Result<()> {
        let heap = self.heap;
        let met = satisfiable(&set.asked(asked, heap)?);
        let question = Question {
            set,
            asked,
            met,
            heap,
        };
        self.tally.questions = self.tally.questions.saturating_add(1);
        self.tally.met = self.tally.met.saturating_add(u32::from(met));
        let answer = search.question(asked, &mut self.sheet);
        self.tally.search.count(&answer);
        let right = question.is_right(&answer, &self.sheet)?;
        self.expect(right);
        let answer = plain.question(asked, &mut self.sheet);
        self.tally.plain.count(&answer);
        let right = question.is_right(&answer, &self.sheet)?;
        self.expect(right);
        Ok(())
    }

    /// Asks for all rules of the set, for all but one, and for all again after forgetting.
    pub(crate) fn compare(&mut self, set: RuleSet, random: &mut Random) -> anyhow::Result<()> {
        let mut search = Session::new(Searcher::new());
        set.add_to(&mut search)?;
        let mut plain = Session::new(Plain::new());
        set.add_to(&mut plain)?;
        self.tally.rules = self.tally.rules.saturating_add(set.len());
        let left_out = 1_u16.checked_shl(u32::from(random.below(8))).unwrap_or(0);
        self.ask(&set, set.all(), &mut search, &mut plain)?;
        self.ask(&set, set.all() & !left_out, &mut search, &mut plain)?;
        search.forget();
        plain.forget();
        self.ask(&set, set.all(), &mut search, &mut plain)
    }
}
