//! Random rules, for programs that try many. A rule is a modal clause: one literal, or two of which one holds, each a
//! letter or a box or diamond of a smaller modal clause, or the denial of one. Of such rules asked together, some sets
//! can be met and some cannot. The crate stands on `random` and `rule_writer`; it promises how many rules are drawn,
//! and not which.
//!
//! - `draw_all`: so many random rules of a `Shape`, each as the writer of its rows
#![tactic(auto)]

ghost use Rattle.std.specs.Prelude.{◌≡◌, length, IfOk};

use modal::row::Row;
use random::Random;
use rule_writer::Writer;
use std::alloc::{AllocError, Global};

/// What to draw from: the lowest `letters` letters, and how many boxes and diamonds stand within one another.
#[derive(Clone, Copy)]
pub struct Shape {
    pub letters: u8,
    pub depth: u8,
}

/// One rule and what it is drawn from.
#[derive(Drop)]
struct Draft<'a> {
    writer: Writer,
    random: &'a mut Random,
    letters: u8,
}

impl Draft<'_> {
    fn letter(&mut self) -> Result<u8, AllocError> {
        let letter = self.random.below(self.letters);
        let row = self.writer.row(Row::Letter(letter))?;
        self.either_sign(row)
    }

    fn either_sign(&mut self, row: u8) -> Result<u8, AllocError> {
        if self.random.coin() {
            return self.writer.row(Row::Not(row));
        }
        Ok(row)
    }

    // A box or a diamond of a clause, or the denial of one.
    #[cycle(modal_clause)]
    fn modal(&mut self, depth: u8) -> Result<u8, AllocError> {
        let inner = self.clause(depth)?;
        let row = if self.random.coin() {
            Row::Box(inner)
        } else {
            Row::Diamond(inner)
        };
        let row = self.writer.row(row)?;
        self.either_sign(row)
    }

    // A literal of the depth, or less deep.
    #[cycle(modal_clause)]
    fn literal(&mut self, depth: u8) -> Result<u8, AllocError> {
        match depth.checked_sub(1) {
            Some(less) if self.random.below(3) > 0 => self.modal(less),
            _ => self.letter(),
        }
    }

    // One literal of the depth, and perhaps one more, which is shallow: a rule has at most 64 rows.
    #[cycle(modal_clause)]
    fn clause(&mut self, depth: u8) -> Result<u8, AllocError> {
        let row = self.literal(depth)?;
        if self.random.coin() {
            return Ok(row);
        }
        let other = self.literal(depth.min(1))?;
        self.writer.row(Row::Or(row, other))
    }
}

// A rule of the shape.
fn draw(random: &mut Random, shape: Shape, heap: Global) -> Result<Writer, AllocError> {
    let mut draft = Draft {
        writer: Writer::new(heap),
        random,
        letters: shape.letters,
    };
    draft.clause(shape.depth)?;
    Ok(draft.writer)
}

/// So many rules of the shape.
pub fn draw_all(
    random: &mut Random,
    shape: Shape,
    count: u8,
    heap: Global,
) -> Result<Vec<Writer>, AllocError>
    ensures { IfOk result (λ rules. length rules.items ≡ count) }
{
    let mut rules = Vec::new(heap);
    for _ in 0..count {
        rules.push(draw(random, shape, heap)?)?;
    }
    Ok(rules)
}
