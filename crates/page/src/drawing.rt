// A tree in words: a line for each world, under its parent, with its row's number and its letters.
ghost use Rattle.std.specs.Prelude.{◌<◌, length};

use atoms::sets::{ATOMS, AtomSet};
use sheet::row::SheetRow;
use std::fmt;

/// The rows of a tree, to be shown as an indented drawing.
#[derive(Clone, Copy)]
pub struct Drawing<'a>(pub &'a [SheetRow]);

impl fmt::Display for Drawing<'_> {
    fn fmt<W: fmt::Write>(&self, f: &mut fmt::Formatter<W>) -> fmt::Result {
        match self.0.first() {
            Some(root) => world(self.0, 0, root, f),
            None => Ok(()),
        }
    }
}

// The world and the worlds under it, each further in than its parent.
fn world<W: fmt::Write>(
    tree: &[SheetRow],
    number: usize,
    row: &SheetRow,
    f: &mut fmt::Formatter<W>,
) -> fmt::Result
    requires { number < length tree.now }
{
    indent(row.level, f)?;
    write!(f, "world {number}:")?;
    letters(row.letters, f)?;
    // Among the later rows alone, as the evaluation of a sheet finds them.
    let first = number + 1;
    let children = tree[first..]
        .iter()
        .enumerate()
        .filter(|(_, child)| child.parent == number as u64);
    for (offset, child) in children {
        world(tree, first + offset, child, f)?;
    }
    Ok(())
}

fn indent<W: fmt::Write>(level: u8, f: &mut fmt::Formatter<W>) -> fmt::Result {
    for _ in 0..level {
        write!(f, "  ")?;
    }
    Ok(())
}

// Not in line: the loop over the rows of a tree stays short.
#[inline(never)]
fn letters<W: fmt::Write>(set: AtomSet, f: &mut fmt::Formatter<W>) -> fmt::Result {
    if set.is_empty() {
        return writeln!(f, " no letters");
    }
    for a in (0..ATOMS).filter(|a| set.member(*a)) {
        write!(f, " {a}")?;
    }
    writeln!(f, "")
}
