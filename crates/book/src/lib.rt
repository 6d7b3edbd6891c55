// Clauses 4.1–4.7, limits in force: the book of a sheet, each side's orders put in order once by entered limit;
// and the line of a side in a round, its orders with pieces left by limit in force.
#![tactic(auto)]

ghost use Rattle.std.specs.Prelude.{◌≡◌};
ghost use Rattle.book.specs.Book.{line_of};

use lines::line::Line;
use rules::Side;

pub mod entering;
pub mod force;

// The orders of a sheet by entered limit, one line a side. The amount of an entry is one more than a Stepper ignores,
// 0 for all others.
#[derive(Clone, Copy)]
pub struct Book {
    pub bids: Line,
    pub asks: Line,
}

impl Book {
    // The line of a side.
    pub fn side(&self, side: Side) -> &Line
        ensures { result.now ≡ line_of side self.now }
    {
        match side {
            Side::Buy => &self.bids,
            Side::Sell => &self.asks,
        }
    }
}
