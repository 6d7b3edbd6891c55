// The first round of an accepted sheet: it starts from the sheet's quantities. What is promised here is promised of
// every sheet that reads so. That there is one (`OfSheet`) is asked by function and not said by the type, since `book_of`
// and `quantities` ask nothing of a sheet.
ghost use Rattle.std.specs.Prelude.{List, ◌≡◌, ℕ, ltb, length};
ghost use Rattle.lines.specs.Lines.{LineOf};
ghost use Rattle.rules.specs.Answers.{price_answer, curves_answer, space_answer};
ghost use Rattle.rules.specs.Calls.{answer, stepper_limit, curves_at, first_round, first_standing, stepper, Writes};
ghost use Rattle.sheet.specs.Reading.{AcceptedAs, OfSheet};

use book::entering::book_of;
use book::force::line_in_force;
use lines::keys::{place_of, price_at};
use lines::line::Line;
use round::round_of;
use round::writing::write_round;
use rules::{Curves, Order, Price, Refusal, Sheet, Side, Terms, Total, on_grid};
use run::start::quantities;

// Whether an order has this number.
fn has_order(sheet: &Sheet, number: usize) -> bool
    ensures { result ≡ ltb number sheet.now.heading.count }
{
    number < sheet.heading.count
}

// Whether an order is a Stepper.
fn is_stepper(order: Order) -> bool
    ensures { result ≡ stepper order.terms }
{
    matches!(order.terms, Terms::Stepper { .. })
}

// The line of a side in the first round, which starts from the quantities.
fn first_line(sheet: &Sheet, side: Side) -> Line
    ensures { (ws : List ℕ) → AcceptedAs ws sheet.now → LineOf side (first_standing ws) result }
{
    let book = book_of(sheet);
    let mut line = Line::new();
    line_in_force(
        sheet.heading,
        side,
        book.side(side),
        &quantities(sheet),
        &mut line,
    );
    line
}

// The limit in force of the order of a number, where it is a Stepper.
pub(crate) fn limit_in_first(sheet: &Sheet, order: usize) -> Result<Price, Refusal>
    requires { OfSheet sheet.now }
    ensures { (ws : List ℕ) → AcceptedAs ws sheet.now → price_answer result ≡ answer (stepper_limit ws order) }
{
    if !has_order(sheet, order) {
        return Err(Refusal::Argument);
    }
    let found = sheet.orders[order];
    if !is_stepper(found) {
        return Err(Refusal::Argument);
    }
    let line = first_line(sheet, found.side);
    let place = line.place_of_order(order);
    Ok(price_at(found.side, place))
}

// Demand, supply and volume at a price of the grid.
pub(crate) fn curves_in_first(sheet: &Sheet, price: u32) -> Result<Curves, Refusal>
    ensures { (ws : List ℕ) → AcceptedAs ws sheet.now → curves_answer result ≡ answer (curves_at ws price) }
{
    if !on_grid(price) {
        return Err(Refusal::Argument);
    }
    let bids = first_line(sheet, Side::Buy);
    let asks = first_line(sheet, Side::Sell);
    let demand = bids.pieces_at(place_of(Side::Buy, Price(price)));
    let supply = asks.pieces_at(place_of(Side::Sell, Price(price)));
    let volume = Total(demand.0.min(supply.0));
    Ok(Curves {
        demand,
        supply,
        volume,
    })
}

// The first round, written into the lent space where it has the words.
pub(crate) fn round_in_first(sheet: &Sheet, space: &mut [u32]) -> Result<usize, Refusal>
    requires { OfSheet sheet.now }
    ensures { (ws : List ℕ) → AcceptedAs ws sheet.now → Writes (first_round ws (length space.old)) space.old space.new (space_answer result space.new) }
{
    let heading = sheet.heading;
    let size = 4 + heading.count;
    if space.len() < size {
        return Err(Refusal::Space);
    }
    let filed = quantities(sheet);
    let round = round_of(heading, heading.last, &filed, &book_of(sheet));
    write_round(&mut space[..size], &round, heading.count);
    Ok(size)
}
