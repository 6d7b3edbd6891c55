// An order's key on its side: the place of its limit, basic before all-or-none, the lower number first, so that
// the larger key goes first. Places are counted from the side's worst price on. An entry is a key and an amount
// below it in one number: in a line the order's pieces, in the book one more than a Stepper ignores. Places and entries
// have no types of their own: they are compared, added and cut as numbers, and each such line would take the number out.
ghost use Rattle.std.specs.Prelude.{cond, ◌≡◌, ◌≤◌, ◌<◌};
ghost use Rattle.claims.specs.Places.{place_of};
ghost use Rattle.rules.specs.Grid.{nth};
ghost use Rattle.lines.specs.Keys.{room, most_places, entry_at, place_in, number_in, whole_in, amount_in, with_amount, at_place};

use rules::{LAST_PRICE, Price, Side};

// What an amount has room in: any 32-bit number, and one more.
const ROOM: u64 = 0x2_0000_0000;

// What is below the place: all-or-none, number and amount.
const PLACE_ROOM: u64 = 0x200_0000_0000;

// The place of a limit: how many prices of the grid it allows.
pub fn place_of(side: Side, limit: Price) -> u32
    ensures { result ≡ place_of side limit.0 }
{
    match side {
        Side::Buy => limit.0.min(LAST_PRICE),
        Side::Sell => LAST_PRICE + 1 - limit.0.max(1).min(LAST_PRICE + 1),
    }
}

// The price at a place.
pub fn price_at(side: Side, place: u32) -> Price
    ensures { result.0 ≡ nth side place }
{
    match side {
        Side::Buy => Price(place),
        Side::Sell => Price(LAST_PRICE + 1 - place.min(LAST_PRICE + 1)),
    }
}

// Basic orders and Steppers come before all-or-none ones.
fn basic_first(all_or_none: bool) -> u64
    ensures { (result ≡ cond all_or_none 0 1) × (result ≤ 1) }
{
    if all_or_none { 0 } else { 1 }
}

// The entry of an order of a number.
pub fn entry(place: u32, all_or_none: bool, number: usize, amount: u64) -> u64
    requires { (place < most_places) × (number < 120) × (amount < room) }
    ensures { result ≡ entry_at place all_or_none number amount }
{
    let key = (u64::from(place) * 2 + basic_first(all_or_none)) * 128 + (127 - number as u64);
    key * ROOM + amount
}

pub fn place_in(entry: u64) -> u32
    ensures { (result ≡ place_in entry) × (result < most_places) }
{
    (entry / PLACE_ROOM) as u32
}

pub fn number_in(entry: u64) -> usize
    ensures { (result ≡ number_in entry) × (result ≤ 119) }
{
    (127 - (entry / ROOM % 128) as usize).min(119)
}

pub fn whole_in(entry: u64) -> bool
    ensures { result ≡ whole_in entry }
{
    entry / (128 * ROOM) % 2 == 0
}

pub fn amount_in(entry: u64) -> u64
    ensures { (result ≡ amount_in entry) × (result < room) }
{
    entry % ROOM
}

// The same order with another amount.
pub fn with_amount(entry: u64, amount: u64) -> u64
    requires { amount < room }
    ensures { result ≡ with_amount entry amount }
{
    entry / ROOM * ROOM + amount
}

// The same order at another place.
pub fn at_place(entry: u64, place: u32) -> u64
    requires { place < most_places }
    ensures { result ≡ at_place entry place }
{
    u64::from(place) * PLACE_ROOM + entry % PLACE_ROOM
}
