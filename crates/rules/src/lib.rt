// The types that the rules and the engine share, and the refusals with their numbers.
#![tactic(auto)]

ghost use Rattle.std.specs.Prelude.{◌≡◌};
ghost use Rattle.rules.specs.Grid.{on_grid};
ghost use Rattle.rules.specs.declared.Unopened.TheVariants.{Refused};
ghost use Rattle.rules.specs.AuctionPrice.{situation_number};
ghost use Rattle.rules.specs.Answers.{fault_number, waiting_fault_number, side_number, refusal_number, refusal_place};

// Clause 1.1: a price, in tens of hellers. Prices and pieces are compared as numbers, as the definitions do.
#[derive(Clone, Copy)]
pub struct Price(pub u32);

// Clause 1.1: a number of pieces.
#[derive(Clone, Copy)]
pub struct Pieces(pub u32);

// Clause 1.1: how far a Stepper goes past its best rival price, in tens of hellers too. It is a distance, and no price.
#[derive(Clone, Copy)]
pub struct QuotationStep(pub u32);

// The pieces of several orders together. In 64 bits there is room for any 120 quantities.
#[derive(Clone, Copy)]
pub struct Total(pub u64);

// The last price of the grid, which starts at 1.
pub const LAST_PRICE: u32 = 1000000;

// Whether a number is a price of the grid.
pub fn on_grid(price: u32) -> bool
    ensures { result ≡ on_grid price }
{
    (1 <= price) & (price <= LAST_PRICE)
}

// Clause 1.5: a word of a sheet, of a result or of a waiting list. Its kind is a number, as the definitions compare it.
#[derive(Clone, Copy)]
pub struct Word {
    pub kind: u32,
    pub value: u32,
}

#[derive(Clone, Copy, PartialEq, Eq)]
pub enum Side {
    Buy,
    Sell,
}

// Clause 3.10: the terms of an order.
#[derive(Clone, Copy)]
pub enum Terms {
    WithoutLimit { all_or_none: bool },
    Limited { limit: Price, all_or_none: bool },
    Stepper { limit: Price, ignored: Pieces },
}

#[derive(Clone, Copy)]
pub struct Order {
    pub side: Side,
    pub terms: Terms,
    pub quantity: Pieces,
}

// An order as it stands in a round: its limit, entered or in force, and what remains of it.
#[derive(Clone, Copy)]
pub struct Standing {
    pub side: Side,
    pub limit: Price,
    pub remaining: Pieces,
    pub all_or_none: bool,
}

// Clauses 5.10 and 5.11: what demand and supply a round has, and where.
#[derive(Clone, Copy)]
pub enum Situation {
    // Both meet at some price.
    Crossed = 0,
    // The band has supply alone.
    SupplyAlone = 1,
    // The band has demand alone.
    DemandAlone = 2,
    // The band has both, but at no price both.
    Apart = 3,
    // The band has neither.
    Empty = 4,
}

// The situation of a round, by its number, and its auction price. What settles a round promises its fills for any number.
#[derive(Clone, Copy)]
pub struct Auctioned {
    pub situation: u32,
    pub price: Price,
}

// The heading of a sheet: the band's bounds, the last purchase price, the indicative price, the number
// of orders and the quotation step.
#[derive(Clone, Copy)]
pub struct Heading {
    pub lower: Price,
    pub upper: Price,
    pub last: Price,
    pub indicative: Price,
    pub count: usize,
    pub step: QuotationStep,
}

// What an accepted sheet says: its heading, and its orders in 120 places, those from the number of orders on
// holding none. They stand in places as the fills do, which a round hands back for all 120; the sheet itself says how
// many they are.
#[derive(Clone, Copy)]
pub struct Sheet {
    pub heading: Heading,
    pub orders: [Order; 120],
}

// Clause 9.6: the bounds of a band.
#[derive(Clone, Copy)]
pub struct Band {
    pub lower: Price,
    pub upper: Price,
}

// Clause 9.10: the side on which a round was priced outside the band. A widening moves the bound of that side.
#[derive(Clone, Copy)]
pub enum Outside {
    Above = 0,
    Below = 1,
}

// Clause 9.10: whether a waiting phase is on, with the second of the day at which it started and its side. An `Option`
// would be no plainer: the definitions of the clock tell the two cases by these names.
#[derive(Clone, Copy)]
pub enum Phase {
    Idle,
    Waiting { start: u32, side: Outside },
}

// Clause 9.10: what the words of a waiting list lead to: the latest second said, the phase, the band's
// bounds and how many openings are due.
#[derive(Clone, Copy)]
pub struct Clock {
    pub second: u32,
    pub phase: Phase,
    pub lower: Price,
    pub upper: Price,
    pub due: u32,
}

// Clause 8.5: what is charged for a fill: so many ten-thousandths of its worth, and the least and the greatest
// fee, in hellers.
#[derive(Clone, Copy)]
pub struct Tariff {
    pub rate: u32,
    pub least: u32,
    pub greatest: u32,
}

// Clause 8.6: what an order gets in a round, and the round's purchase price.
#[derive(Clone, Copy)]
pub struct Trade {
    pub pieces: Pieces,
    pub purchase: Price,
}

// What may be wrong with an order, by the number of its refusal.
#[derive(Clone, Copy)]
pub enum OrderFault {
    // A wrong kind in its three words.
    Kind = 5,
    // Disposition or limit not allowed.
    Terms = 6,
    // Quantity out of range.
    Quantity = 7,
    // Ignored quantity out of range, or on an order that is no Stepper.
    Ignored = 8,
}

// What may be wrong with a word of a waiting list, by the number of its refusal.
#[derive(Clone, Copy)]
pub enum WaitingFault {
    // A kind or a value that it may not have.
    Word = 13,
    // A second that is lower than the one before it.
    Second = 14,
    // A second whose widening would leave the grid.
    Widening = 11,
}

// Why a call refuses. A call answers with a `Result`, whose error is this.
#[derive(Clone, Copy)]
pub enum Refusal {
    // Fewer than 5 words.
    FewWords,
    // A wrong kind in words 0 to 4.
    HeadingKind,
    // A price off the grid.
    HeadingPrice,
    // D not below I, or I not below H.
    HeadingBand,
    // A step word of a wrong kind or value.
    HeadingStep,
    // More than 120 orders, or a wrong length.
    Length,
    // A fault of the order of this number.
    Order(OrderFault, usize),
    // An argument that is not allowed.
    Argument,
    // A fault of the word at this place of a waiting list.
    AtWord(WaitingFault, usize),
    // A tariff that does not stand.
    Tariff,
    // A band that cannot be had.
    Band,
    // Too few words in the lent space, or too few places in the lent fee list.
    Space,
    // Bytes that are no sheet: not a multiple of 4, or too many.
    Input,
}

// Each enum below has its number by a function of its own: each promises another definition, and a cast cannot be
// generic.
impl OrderFault {
    pub fn number(self) -> u32
        ensures { result ≡ fault_number self }
    {
        self as u32
    }
}

impl WaitingFault {
    pub fn number(self) -> u32
        ensures { result ≡ waiting_fault_number self }
    {
        self as u32
    }
}

impl Situation {
    pub fn number(self) -> u32
        ensures { result ≡ situation_number self }
    {
        self as u32
    }
}

impl Outside {
    pub fn number(self) -> u32
        ensures { result ≡ side_number self }
    {
        self as u32
    }
}

impl Refusal {
    // Clause 2.3.
    pub fn number(self) -> u32
        ensures { result ≡ refusal_number self }
    {
        match self {
            Refusal::FewWords => 1,
            Refusal::HeadingKind => 2,
            Refusal::HeadingPrice => 3,
            Refusal::HeadingBand => 15,
            Refusal::HeadingStep => 17,
            Refusal::Length => 4,
            Refusal::Order(fault, _) => fault.number(),
            Refusal::Argument => 9,
            Refusal::AtWord(fault, _) => fault.number(),
            Refusal::Tariff => 16,
            Refusal::Band => 11,
            Refusal::Space => 10,
            Refusal::Input => 12,
        }
    }

    // Clause 2.4.
    pub fn place(self) -> usize
        ensures { result ≡ refusal_place self }
    {
        match self {
            Refusal::Order(_, order) => order,
            Refusal::AtWord(_, word) => word,
            _ => 0,
        }
    }
}

// Demand, supply and volume at a price.
#[derive(Clone, Copy)]
pub struct Curves {
    pub demand: Total,
    pub supply: Total,
    pub volume: Total,
}

// Clause 10.6b: why a stored result does not open beside its sheet: it first differs at this place, or the opening
// of the sheet is refused.
#[derive(Clone, Copy)]
pub enum Unopened {
    Different(usize),
    Refused(Refusal),
}

impl From<Refusal> for Unopened {
    ghost from_gives = { λ refusal unopened. unopened ≡ Refused refusal };

    fn from(refusal: Refusal) -> Unopened {
        Unopened::Refused(refusal)
    }
}

// Clause 10.6c: what a round of a result says before its fills. The situation is a number, as stored words may say any:
// `page_answer` gives it as it stands.
#[derive(Clone, Copy)]
pub struct Summary {
    pub situation: u32,
    pub price: Price,
    pub purchase: Price,
    pub total: Pieces,
}

// Clause 10.6c: what a round of a stored result says, with the place of its first fill word and how many there are.
#[derive(Clone, Copy)]
pub struct StoredRound {
    pub summary: Summary,
    pub fills: usize,
    pub count: usize,
}
