// The heading of a sheet, words 0 to 4 and the step word, and its checks, refusals 1 to 4, 15 and 17.
ghost use Rattle.std.specs.Prelude.{◌≡◌, ◌≤◌, ◌<◌, length};
ghost use Rattle.rules.specs.Sheet.{plain, layout_for, heading_from};
ghost use Rattle.sheet.specs.Steps.{heading_words_of, step_word_read, wrong_kinds, wrong_prices, wrong_band, wrong_step, wrong_length, HeadingReadsAs};

use crate::{HEADING_WORDS, ORDER_WORDS};
use rules::{Heading, Price, QuotationStep, Refusal, Word, on_grid};
use words::Kind;
use words::cursor::{Cursor, Step};

// The first five words of a heading, and the place after them.
#[derive(Clone, Copy)]
pub(crate) struct HeadingWords {
    pub lower: Word,
    pub upper: Word,
    pub last: Word,
    pub indicative: Word,
    pub count: Word,
    pub next: Cursor,
}

fn read_heading_words(words: &[u32]) -> HeadingWords
    requires { plain.heading ≤ length words.now }
    ensures { result ≡ heading_words_of words.now }
{
    let lower = Cursor::start().step(words);
    let upper = lower.next.step(words);
    let last = upper.next.step(words);
    let indicative = last.next.step(words);
    let count = indicative.next.step(words);
    HeadingWords {
        lower: lower.word,
        upper: upper.word,
        last: last.word,
        indicative: indicative.word,
        count: count.word,
        next: count.next,
    }
}

// Clause 3.1: the words of the heading, by the sheet's length and its number of orders.
fn heading_words(words: usize, count: usize) -> usize
    requires { count < 0x1_0000_0000 }
    ensures { (result ≡ (layout_for count words).heading) × (result ≤ 6) }
{
    if words == HEADING_WORDS + 1 + ORDER_WORDS * count {
        return HEADING_WORDS + 1;
    }
    HEADING_WORDS
}

// The step word, where there is one, or else what a sheet without one means; and the place where the orders begin.
fn read_step_word(words: &[u32], five: HeadingWords) -> Step
    requires { five ≡ heading_words_of words.now }
    ensures { result ≡ step_word_read words.now }
{
    if heading_words(words.len(), five.count.value as usize) == HEADING_WORDS {
        return Step {
            word: Word {
                kind: Kind::Step as u32,
                value: 1,
            },
            next: five.next,
        };
    }
    five.next.step(words)
}

// Refusal 2: a wrong kind in words 0 to 4.
fn wrong_kinds(five: HeadingWords) -> bool
    ensures { result ≡ wrong_kinds five }
{
    !((five.lower.kind == Kind::Lower as u32)
        & (five.upper.kind == Kind::Upper as u32)
        & (five.last.kind == Kind::Last as u32)
        & (five.indicative.kind == Kind::Indicative as u32)
        & (five.count.kind == Kind::Count as u32))
}

fn heading_from(five: HeadingWords, sixth: Word) -> Heading
    ensures { result ≡ heading_from five.lower five.upper five.last five.indicative five.count sixth }
{
    Heading {
        lower: Price(five.lower.value),
        upper: Price(five.upper.value),
        last: Price(five.last.value),
        indicative: Price(five.indicative.value),
        count: five.count.value as usize,
        step: QuotationStep(sixth.value),
    }
}

// Refusal 3, by clause 3.3.
fn wrong_prices(heading: Heading) -> bool
    ensures { result ≡ wrong_prices heading }
{
    !(on_grid(heading.lower.0)
        & on_grid(heading.upper.0)
        & on_grid(heading.last.0)
        & on_grid(heading.indicative.0))
}

// Refusal 15, by clause 3.4.
fn wrong_band(heading: Heading) -> bool
    ensures { result ≡ wrong_band heading }
{
    !((heading.lower.0 < heading.indicative.0) & (heading.indicative.0 < heading.upper.0))
}

// Refusal 17, by clause 3.4a.
fn wrong_step(sixth: Word) -> bool
    ensures { result ≡ wrong_step sixth }
{
    !((sixth.kind == Kind::Step as u32) & (1 <= sixth.value) & (sixth.value <= 1000))
}

// Refusal 4, by clause 3.5.
fn wrong_length(heading: Heading, words: usize) -> bool
    ensures { result ≡ wrong_length words heading }
{
    (120 < heading.count)
        || (words != heading_words(words, heading.count) + ORDER_WORDS * heading.count)
}

// Reads the heading, and hands on the place after it. Its checks run downwards.
pub(crate) fn read_heading(words: &[u32]) -> Result<(Heading, Cursor), Refusal>
    ensures { HeadingReadsAs words.now result }
{
    if words.len() < HEADING_WORDS {
        return Err(Refusal::FewWords);
    }
    let five = read_heading_words(words);
    let sixth = read_step_word(words, five);
    let heading = heading_from(five, sixth.word);
    let kinds = wrong_kinds(five);
    let prices = wrong_prices(heading);
    let band = wrong_band(heading);
    let step = wrong_step(sixth.word);
    let length = wrong_length(heading, words.len());
    if kinds {
        return Err(Refusal::HeadingKind);
    }
    if prices {
        return Err(Refusal::HeadingPrice);
    }
    if band {
        return Err(Refusal::HeadingBand);
    }
    if step {
        return Err(Refusal::HeadingStep);
    }
    if length {
        return Err(Refusal::Length);
    }
    Ok((heading, sixth.next))
}
