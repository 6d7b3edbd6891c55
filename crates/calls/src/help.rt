// What the program says of itself.
pub(crate) const HELP: &str = "\
calls < LINES

Answers calls from standard input, a line for each:

  check WORD ..                          whether this sheet is accepted
  stepper ORDER WORD ..                  limit in force of this Stepper in the first round
  curves PRICE WORD ..                   demand, supply and volume in the first round
  round SPACE WORD ..                    the first round's words, in a space of SPACE words
  opening SPACE WORD ..                  the opening's words, in such a space
  fees RATE LEAST GREATEST SPACE LIST WORD ..
                                         the same, then 'fees' and each order's fee in hellers by
                                         this tariff, in a list of LIST places
  view ROUND COUNT WORD ..               a round of a stored result: situation, auction price,
                                         purchase price, total, fills; the first COUNT words are
                                         the sheet, the others the result; or 'different' and the
                                         place at which it first differs from the opening's
  indicative D H COUNT CLOSING AUCTION   the indicative price, by the count of pieces traded,
                                         the closing purchase price, the last auction price
  next CODE I                            the next band of shares (0) or certificates (1)
  widen D H SIDE                         the band with its upper (0) or lower (1) bound widened
  waiting D H WORD ..                    phase, start, side, lower and upper bound, openings due

Words are hexadecimal, other numbers decimal, with single spaces between them. An answer
is accepted, the numbers that the call gives, or refused with the number of the refusal and
of the order or word at fault, or 0. A line that starts with # is printed as it stands, an
empty line has no answer, and one that makes no sense is unreadable.

docs/RULES.md has the rules and the refusals.
";
