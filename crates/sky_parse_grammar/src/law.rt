// Laws of the grammar: what a script is, and how far tokens go that are none. Each is the contract of
// a function that does nothing.

ghost use Rattle.sky_parse_grammar.specs.Laws.{AtTheirWords, BeginsByPartialTrees, NumberedInOrder, OneScript, SpelledOrRefused, UsesTheNames};

/// Some script spells the tokens, or no script does, and then there is exactly one place where they go
/// wrong: the tokens before it begin a sentence, and with the token that stands there they begin none.
pub fn spelled_or_refused()
    ensures { SpelledOrRefused }
{}

/// Tokens begin a sentence, in that some tokens behind them make them a script's, exactly where a tree or
/// a tree that is cut at its right edge spells them.
pub fn begins_by_partial_trees()
    ensures { BeginsByPartialTrees }
{}

/// No two scripts spell the same tokens at the same places, so what a text means is one script.
pub fn one_script()
    ensures { OneScript }
{}

/// An anonymous function captures exactly the variables whose names stand in its body, bodies inside it
/// included, and are none of its parameters.
pub fn uses_are_the_names()
    ensures { UsesTheNames }
{}

/// The anonymous functions of a script stand at the words that begin one, in the order of the text.
pub fn at_their_words()
    ensures { AtTheirWords }
{}

/// The anonymous function with so many before it in the text has their number in its name.
pub fn numbered_in_order()
    ensures { NumberedInOrder }
{}
