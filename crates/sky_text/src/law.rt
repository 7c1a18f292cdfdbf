// Laws of the tokens of a script. Their definition reads a script from the left; the laws say in
// other words what it comes to. Each is the contract of a function that does nothing.

ghost use Rattle.sky_text.specs.Parts.{GapsAndTokens};
ghost use Rattle.sky_text.specs.Spelling.{SpelledOutAgain};

/// The bytes of a script that has tokens are gaps and tokens, in order and none twice. Each token has
/// its bytes from its first up to behind its last, and these spell its kind.
pub fn gaps_and_tokens()
    ensures { GapsAndTokens }
{}

/// Tokens that are spelled out with a blank between them are those tokens again.
pub fn spelled_out_again()
    ensures { SpelledOutAgain }
{}
