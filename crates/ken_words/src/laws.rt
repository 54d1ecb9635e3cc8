// A law of commands, the contract of a function that does nothing.
ghost use Rattle.ken_words.specs.Fits.{CommandsFit};

/// The numbers of each command that words ask for are in range.
pub fn commands_fit()
    ensures { CommandsFit }
{}
