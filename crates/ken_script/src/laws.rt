// The laws of the words in `specs/`.
ghost use Rattle.ken_script.specs.Faults.{Breaks};
ghost use Rattle.ken_script.specs.Laws.{IsLanguage};
ghost use Rattle.ken_script.specs.Says.{Says};
ghost use Rattle.ken_script.specs.Service.{BreaksService, SaysService};

/// Does nothing: its clauses say what holds of what a text says and which rule it breaks, of the scripts of kinds and of services. A text does
/// one of the two at most, in one way, and `LIMIT + 1` of its bytes tell which.
pub fn refusals_are_exact()
    ensures kinds { IsLanguage Says Breaks }
    ensures services { IsLanguage SaysService BreaksService }
{}
