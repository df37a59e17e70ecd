//! Laws of the definitions. Each is the contract of a function that does nothing.
ghost use Rattle.std.specs.Prelude.{ℕ};
ghost use Rattle.std.specs.List.{AllByRecursion};
ghost use Rattle.zber.specs.Elements.{Element};
ghost use Rattle.zapdu.specs.Writes.{Writes};
ghost use Rattle.zknow.specs.Facts.{IsFact};
ghost use Rattle.zorigin.specs.declared.answer.Answer.{Answer};
ghost use Rattle.zorigin.specs.Answers.{IsFitAnswer};
ghost use Rattle.zorigin_facts.specs.Facts.{facts_of};

/// If the reply has an element, as each reply that was read has, the facts of the answer can be added to a knowledge.
pub fn known_facts()
    ensures { (target : ℕ) (answer : Answer) (n : Element)
        → IsFitAnswer answer → Writes answer.reply n → AllByRecursion IsFact (facts_of target answer) }
{}
